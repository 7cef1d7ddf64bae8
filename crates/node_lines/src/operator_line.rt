ghost use Rattle.std.specs.Prelude.{◌≡◌, true, Some, None, Err, IfOk};
ghost use Rattle.line_forms.specs.Forms.{takes};
ghost use Rattle.node_lines.specs.Grammar.{operator_form, operator_has_bytes, operator_line_in, operator_begins_with_bytes, IsOperatorLine};

use line_forms::{LineRefusal, Words, named};
use node_replies::OperatorOrder;
use plasma_base::Bytes;
use std::alloc::Global;

/// A command of the operator's run.
#[derive(Drop)]
pub enum OperatorLine {
    /// An order: `offer <hex>`, `lay <coin> <hex>`, `seal`, `bundle <coin> <tip>`, `prove <coin> <block>` or
    /// `absences <coin> <after> <last>`.
    Order { order: OperatorOrder },
    /// `receipt <hex> <due>`: takes a signed transfer into the pool, and promises in writing that a block
    /// up to `due` holds it.
    Receipt { transfer: Bytes, due: u64 },
    /// `migrate`: puts the marker into the journal of the key's leaves.
    Migrate,
}

/// The first word of an operator's command.
#[derive(Clone, Copy, PartialEq, Eq)]
pub enum OperatorLineName {
    Offer,
    Lay,
    Seal,
    Bundle,
    Prove,
    Absences,
    Receipt,
    Migrate,
}

/// The first words of an operator's commands.
pub const OPERATOR_LINE_NAMES: [(&[u8], OperatorLineName); 8] = [
    (b"offer", OperatorLineName::Offer),
    (b"lay", OperatorLineName::Lay),
    (b"seal", OperatorLineName::Seal),
    (b"bundle", OperatorLineName::Bundle),
    (b"prove", OperatorLineName::Prove),
    (b"absences", OperatorLineName::Absences),
    (b"receipt", OperatorLineName::Receipt),
    (b"migrate", OperatorLineName::Migrate),
];

// A command that is an order.
fn of_order(order: OperatorOrder) -> OperatorLine
    ensures { result ≡ OperatorLine.Order order }
{
    OperatorLine::Order { order }
}

// The command with this first word.
fn operator_line_of(
    alloc: Global,
    name: OperatorLineName,
    words: &mut Words<'_>,
) -> Result<OperatorLine, LineRefusal>
    ensures found { IfOk result (λ line. takes (operator_form name) words.old ≡ Some (line, words.new)) }
    ensures bad { result ≡ Err LineRefusal.BadLine → takes (operator_form name) words.old ≡ None }
    ensures memory { result ≡ Err LineRefusal.NoMemory → operator_has_bytes name ≡ true }
{
    match name {
        OperatorLineName::Offer => Ok(of_order(OperatorOrder::Offer {
            transfer: words.hex(alloc)?,
        })),
        OperatorLineName::Lay => Ok(of_order(OperatorOrder::Lay {
            coin: words.number()?,
            leaf: words.hex(alloc)?,
        })),
        OperatorLineName::Seal => Ok(of_order(OperatorOrder::Seal)),
        OperatorLineName::Bundle => Ok(of_order(OperatorOrder::Bundle {
            coin: words.number()?,
            tip: words.number()?,
        })),
        OperatorLineName::Prove => Ok(of_order(OperatorOrder::Prove {
            coin: words.number()?,
            block: words.number()?,
        })),
        OperatorLineName::Absences => Ok(of_order(OperatorOrder::Absences {
            coin: words.number()?,
            after: words.number()?,
            last: words.number()?,
        })),
        OperatorLineName::Receipt => Ok(OperatorLine::Receipt {
            transfer: words.hex(alloc)?,
            due: words.number()?,
        }),
        OperatorLineName::Migrate => Ok(OperatorLine::Migrate),
    }
}

/// The operator's command that a line spells, without a line feed. It refuses `BadLine` exactly where
/// it spells none, and takes memory only where its first word begins a command that has bytes.
#[tactic(auto, unfolding(crate::specs::Grammar::operator_line_in, line_forms::specs::Forms::value_in))]
pub fn read_operator_line(alloc: Global, line: &[u8]) -> Result<OperatorLine, LineRefusal>
    ensures found { IfOk result (λ it. operator_line_in line.now ≡ Some it) }
    ensures bad { result ≡ Err LineRefusal.BadLine → operator_line_in line.now ≡ None }
    ensures memory { result ≡ Err LineRefusal.NoMemory → operator_begins_with_bytes line.now ≡ true }
    ensures grammar { IfOk result IsOperatorLine }
{
    let mut words = Words::of(line);
    let word = words.next().ok_or(LineRefusal::BadLine)?;
    let name = named(&OPERATOR_LINE_NAMES, word).ok_or(LineRefusal::BadLine)?;
    let command = operator_line_of(alloc, name, &mut words)?;
    words.end()?;
    Ok(command)
}
