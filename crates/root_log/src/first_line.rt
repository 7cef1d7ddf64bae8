ghost use Rattle.std.specs.Prelude.{◌≡◌, Some, None, Err, IfOk};
ghost use Rattle.line_forms.specs.Forms.{takes};
ghost use Rattle.root_log.specs.Grammar.{first_lines};

use super::calls::array_of;
use line_forms::Piece::{Hex, Name, Number};
use line_forms::{Grammar, LineRefusal, Words, named, push_pieces};
use plasma_base::NoMemory;
use std::alloc::Global;

/// The number of bytes of a chain's tag.
pub const TAG_BYTES: usize = 32;

/// The largest number of blocks that the first line of a log may allow.
pub const MOST_BLOCKS: u64 = 4_294_967_295;

/// The first line of a log, `chain <tag> <operator> <most>`: the chain's tag, a hex of `TAG_BYTES`
/// bytes; the operator's account; and the most blocks, from 1 to `MOST_BLOCKS`.
#[derive(Clone, Copy, Drop)]
pub struct FirstLine {
    pub tag: [u8; 32],
    pub operator: u64,
    pub most: u64,
}

/// The first word of a log.
#[derive(Clone, Copy, PartialEq, Eq)]
pub enum FirstName {
    Chain,
}

/// The first words of a log.
pub const FIRST_NAMES: [(&[u8], FirstName); 1] = [(b"chain", FirstName::Chain)];

// The first line with this first word.
fn first_of(alloc: Global, name: FirstName, words: &mut Words<'_>) -> Result<FirstLine, LineRefusal>
    ensures found { IfOk result (λ line. takes (first_lines.row name) words.old ≡ Some (line, words.new)) }
    ensures bad { result ≡ Err LineRefusal.BadLine → takes (first_lines.row name) words.old ≡ None }
{
    match name {
        FirstName::Chain => {
            let tag = words.hex_of(alloc, TAG_BYTES)?;
            Ok(FirstLine {
                tag: array_of(&tag),
                operator: words.number()?,
                most: words.number_within(1, MOST_BLOCKS)?,
            })
        }
    }
}

impl Grammar for FirstLine {
    ghost use Rattle.std.specs.Prelude.{true};
    ghost use Rattle.root_log.specs.Grammar.{first_lines, first_parts};

    type Name = FirstName;

    ghost table = { first_lines };

    ghost parts = { first_parts };

    ghost has_bytes = { λ _. true };

    fn take(alloc: Global, words: &mut Words<'_>) -> Result<FirstLine, LineRefusal> {
        let word = words.next().ok_or(LineRefusal::BadLine)?;
        let name = named(&FIRST_NAMES, word).ok_or(LineRefusal::BadLine)?;
        first_of(alloc, name, words)
    }

    #[tactic(auto, using(line_forms::proofs::PrintLaws::words))]
    fn push(&self, out: &mut Vec<u8>) -> Result<(), NoMemory> {
        push_pieces(
            out,
            &[
                Name(b"chain"),
                Hex(&self.tag),
                Number(self.operator),
                Number(self.most),
            ],
        )
    }
}
