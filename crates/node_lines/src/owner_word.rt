ghost use Rattle.std.specs.Prelude.{◌≡◌, Some, None, Err, IfOk};
ghost use Rattle.node_lines.specs.Grammar.{owner};

use line_forms::{LineRefusal, OWNER_BYTES, Words};
use plasma_tx::Owner;
use std::alloc::Global;

/// Takes the next word as an owner: a hex of the owner's `OWNER_BYTES` bytes. It refuses `BadLine`
/// exactly where the word is none.
pub fn take_owner(alloc: Global, words: &mut Words<'_>) -> Result<Owner, LineRefusal>
    ensures found { IfOk result (λ value. owner.take words.old ≡ Some (value, words.new)) }
    ensures bad { result ≡ Err LineRefusal.BadLine → owner.take words.old ≡ None }
{
    let bytes = words.hex_of(alloc, OWNER_BYTES)?;
    let mut spelled = [0; OWNER_BYTES];
    spelled.copy_from_slice(bytes.as_slice());
    Ok(Owner::read(&spelled))
}
