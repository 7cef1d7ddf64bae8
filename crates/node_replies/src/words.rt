ghost use Rattle.std.specs.Prelude.{◌≡◌, ◌++◌, length, take, OnOk, OnErr};
ghost use Rattle.node_replies.specs.Causes.{phrase};

use line_forms::push_number;
use plasma_base::NoMemory;

/// Puts words, and numbers after them, each after a blank, at the end. Where memory runs out some of them may stand
/// there.
#[tactic(auto, using(line_forms::proofs::PrintLaws::fronts))]
pub fn push_phrase(out: &mut Vec<u8>, words: &[u8], numbers: &[u64]) -> Result<(), NoMemory>
    ensures ok { OnOk result (out.new.items ≡ out.old.items ++ phrase words.now numbers.now) }
    ensures front { take (length out.old.items) out.new.items ≡ out.old.items }
{
    out.extend_from_slice(words)?;
    for number in numbers {
        out.push(b' ')?;
        push_number(out, *number)?;
    }
    Ok(())
}

/// Puts words at the end. Where memory runs out nothing changes.
#[tactic(auto, using(line_forms::proofs::PrintLaws::fronts))]
pub fn push_words(out: &mut Vec<u8>, words: &[u8]) -> Result<(), NoMemory>
    ensures ok { OnOk result (out.new.items ≡ out.old.items ++ words.now) }
    ensures front { take (length out.old.items) out.new.items ≡ out.old.items }
{
    out.extend_from_slice(words)?;
    Ok(())
}

/// Answers how something was put at the end of so many bytes. Where it wasn't put whole, what stands of it is taken
/// back.
pub fn whole(out: &mut Vec<u8>, before: usize, put: Result<(), NoMemory>) -> Result<(), NoMemory>
    ensures same { result ≡ put }
    ensures ok { OnOk put (out.new.items ≡ out.old.items) }
    ensures err { OnErr put (out.new.items ≡ take before out.old.items) }
{
    if put.is_err() {
        out.truncate(before);
    }
    put
}
