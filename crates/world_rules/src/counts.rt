ghost use Rattle.std.specs.Prelude.{◌≡◌, ◌++◌, OnOk, OnErr};
ghost use Rattle.world_rules.specs.Texts.{count_text, line_counts_text, verdict_counts_text, counts_text};

use super::verdict::Counts;
use node_replies::push_phrase;
use plasma_base::NoMemory;

fn push_count(out: &mut Vec<u8>, name: &[u8], number: u64) -> Result<(), NoMemory>
    ensures { OnOk result (out.new.items ≡ out.old.items ++ count_text name.now number) }
{
    push_phrase(out, name, &[number])?;
    out.push(b'\n')?;
    Ok(())
}

fn push_line_counts(out: &mut Vec<u8>, counts: &Counts) -> Result<(), NoMemory>
    ensures { OnOk result (out.new.items ≡ out.old.items ++ line_counts_text counts.now) }
{
    push_count(out, b"lines", counts.lines)?;
    push_count(out, b"accepted", counts.accepted)?;
    push_count(out, b"refused", counts.refused)?;
    push_count(out, b"blocks", counts.blocks)?;
    push_count(out, b"coins", counts.coins)
}

fn push_verdict_counts(out: &mut Vec<u8>, counts: &Counts) -> Result<(), NoMemory>
    ensures { OnOk result (out.new.items ≡ out.old.items ++ verdict_counts_text counts.now) }
{
    push_count(out, b"held", counts.held)?;
    push_count(out, b"paid", counts.paid)?;
    push_count(out, b"away", counts.away)?;
    push_count(out, b"lost", counts.lost)?;
    push_count(out, b"unattended", counts.unattended)
}

/// Puts the counts of a run at the end, each on a line of its own: its name, a blank and the number. Where memory runs
/// out nothing changes.
#[tactic(auto, unfolding(crate::specs::Texts::counts_text))]
pub fn print_counts(counts: &Counts, out: &mut Vec<u8>) -> Result<(), NoMemory>
    ensures ok { OnOk result (out.new.items ≡ out.old.items ++ counts_text counts.now) }
    ensures err { OnErr result (out.new.items ≡ out.old.items) }
{
    let mut text = Vec::new(*out.allocator());
    push_line_counts(&mut text, counts)?;
    push_verdict_counts(&mut text, counts)?;
    out.extend_from_slice(text.as_slice())?;
    Ok(())
}
