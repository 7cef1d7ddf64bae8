ghost use Rattle.std.specs.Prelude.{◌≡◌, ◌++◌, ◌||◌, IfOk, OnOk};
ghost use Rattle.leaf_journal.specs.Records.{is_marker};
ghost use Rattle.safe_runs.specs.Inside.{last_in, lasts_in, lasts_of};

use node_rules::number_at;
use plasma_base::{Bytes, NoMemory};
use std::alloc::Global;

// The last block of the transfer that a leaf's message spells, if it names one.
fn last_in(message: &[u8]) -> Option<u64>
    ensures { result ≡ last_in message.now }
{
    if message.starts_with(b"PCT2") && message.len() >= 124 {
        return Some(number_at(message, 116));
    }
    None
}

// Whether a record is the marker, behind which records begin with the numbers of their leaves.
fn is_marker(body: &[u8]) -> bool
    ensures { result ≡ is_marker body.now }
{
    body == b"PGL2".as_slice()
}

// Adds what a record binds; `is_behind` says that it stands behind the marker. Whether the next one does.
fn push_last(lasts: &mut Vec<Option<u64>>, is_behind: bool, body: &[u8]) -> Result<bool, NoMemory>
    ensures lasts { OnOk result (lasts.new.items ≡ lasts.old.items ++ lasts_of is_behind body.now) }
    ensures behind { IfOk result (λ behind. behind ≡ (is_behind || is_marker body.now)) }
{
    if is_behind {
        lasts.push(last_in(&body[usize::min(4, body.len())..]))?;
        return Ok(true);
    }
    if is_marker(body) {
        return Ok(true);
    }
    lasts.push(last_in(body))?;
    Ok(false)
}

/// The last blocks of the transfers that the records of leaves bind, by the numbers of the leaves.
pub fn read_lasts(alloc: Global, records: &[Bytes]) -> Result<Vec<Option<u64>>, NoMemory>
    ensures { IfOk result (λ lasts. lasts.items ≡ lasts_in records.now) }
{
    let mut lasts = Vec::new(alloc);
    let mut is_behind = false;
    for entry in records {
        is_behind = push_last(&mut lasts, is_behind, entry.as_slice())?;
    }
    Ok(lasts)
}
