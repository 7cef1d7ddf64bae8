ghost use Rattle.std.specs.Prelude.{◌≡◌, [], IfOk, IfErr, Ok, Err};
ghost use Rattle.leaf_journal.specs.Records.{leaf_records_of};

use super::kind::MessageKind;
use super::records::LeafRecords;
use super::short::ShortBytes;
use plasma_base::Bytes;

// The records of a journal whose messages are of a kind, put into memory that there is for all of them; or
// the place of the gate of the first that may not follow those before it.
pub fn read_records<K: MessageKind>(
    none: LeafRecords,
    records: &[Bytes],
) -> Result<LeafRecords, u64>
    requires { none.records ≡ [] }
    ensures records { IfOk result (λ read. leaf_records_of K.is_message none.leaves records.now ≡ Ok read.records) }
    ensures leaves { IfOk result (λ read. read.leaves ≡ none.leaves) }
    ensures refused { IfErr result (λ place. leaf_records_of K.is_message none.leaves records.now ≡ Err place) }
{
    let mut kept = none;
    let mut place = 4;
    kept.is_whole();
    for body in records {
        if !kept.may_follow::<K>(body.as_slice()) {
            return Err(place);
        }
        place += 5 + body.len() as u64;
        kept.push(ShortBytes::of(body.as_slice()));
        kept.is_whole();
    }
    Ok(kept)
}
