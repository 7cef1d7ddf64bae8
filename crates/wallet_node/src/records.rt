ghost use Rattle.std.specs.Prelude.{◌≡◌, ◌+◌, ◌≤◌, length, IfOk, Some, drop};
ghost use Rattle.std.specs.Option.{option_map};
ghost use Rattle.node_rules.specs.WalletRecords.{short_at, identity_of, is_first, types_in, identity_in, note_in};
ghost use Rattle.wallet_node.specs.Inside.{change_of};

use super::change::Change;
use lms_sign::LmsTypes;
use node_rules::{WalletIdentity, number_at, read_kept};
use plasma_base::{Hash32, NoMemory};
use std::alloc::Global;

// The number that the four bytes at a place spell, the highest first.
fn short_at(bytes: &[u8], place: usize) -> u32
    requires { place + 4 ≤ length bytes.now }
    ensures { result ≡ short_at bytes.now place }
{
    let mut field = [0; 4];
    field.copy_from_slice(&bytes[place..place + 4]);
    u32::from_be_bytes(field)
}

// The identity that tag, account and seed spell, with these types.
fn identity_of(types: LmsTypes, bytes: &[u8]) -> WalletIdentity
    requires { length bytes.now ≡ 72 }
    ensures { result ≡ identity_of types bytes.now }
{
    let mut tag = [0; 32];
    tag.copy_from_slice(&bytes[0..32]);
    let account = number_at(bytes, 32);
    let mut seed = [0; 32];
    seed.copy_from_slice(&bytes[40..72]);
    WalletIdentity {
        tag,
        account,
        seed,
        types,
    }
}

// Whether these are the types of an identity of the first form.
pub fn is_first(types: LmsTypes) -> bool
    ensures { result ≡ is_first types }
{
    types.lms == 5 && types.ots == 4
}

// The identity that a record spells.
#[tactic(auto, unfolding(node_rules::specs::WalletRecords::identity_in))]
pub fn identity_in(body: &[u8]) -> Option<WalletIdentity>
    ensures { result ≡ identity_in body.now }
{
    let (mark, bytes) = body.split_first()?;
    if *mark == 1 && bytes.len() == 72 {
        return Some(identity_of(LmsTypes { lms: 5, ots: 4 }, bytes));
    }
    if *mark != 4 || bytes.len() != 80 {
        return None;
    }
    let types = LmsTypes {
        lms: short_at(bytes, 0),
        ots: short_at(bytes, 4),
    };
    if types.is_supported() && !is_first(types) {
        return Some(identity_of(types, &bytes[8..]));
    }
    None
}

// The change that a record spells for a chain with this tag.
#[tactic(auto, unfolding(node_rules::specs::WalletRecords::note_in))]
pub fn read_note<H: Hash32>(
    alloc: Global,
    h: &H,
    tag: &[u8; 32],
    body: &[u8],
) -> Result<Option<Change>, NoMemory>
    ensures { IfOk result (λ change. change
        ≡ option_map (change_of tag.now) (note_in (H.digest_of h.now) tag.now body.now)) }
{
    let Some((mark, bytes)) = body.split_first() else {
        return Ok(None);
    };
    if *mark == 2 {
        return match read_kept(alloc, h, tag, bytes)? {
            Some(coin) => Ok(Some(Change::Accepts { coin })),
            None => Ok(None),
        };
    }
    if *mark == 3 && bytes.len() == 16 {
        return Ok(Some(Change::LeavesWith {
            coin: number_at(bytes, 0),
            tip: number_at(bytes, 8),
        }));
    }
    if *mark == 5 && bytes.len() == 20 {
        return Ok(Some(Change::Reclaims {
            coin: number_at(bytes, 0),
            tip: number_at(bytes, 8),
            q: short_at(bytes, 16),
        }));
    }
    Ok(None)
}
