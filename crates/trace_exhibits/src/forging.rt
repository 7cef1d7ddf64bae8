ghost use Rattle.std.specs.Prelude.{◌≡◌, IfOk};
ghost use Rattle.std.specs.List.{list_any};
ghost use Rattle.world_rules.specs.Exhibits.{forges, is_same_body};

use plasma_base::NoMemory;
use plasma_tx::{Body, Owner, RawOpening, leaf_in, leaf_tx, signed_by};
use std::alloc::Global;

/// Whether the opening's leaf is a transfer of its block, with this tag and coin, that the owner signed, over a
/// body that isn't one of these. A signature is tested only where the body isn't one of these.
pub fn forges(
    alloc: Global,
    tag: &[u8; 32],
    coin: u64,
    owner: &Owner,
    bodies: &[Body],
    opening: &RawOpening,
) -> Result<bool, NoMemory>
    ensures { IfOk result (λ forged. forged ≡ forges tag.now coin owner.now bodies.now opening.now) }
{
    match leaf_tx(
        alloc,
        tag,
        coin,
        opening.block,
        leaf_in(opening.bytes.as_slice()),
    )? {
        None => Ok(false),
        Some(tx) => Ok(!is_among(&tx.body, bodies) && signed_by(&tx, owner)),
    }
}

// Whether the body is one of these.
fn is_among(body: &Body, bodies: &[Body]) -> bool
    ensures { result ≡ list_any (is_same_body body.now) bodies.now }
{
    bodies.iter().any(|other| is_same(body, other))
}

/// Whether the bodies have the same fields.
pub(crate) fn is_same(one: &Body, other: &Body) -> bool
    ensures { result ≡ is_same_body one.now other.now }
{
    one.tag == other.tag
        && one.coin == other.coin
        && one.parent == other.parent
        && one.to.account == other.to.account
        && one.to.key == other.to.key
        && one.last == other.last
}
