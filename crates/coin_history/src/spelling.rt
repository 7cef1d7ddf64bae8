ghost use Rattle.std.specs.Prelude.{◌≡◌, ◌<◌, ◌^◌, ◌++◌, length, take, OnOk};
ghost use Rattle.std.specs.List.{All, flat_map};
ghost use Rattle.coin_history.specs.Bundles.{item_text, bundle_text, BundlesAreReadBack, BundlesHaveOneSpelling};

use super::bundle::Bundle;
use plasma_base::{NoMemory, put_u32, put_u64};
use plasma_tx::RawOpening;
use std::alloc::{AllocError, AllocFailed};

/// Puts the bytes of the bundle at the end. Where memory runs out some of them may stand there.
#[tactic(auto, unfolding(crate::specs::Bundles::bundle_text))]
pub fn push_bundle(out: &mut Vec<u8>, bundle: &Bundle) -> Result<(), NoMemory>
    requires count { length bundle.now.openings < 2 ^ 32 }
    requires lengths { All (λ opening. length opening.bytes < 2 ^ 32) bundle.now.openings }
    ensures ok { OnOk result (out.new.items ≡ out.old.items ++ bundle_text bundle.now) }
    ensures front { take (length out.old.items) out.new.items ≡ out.old.items }
{
    let openings = bundle.openings.as_slice();
    put_u64(out, bundle.coin)?;
    put_u64(out, bundle.tip)?;
    put_u32(out, openings.len() as u32)?;
    push_items(out, openings)
}

/// The same of the items.
fn push_items(out: &mut Vec<u8>, openings: &[RawOpening]) -> Result<(), NoMemory>
    requires { All (λ opening. length opening.bytes < 2 ^ 32) openings.now }
    ensures ok { OnOk result (out.new.items ≡ out.old.items ++ flat_map item_text openings.now) }
    ensures front { take (length out.old.items) out.new.items ≡ out.old.items }
{
    for opening in openings {
        push_item(out, opening)?;
    }
    Ok(())
}

/// The same of an item.
fn push_item(out: &mut Vec<u8>, opening: &RawOpening) -> Result<(), NoMemory>
    requires { length opening.now.bytes < 2 ^ 32 }
    ensures ok { OnOk result (out.new.items ≡ out.old.items ++ item_text opening.now) }
    ensures front { take (length out.old.items) out.new.items ≡ out.old.items }
{
    put_u64(out, opening.block)?;
    put_u32(out, opening.bytes.len() as u32)?;
    out.extend_from_slice(opening.bytes.as_slice())?;
    Ok(())
}

/// A law: each bundle has one spelling, which is read as that bundle.
pub fn bundles_have_one_spelling()
    ensures read_back { BundlesAreReadBack }
    ensures one { BundlesHaveOneSpelling }
{}
