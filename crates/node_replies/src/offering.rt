ghost use Rattle.std.specs.Prelude.{◌≡◌, [], ◌∷◌, ◌++◌, IfOk, OnOk};
ghost use Rattle.std.specs.List.{filter_map};
ghost use Rattle.node_replies.specs.Orders.{kind_of};

use super::reply::{OfferKind, OfferKinds};
use plasma_base::NoMemory;
use plasma_tx::RootCall;
use std::alloc::Global;

fn kind_of(call: &RootCall) -> Option<OfferKind>
    ensures { result ≡ kind_of call.now }
{
    match call {
        RootCall::After { .. } => Some(OfferKind::After),
        RootCall::Between { .. } => Some(OfferKind::Between),
        RootCall::Before { .. } => Some(OfferKind::Before),
        RootCall::Respond { .. } => Some(OfferKind::Respond),
        _ => None,
    }
}

// Puts the kind of a call at the end, where it has one.
fn push_kind(kinds: &mut Vec<OfferKind>, call: &RootCall) -> Result<(), NoMemory>
    ensures { OnOk result (kinds.new.items ≡ kinds.old.items ++ filter_map kind_of (call.now ∷ [])) }
{
    if let Some(kind) = kind_of(call) {
        kinds.push(kind)?;
    }
    Ok(())
}

/// The kinds of calls that a watch offers, in their order; a call that no watch offers has none. Where memory is
/// missing, `NoMemory`.
pub fn offer_kinds(alloc: Global, calls: &[RootCall]) -> Result<OfferKinds, NoMemory>
    ensures { IfOk result (λ kinds. kinds ≡ filter_map kind_of calls.now) }
{
    let mut kinds = Vec::new(alloc);
    for call in calls {
        push_kind(&mut kinds, call)?;
    }
    Ok(OfferKinds::from_vec(kinds))
}
