ghost use Rattle.wallet_core.specs.Laws.{SendingIs, LeavingIs, HeldIs, NothingIs, KeptCoinsAreHeld, HeldCoinsAreKept};

/// A law: the tip of a coin that the log has, and that isn't withdrawn, is the greatest block at which
/// the wallet came to have it. The coin is `Sending` exactly where leaf `q` is the lowest that signs it
/// away from its tip; `Leaving` exactly where no leaf does and a leaving note names coin and tip;
/// `Held` exactly where no leaf does and no leaving note names them; and `Nothing` exactly where the
/// log has no such coin, or it is withdrawn, or the wallet never came to have it.
pub fn a_state_is_its_sentence()
    ensures sending { SendingIs }
    ensures leaving { LeavingIs }
    ensures held { HeldIs }
    ensures nothing { NothingIs }
{}

/// A law: the wallet holds each coin that is `Held` or `Leaving`, at the tip that the state names; and
/// each coin that it holds at its tip is `Held` or `Leaving` there.
pub fn kept_coins_are_held()
    ensures kept { KeptCoinsAreHeld }
    ensures held { HeldCoinsAreKept }
{}
