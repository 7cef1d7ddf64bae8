ghost use Rattle.world_rules.specs.Laws.{HeldCoinsHaveOneVerdict, VerdictsAreOfHeldCoins};

/// A law: a wallet and a coin that it ever held have exactly one verdict. Each verdict is on a wallet and a coin that
/// it ever held, at the greatest block at which it did.
pub fn verdicts_are_given_once()
    ensures one { HeldCoinsHaveOneVerdict }
    ensures held { VerdictsAreOfHeldCoins }
{}
