ghost use Rattle.std.specs.Prelude.{◌≡◌, ◌^◌};
ghost use Rattle.bond_ledger.specs.Laws.{HeldIsOfKnown};

use super::MOST_MONEY;

/// An account of which money is held is known.
pub fn held_money_is_of_known_accounts()
    ensures { HeldIsOfKnown }
{}

/// The most money that is ever funded is 2^62.
pub fn the_limit_is_this_number()
    ensures { MOST_MONEY ≡ 2 ^ 62 }
{}
