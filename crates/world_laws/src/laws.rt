ghost use Rattle.world_laws.specs.Headline.{HeldCoinsAreSafe, OneWalletHolds, AttendedIsNoneUnattended, ExhibitsAreShown, HarmsAreTakings, LostIsExhibited, DueCallsAreTaken, StartsAreTaken};
ghost use Rattle.world_laws.specs.Looked.{LookedAfterCoinsAreSafe, AttendedCoinsAreLookedAfter, LookingOftenIsEnough, TakenCoinsWentUnseen};

/// The promise, a law: for every schedule of operator, strangers, losses and crashes, at each line: unless the
/// trace up to it shows two byte strings with one digest at the coin, or a valid signature that the wallet's
/// key never made, no other account's exit of a coin that the wallet holds is paid, and the wallet's own exit is
/// never cancelled or dropped, and pays when it is finished at its end; where the coin was looked after. That
/// is: since another account's exit of it began a guardian watched, before a tick ended the time to challenge
/// it, and what that watch offered for the exit was fulfilled before the tick; and the same since each challenge
/// of the wallet's exit, before a tick ended the time to answer it.
pub fn looked_after_coins_are_safe()
    ensures { LookedAfterCoinsAreSafe }
{}

/// A law: a coin is looked after where each tick that met a deadline of it was attended.
pub fn attended_coins_are_looked_after()
    ensures { AttendedCoinsAreLookedAfter }
{}

/// A law: a coin is looked after where, at each tick while an exit of it stands, a guardian's watch is less than
/// 302,400 seconds old, the time to answer a challenge, and what it offered for the coin was fulfilled.
pub fn looking_often_is_enough()
    ensures { LookingOftenIsEnough }
{}

/// The headline, a law: for every schedule of operator, strangers, losses and crashes, at each line: unless the
/// trace up to it shows two byte strings with one digest at the coin, or a valid signature that the wallet's
/// key never made, no other account's exit of an attended coin that the wallet holds is paid, and the wallet's
/// own exit is never cancelled or dropped, and pays when it is finished at its end.
pub fn held_coins_are_safe()
    ensures { HeldCoinsAreSafe }
{}

/// A law: two wallets that were declared before its deposit don't both hold a coin, unless the trace exhibits.
pub fn one_wallet_holds()
    ensures { OneWalletHolds }
{}

/// A law: a verdict `lost` stands only above an exhibit.
pub fn lost_is_exhibited()
    ensures { LostIsExhibited }
{}

/// A law: a coin whose verdict is `lost` or `unattended` went unseen at some tick, while its wallet held it at the tip
/// that the verdict is of, unless the trace exhibits.
pub fn taken_coins_went_unseen()
    ensures { TakenCoinsWentUnseen }
{}

/// A law: the words of the headline are those of the printed lines. Each tick was attended exactly where no line
/// is the first that wasn't; a collision and a forgery are exhibited; and an event harms a holder exactly where
/// it takes the coin.
pub fn words_are_printed()
    ensures attended { AttendedIsNoneUnattended }
    ensures exhibits { ExhibitsAreShown }
    ensures harms { HarmsAreTakings }
{}

/// A law: a call that a watch offers is accepted where no call was accepted since, unless it is a Before for
/// which its account doesn't have the money; where the trace shows no clash at its coin.
pub fn due_calls_are_taken()
    ensures { DueCallsAreTaken }
{}

/// A law: a start that a wallet offers is accepted while the wallet holds the coin at the exit's block, but
/// where the exit stands or the money is missing.
pub fn starts_are_taken()
    ensures { StartsAreTaken }
{}
