ghost use Rattle.world_laws.specs.Invariant.{HoldersBeginWithNoExit, LinesKeepExitsWatched, WatchedExitsDoNoHarm, HeldCoinsAreWatched};

/// Why the promise holds, a law: the invariant of a held coin. No exit of a coin stands at the line at which a wallet
/// comes to hold it; from there on each line keeps what holds of each exit of it that stands, unless it is a tick past
/// a deadline behind which nobody looked, or the trace exhibits; and while it holds no line harms the wallet. So at
/// each line the coin that was looked after has it: another account's exit doesn't spend the tip, and past its window
/// it is challenged at the tip, with a challenge that nobody can answer; the wallet's own exit is at the tip, and none
/// of its open challenges is past its window.
pub fn held_coins_stay_watched()
    ensures begins { HoldersBeginWithNoExit }
    ensures kept { LinesKeepExitsWatched }
    ensures harmless { WatchedExitsDoNoHarm }
    ensures so { HeldCoinsAreWatched }
{}
