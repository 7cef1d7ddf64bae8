ghost use Rattle.std.specs.Prelude.{◌≡◌};
ghost use Rattle.safe_runs.specs.Inside.{case_with};

use super::told::Coins;
use coin_safety::{Kept, Sent};
use plasma_tx::{Links, RootLog, Spends};

/// A coin that a node ever had or guards, and what it keeps of it; nothing where the log doesn't have the coin.
#[derive(Drop)]
pub struct Case {
    pub coin: u64,
    pub kept: Option<Kept>,
}

/// The case of a coin with these links behind its deposit, and what signed it away from their end, if a leaf did; and
/// whether it is guarded.
pub fn case_of(
    log: &RootLog,
    hidden: &Coins,
    coin: u64,
    spends: Spends,
    sent: Option<Sent>,
    guarded: bool,
) -> Case
    ensures { result ≡ case_with log.now.log hidden.now coin spends sent guarded }
{
    let Some(made) = log.coin(coin) else {
        return Case { coin, kept: None };
    };
    let links = Links {
        coin,
        deposit: made.deposit,
        owner: made.owner,
        spends,
    };
    Case {
        coin,
        kept: Some(Kept {
            links,
            sent,
            guarded,
            hidden: hidden.contains(coin),
        }),
    }
}
