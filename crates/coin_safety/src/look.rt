ghost use Rattle.std.specs.Prelude.{◌≡◌};
ghost use Rattle.std.specs.Option.{option_copied};
ghost use Rattle.plasma_tx.specs.Table.{is_over};
ghost use Rattle.coin_safety.specs.Advice.{exit_in, holder, standing, tip};

use super::kept::Kept;
use super::payment::exit_in;
use plasma_tx::{ExitView, RootLog};

/// One look at a log: the account that would enter calls, and what is kept of the coin.
#[derive(Drop)]
pub(crate) struct Look<'a> {
    pub(crate) log: &'a RootLog,
    pub(crate) account: u64,
    pub(crate) kept: &'a Kept,
}

impl Look<'_> {
    pub(crate) fn coin(&self) -> u64
        ensures { result ≡ self.now.kept.now.links.coin }
    {
        self.kept.links.coin
    }

    /// Where the coin is kept.
    pub(crate) fn tip(&self) -> u64
        ensures { result ≡ tip self.now.kept.now }
    {
        self.kept.links.tip()
    }

    /// The account of the owner at the tip.
    pub(crate) fn holder(&self) -> u64
        ensures { result ≡ holder self.now.kept.now }
    {
        self.kept.links.last_owner().account
    }

    /// The standing exits of the coin.
    pub(crate) fn exits(&self) -> &[ExitView]
        ensures { result.now ≡ standing self.now.log.now.log self.now.kept.now }
    {
        self.log.exits(self.coin())
    }

    /// The exit at the tip.
    pub(crate) fn tip_exit(&self) -> Option<&ExitView>
        ensures { option_copied result
            ≡ exit_in (standing self.now.log.now.log self.now.kept.now) (tip self.now.kept.now) }
    {
        exit_in(self.exits(), self.tip())
    }

    /// Whether a window that was opened at a time, and is so many seconds long, is over. Their sum may be
    /// above 2^64.
    pub(crate) fn is_over(&self, time: u64, window: u64) -> bool
        ensures { result ≡ is_over self.now.log.now.log time window }
    {
        let now = self.log.now();
        window <= now && time <= now - window
    }
}
