ghost use Rattle.std.specs.Prelude.{◌≡◌};

use plasma_base::Bytes;
use plasma_tx::RawOpening;
use std::marker::Model;

/// An opening of a coin that a line shows, lent. Contracts see it with the opening itself.
#[derive(Drop)]
pub(crate) struct ShownOpening<'a> {
    coin: u64,
    opening: &'a RawOpening,
}

impl<'a> Model for ShownOpening<'a> {
    ghost use Rattle.trace_exhibits.specs.Opened.{Opened};

    ghost Value = { Opened };

    ghost view = { λ s. record { coin = s.coin; opening = s.opening.now } };
}

impl<'a> ShownOpening<'a> {
    /// An opening of a coin.
    pub(crate) fn of(coin: u64, opening: &'a RawOpening) -> ShownOpening<'a>
        ensures { result ≡ record { coin = coin; opening = opening.now } }
    {
        ShownOpening { coin, opening }
    }

    /// The coin.
    pub(crate) fn coin(&self) -> u64
        ensures { result ≡ self.now.coin }
    {
        self.coin
    }

    /// The opening, lent.
    pub(crate) fn opening(&self) -> &'a RawOpening
        ensures { result.now ≡ self.now.opening }
    {
        self.opening
    }
}

/// Two different strings with one digest, in the order in which they came.
#[derive(Drop)]
pub(crate) struct Clash {
    pub(crate) first: Bytes,
    pub(crate) second: Bytes,
}
