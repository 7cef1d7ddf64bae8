ghost use Rattle.std.specs.Prelude.{◌≡◌, ◌<◌, ◌^◌, ◌++◌, ◌==◌, ◌&&◌, not, length};
ghost use Rattle.std.specs.List.{list_any};
ghost use Rattle.wallet_core.specs.State.{state_of, state_at, greatest, own_deposit, noted_tips, sending_leaf, spends_tip};

use super::notes::{LeafNumbers, LeafRecord, Notes};
use plasma_tx::{CoinView, RootLog};

/// What a coin is to a wallet.
#[derive(Clone, Copy, PartialEq, Eq)]
pub enum CoinState {
    /// The log has no such coin, or the coin is withdrawn, or the wallet never had it.
    Nothing,
    /// The wallet's leaf `q` signs the coin away from the tip, and isn't taken back.
    Sending { tip: u64, q: u32 },
    /// The wallet has noted that it leaves with the coin.
    Leaving { tip: u64 },
    /// The wallet has the coin.
    Held { tip: u64 },
}

/// What the coin is to the wallet that has these notes and these leaves, with the log: `Nothing` where
/// the log has no such coin, or it is withdrawn, or the wallet never came to have it. Else the tip is
/// the greatest block at which it came to have it: the deposit block, where the depositor is the
/// wallet's owner, and the accepted tips. Then it is `Sending` where a leaf that isn't taken back
/// binds a body with this coin and this parent, with the lowest number of these; else `Leaving` where
/// that is noted of coin and tip; else `Held`. It takes no memory, and goes once over each of the
/// accepted tips, the leaves and the leaving notes at most. A leaf's number has 32 bits: of 2^32 leaves
/// or more, which no key has, nothing is said.
#[tactic(auto, unfolding(crate::specs::State::state_of))]
pub fn state(notes: &Notes, leaves: &[LeafRecord], log: &RootLog, coin: u64) -> CoinState
    ensures { length leaves.now < 2 ^ 32 → result ≡ state_of notes.now leaves.now log.now.log coin }
{
    let Some(made) = log.coin(coin) else {
        return CoinState::Nothing;
    };
    if log.withdrawn(coin) {
        return CoinState::Nothing;
    }
    match greatest_tip(notes, &made, coin) {
        None => CoinState::Nothing,
        Some(tip) => state_at(notes, leaves, coin, tip),
    }
}

/// The greatest block at which the wallet came to have a coin that the log made so.
#[tactic(auto, unfolding(crate::specs::State::greatest))]
fn greatest_tip(notes: &Notes, made: &CoinView, coin: u64) -> Option<u64>
    ensures { result ≡ greatest (own_deposit notes.now.me (Some made.now) ++ noted_tips coin notes.now.accepted) }
{
    let accepted = notes.accepted.greatest(coin);
    if made.owner != notes.me {
        return accepted;
    }
    match accepted {
        None => Some(made.deposit),
        Some(tip) => Some(made.deposit.max(tip)),
    }
}

/// What the coin is at its tip.
fn state_at(notes: &Notes, leaves: &[LeafRecord], coin: u64, tip: u64) -> CoinState
    ensures { length leaves.now < 2 ^ 32
        → result ≡ state_at notes.now coin tip (sending_leaf notes.now.reclaimed leaves.now coin tip) }
{
    match sending_leaf(&notes.reclaimed, leaves, coin, tip) {
        Some(q) => CoinState::Sending { tip, q },
        None if notes.leaving.has(coin, tip) => CoinState::Leaving { tip },
        None => CoinState::Held { tip },
    }
}

/// The lowest leaf that signs the coin away from the tip and isn't taken back.
fn sending_leaf(reclaimed: &LeafNumbers, leaves: &[LeafRecord], coin: u64, tip: u64) -> Option<u32>
    ensures { length leaves.now < 2 ^ 32 → result ≡ sending_leaf reclaimed.now leaves.now coin tip }
{
    for (q, leaf) in leaves.iter().enumerate() {
        if q > u32::MAX as usize {
            return None;
        }
        let q = q as u32;
        if signs_away(reclaimed, leaf, q, coin, tip) {
            return Some(q);
        }
    }
    None
}

/// Whether leaf `q` binds a body with this coin and this parent, and isn't taken back.
fn signs_away(reclaimed: &LeafNumbers, leaf: &LeafRecord, q: u32, coin: u64, tip: u64) -> bool
    ensures { result ≡ (spends_tip coin tip leaf.now && not (list_any (λ other. other == q) reclaimed.now)) }
{
    leaf.body.coin == coin && leaf.body.parent == tip && !reclaimed.contains(q)
}
