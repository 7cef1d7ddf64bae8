ghost use Rattle.std.specs.Prelude.{◌≡◌, ◌-◌, ◌++◌, ◌∷◌, [], true, length, take, find, IfOk, OnOk, OnErr};
ghost use Rattle.std.specs.Option.{option_copied, option_map_or};
ghost use Rattle.wallet_node.specs.Inside.{is_kept_at};
ghost use Rattle.wallet_node.specs.SharedHistories.{history_at, is_place_of, BeginAsBefore};

use node_rules::KeptCoin;
use plasma_base::NoMemory;
use plasma_tx::{Link, Spends};
use std::alloc::Global;
use std::collections::HashMap;
use std::marker::Model;

// A kept coin: its links are the first ones of a history.
#[derive(Clone, Copy)]
struct Place {
    coin: u64,
    tip: u64,
    // the history's index
    history: usize,
    // how many of its links are the coin's
    count: usize,
}

// The coins that were taken up, in order. A coin that comes back brings the links that it had, and more behind them:
// what coins have in common is held once.
#[derive(Drop)]
pub struct KeptCoins {
    histories: Vec<Spends>,
    places: Vec<Place>,
    // by coin the history that was used last for it; a wrong index costs memory alone
    latest: HashMap<u64, usize>,
}

impl Model for KeptCoins {
    ghost use Rattle.std.specs.Prelude.{List};
    ghost use Rattle.node_rules.specs.declared.kept_coin.KeptCoin.{KeptCoin};

    ghost Value = { List KeptCoin };

    ghost use Rattle.wallet_node.specs.SharedHistories.{coins_at, AreWithin};

    ghost view = { λ k. coins_at k.histories.items k.places.items };

    ghost invariant = { λ k. AreWithin k.histories.items k.places.items };
}

// Whether the links are one.
fn is_same_link(one: &Link, other: &Link) -> bool
    ensures { result ≡ true → one.now ≡ other.now }
{
    one.block == other.block
        && one.tx.body == other.tx.body
        && one.tx.signature.as_slice() == other.tx.signature.as_slice()
        && one.opening.block == other.opening.block
        && one.opening.bytes.as_slice() == other.opening.bytes.as_slice()
}

// Whether the links begin with these.
fn begin_with(links: &[Link], first: &[Link]) -> bool
    ensures { result ≡ true → take (length first.now) links.now ≡ first.now }
{
    if links.len() < first.len() {
        return false;
    }
    for i in 0..first.len() {
        if !is_same_link(&links[i], &first[i]) {
            return false;
        }
    }
    true
}

// Has the links held as the beginning of a history: of the latest, as it is or as they continue it, or of a new one.
fn hold(
    histories: &mut Vec<Spends>,
    latest: Option<usize>,
    spends: Spends,
) -> Result<usize, NoMemory>
    ensures held { IfOk result (λ history. take (length spends) (history_at histories.new.items history) ≡ spends) }
    ensures before { BeginAsBefore histories.old.items histories.new.items }
{
    if let Some(at) = latest
        && let Some(history) = histories.get(at)
    {
        if begin_with(history.as_slice(), spends.as_slice()) {
            return Ok(at);
        }
        if begin_with(spends.as_slice(), history.as_slice()) {
            histories[at] = spends;
            return Ok(at);
        }
    }
    let at = histories.len();
    histories.push(spends)?;
    Ok(at)
}

// The first of these places of the coin with this tip.
fn first_of(places: &[Place], coin: u64, tip: u64) -> Option<&Place>
    ensures { option_copied result ≡ find (is_place_of coin tip) places.now }
{
    places
        .iter()
        .find(|place| place.coin == coin && place.tip == tip)
}

impl KeptCoins {
    // No coin.
    pub fn new(alloc: Global) -> KeptCoins
        ensures { result ≡ [] }
    {
        KeptCoins {
            histories: Vec::new(alloc),
            places: Vec::new(alloc),
            latest: HashMap::new(alloc),
        }
    }

    // Adds a coin at the end. `NoMemory` changes nothing that is seen.
    pub fn add(&mut self, kept: KeptCoin) -> Result<(), NoMemory>
        ensures ok { OnOk result (self.new ≡ self.old ++ kept ∷ []) }
        ensures err { OnErr result (self.new ≡ self.old) }
    {
        let KeptCoin { coin, tip, spends } = kept;
        let count = spends.as_slice().len();
        let latest = self.latest.get(&coin).copied();
        let history = hold(&mut self.histories, latest, spends)?;
        self.latest.insert(coin, history)?;
        self.places.push(Place {
            coin,
            tip,
            history,
            count,
        })?;
        Ok(())
    }

    // Forgets the last coin, where there is one.
    pub fn pop(&mut self)
        ensures { self.new ≡ take (length self.old - 1) self.old }
    {
        self.places.pop();
    }

    // The links of the first that was added of the coin with this tip; none where there is none.
    pub fn spends_at(&self, coin: u64, tip: u64) -> &[Link]
        ensures { result.now ≡ option_map_or (λ kept. kept.spends) (find (is_kept_at coin tip) self.now) [] }
    {
        let Some(place) = first_of(&self.places, coin, tip) else {
            return &[];
        };
        match self.histories.get(place.history) {
            Some(history) => &history.as_slice()[..place.count],
            None => &[],
        }
    }
}
