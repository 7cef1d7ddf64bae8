ghost use Rattle.std.specs.Prelude.{◌≡◌, ◌∷◌, [], ◌++◌, ◌==◌, ℕ, IsSome, OnOk, OnErr, if◌then◌else◌};
ghost use Rattle.std.specs.Ordering.{nat_cmp};
ghost use Rattle.std.specs.BTreeMap.{get};
ghost use Rattle.plasma_tx.specs.Keeps.{deposits_in};

use plasma_base::NoMemory;
use std::alloc::Global;
use std::collections::BTreeMap;
use std::marker::Model;

/// The coins that one account deposited, rising.
#[derive(Drop)]
pub struct Deposited {
    coins: Vec<u64>,
}

impl Model for Deposited {
    ghost use Rattle.std.specs.Prelude.{List, ℕ};

    ghost Value = { List ℕ };

    ghost view = { λ d. d.coins.items };
}

impl Deposited {
    fn push(&mut self, coin: u64) -> Result<(), NoMemory>
        ensures ok { OnOk result (self.new ≡ self.old ++ coin ∷ []) }
        ensures err { OnErr result (self.new ≡ self.old) }
    {
        self.coins.push(coin)?;
        Ok(())
    }

    fn as_slice(&self) -> &[u64]
        ensures { result.now ≡ self.now }
    {
        self.coins.as_slice()
    }
}

/// The coins that the account deposited, rising.
pub fn deposits_in(deposits: &BTreeMap<u64, Deposited>, account: u64) -> &[u64]
    ensures { result.now ≡ deposits_in deposits.now account }
{
    match deposits.get(&account) {
        None => &[],
        Some(deposited) => deposited.as_slice(),
    }
}

/// Adds a coin that the account deposited. `NoMemory` changes nothing.
pub fn add_deposit(
    deposits: &mut BTreeMap<u64, Deposited>,
    alloc: Global,
    account: u64,
    coin: u64,
) -> Result<(), NoMemory>
    ensures ok { OnOk result ((a : ℕ) → deposits_in deposits.new a
        ≡ (if a == account then deposits_in deposits.old account ++ coin ∷ [] else deposits_in deposits.old a)) }
    ensures err { OnErr result ((a : ℕ) → deposits_in deposits.new a ≡ deposits_in deposits.old a) }
{
    know(deposits, alloc, account)?;
    match deposits.get_mut(&account) {
        Some(deposited) => deposited.push(coin),
        None => unreachable!(),
    }
}

/// Makes the account's entry, which has no coin where there was none.
fn know(
    deposits: &mut BTreeMap<u64, Deposited>,
    alloc: Global,
    account: u64,
) -> Result<(), NoMemory>
    ensures same { (a : ℕ) → deposits_in deposits.new a ≡ deposits_in deposits.old a }
    ensures known { OnOk result (IsSome (get nat_cmp deposits.new account)) }
{
    if deposits.contains_key(&account) {
        return Ok(());
    }
    let deposited = Deposited {
        coins: Vec::new(alloc),
    };
    deposits.insert(account, deposited)?;
    Ok(())
}
