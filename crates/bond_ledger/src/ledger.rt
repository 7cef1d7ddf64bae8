ghost use Rattle.std.specs.Prelude.{◌≡◌, ℕ, ◌+◌, ◌-◌, ◌<◌, ◌≤◌, ◌==◌, ◌||◌, false, if◌then◌else◌, IsTrue, OnOk, OnErr, MatchResult};
ghost use Rattle.bond_ledger.specs.declared.TheConstants.{MOST_MONEY};
ghost use Rattle.bond_ledger.specs.Entries.{money_in};

use super::MOST_MONEY;
use super::entries::{Sums, give, know, set, sums_of};
use plasma_base::NoMemory;
use std::alloc::Global;
use std::collections::BTreeMap;
use thiserror::Error;

/// All money ever funded would pass `MOST_MONEY`.
#[derive(Debug, Clone, Copy, PartialEq, Eq, Error)]
#[error("all money funded would pass the limit")]
pub struct SumTooLarge;

/// The account's balance is less than what is needed.
#[derive(Debug, Clone, Copy, PartialEq, Eq, Error)]
#[error("the account has {has} of {needs}")]
pub struct NoFunds {
    pub has: u64,
    pub needs: u64,
}

/// A balance and a held sum for each account. An account that isn't known has 0 of both. All balances and
/// all that is held are what was ever funded.
#[derive(Drop)]
pub struct Ledger {
    entries: BTreeMap<u64, Sums>,
    funded: u64,
    pub ghost covered: { money_in entries ≡ funded },
    pub ghost limit: { funded ≤ MOST_MONEY },
}

impl Ledger {
    ghost use Rattle.bond_ledger.specs.Ledger.{balance_in, held_in, is_known, funded_in, amount_at, HasSums, IsSame};

    /// A ledger that knows no account. It takes no memory.
    pub fn new(alloc: Global) -> Ledger
        ensures known { (account : ℕ) → is_known result account ≡ false }
        ensures balances { (account : ℕ) → balance_in result account ≡ 0 }
        ensures helds { (account : ℕ) → held_in result account ≡ 0 }
        ensures funds { funded_in result ≡ 0 }
    {
        Ledger {
            entries: BTreeMap::new(alloc),
            funded: 0,
        }
    }

    /// Makes the account known, with nothing where it wasn't. `NoMemory` changes nothing.
    pub fn know(&mut self, account: u64) -> Result<(), NoMemory>
        ensures known { OnOk result ((a : ℕ) → is_known self.new a ≡ (is_known self.old a || (account == a))) }
        ensures balances { (a : ℕ) → balance_in self.new a ≡ balance_in self.old a }
        ensures helds { (a : ℕ) → held_in self.new a ≡ held_in self.old a }
        ensures funds { funded_in self.new ≡ funded_in self.old }
        ensures err { OnErr result (IsSame self.old self.new) }
    {
        know(&mut self.entries, account)
    }

    /// The account's balance; 0 for an account that isn't known. It takes no memory.
    pub fn balance(&self, account: u64) -> u64
        ensures { result ≡ balance_in self.now account }
    {
        self.sums(account).balance
    }

    /// All money ever funded: at most 2 ^ 62. It takes no memory.
    pub fn funded(&self) -> u64
        ensures is { result ≡ funded_in self.now }
        ensures limit { result ≤ MOST_MONEY }
    {
        self.funded
    }

    /// Adds new money to a known account's balance. `SumTooLarge` comes exactly where all money ever
    /// funded would pass 2 ^ 62, and changes nothing. It takes no memory.
    pub fn fund(&mut self, account: u64, amount: u64) -> Result<(), SumTooLarge>
        requires { IsTrue (is_known self.old account) }
        ensures { MatchResult result
            (λ _. (funded_in self.old + amount ≤ MOST_MONEY) × HasSums self.old self.new
            (λ a. balance_in self.old a + amount_at account amount a) (held_in self.old) (funded_in self.old + amount))
            (λ _. (MOST_MONEY < funded_in self.old + amount) × (self.new ≡ self.old)) }
    {
        if MOST_MONEY - self.funded < amount {
            return Err(SumTooLarge);
        }
        give(&mut self.entries, account, amount);
        self.funded += amount;
        Ok(())
    }

    /// Moves money of the account from its balance to what is held. `NoFunds` comes exactly where the
    /// balance is less, and changes nothing. It takes no memory.
    pub fn hold(&mut self, account: u64, amount: u64) -> Result<(), NoFunds>
        ensures { MatchResult result
            (λ _. (amount ≤ balance_in self.old account) × HasSums self.old self.new
            (λ a. balance_in self.old a - amount_at account amount a)
            (λ a. held_in self.old a + amount_at account amount a) (funded_in self.old))
            (λ why. (balance_in self.old account < amount) × (self.new ≡ self.old)
            × (why ≡ record { has = balance_in self.old account; needs = amount })) }
    {
        let sums = self.sums(account);
        if sums.balance < amount {
            return Err(NoFunds {
                has: sums.balance,
                needs: amount,
            });
        }
        if amount == 0 {
            return Ok(());
        }
        let moved = Sums {
            balance: sums.balance - amount,
            held: sums.held + amount,
        };
        set(&mut self.entries, account, moved);
        Ok(())
    }

    /// Pays held money of one account to the balance of another, or of the same. Both are known, and so
    /// much is held. It takes no memory.
    pub fn pay_held(&mut self, from: u64, to: u64, amount: u64)
        requires from { IsTrue (is_known self.old from) }
        requires to { IsTrue (is_known self.old to) }
        requires held { amount ≤ held_in self.old from }
        ensures { HasSums self.old self.new
            (λ a. balance_in self.old a + amount_at to amount a)
            (λ a. held_in self.old a - amount_at from amount a) (funded_in self.old) }
    {
        let giver = self.sums(from);
        let less = Sums {
            balance: giver.balance,
            held: giver.held - amount,
        };
        set(&mut self.entries, from, less);
        let taker = sums_of(&self.entries, to);
        let more = Sums {
            balance: taker.balance + amount,
            held: taker.held,
        };
        set(&mut self.entries, to, more);
    }

    /// Gives held money of the account back to its balance. The account is known, and so much is held. It
    /// takes no memory.
    pub fn give_back(&mut self, account: u64, amount: u64)
        requires known { IsTrue (is_known self.old account) }
        requires held { amount ≤ held_in self.old account }
        ensures { HasSums self.old self.new
            (λ a. balance_in self.old a + amount_at account amount a)
            (λ a. held_in self.old a - amount_at account amount a) (funded_in self.old) }
    {
        self.pay_held(account, account, amount);
    }

    // What is the account's.
    fn sums(&self, account: u64) -> Sums
        ensures balance { result.balance ≡ balance_in self.now account }
        ensures held { result.held ≡ held_in self.now account }
        ensures limit { result.balance + result.held ≤ funded_in self.now }
    {
        sums_of(&self.entries, account)
    }
}
