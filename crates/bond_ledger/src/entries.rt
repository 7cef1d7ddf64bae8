ghost use Rattle.std.specs.Prelude.{◌≡◌, ◌+◌, ◌≤◌, ◌<◌, ◌^◌, ℕ, ◌==◌, ◌||◌, if◌then◌else◌, IsTrue, OnOk, OnErr};
ghost use Rattle.std.specs.BTreeMap.{IsUnchanged};
ghost use Rattle.bond_ledger.specs.Entries.{sums_in, is_known_in, money_of, money_in};

use plasma_base::NoMemory;
use std::collections::BTreeMap;

/// What is an account's: what it may spend, and what is held of it.
#[derive(Clone, Copy, PartialEq, Eq)]
pub struct Sums {
    pub balance: u64,
    pub held: u64,
}

// What the account has, and nothing where it isn't known.
pub fn sums_of(entries: &BTreeMap<u64, Sums>, account: u64) -> Sums
    ensures value { result ≡ sums_in entries.now account }
    ensures limit { result.balance + result.held ≤ money_in entries.now }
{
    match entries.get(&account) {
        Some(sums) => *sums,
        None => Sums {
            balance: 0,
            held: 0,
        },
    }
}

// Makes an account known, with nothing.
pub fn know(entries: &mut BTreeMap<u64, Sums>, account: u64) -> Result<(), NoMemory>
    ensures known { OnOk result ((a : ℕ) → is_known_in entries.new a ≡ (is_known_in entries.old a || (account == a))) }
    ensures same { (a : ℕ) → sums_in entries.new a ≡ sums_in entries.old a }
    ensures money { money_in entries.new ≡ money_in entries.old }
    ensures err { OnErr result (IsUnchanged entries.old entries.new) }
{
    let none = Sums {
        balance: 0,
        held: 0,
    };
    entries.entry(account)?.or_insert(none);
    Ok(())
}

// Sets what a known account has.
pub fn set(entries: &mut BTreeMap<u64, Sums>, account: u64, sums: Sums)
    requires { IsTrue (is_known_in entries.old account) }
    ensures known { (a : ℕ) → is_known_in entries.new a ≡ is_known_in entries.old a }
    ensures sums { (a : ℕ) → sums_in entries.new a ≡ (if account == a then sums else sums_in entries.old a) }
    ensures money { money_in entries.new + money_of (sums_in entries.old account)
        ≡ money_in entries.old + money_of sums }
{
    let _ = entries.insert(account, sums);
}

// Adds to the balance of a known account.
pub fn give(entries: &mut BTreeMap<u64, Sums>, account: u64, amount: u64)
    requires known { IsTrue (is_known_in entries.old account) }
    requires fits { money_in entries.old + amount < 2 ^ 64 }
    ensures known { (a : ℕ) → is_known_in entries.new a ≡ is_known_in entries.old a }
    ensures sums { (a : ℕ) → sums_in entries.new a ≡ (if account == a
        then record { balance = (sums_in entries.old a).balance + amount; held = (sums_in entries.old a).held }
        else sums_in entries.old a) }
    ensures money { money_in entries.new ≡ money_in entries.old + amount }
{
    let none = Sums {
        balance: 0,
        held: 0,
    };
    if let Ok(entry) = entries.entry(account) {
        entry.or_insert(none).balance += amount;
    }
}
