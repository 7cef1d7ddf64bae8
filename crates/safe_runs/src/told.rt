ghost use Rattle.std.specs.Prelude.{◌≡◌, ◌≢◌, ◌==◌, true, [], length, unwrap_or, is_some, Ok, Err, IfErr, OnOk};
ghost use Rattle.std.specs.Ordering.{nat_cmp};
ghost use Rattle.std.specs.BTreeSet.{insert_key};
ghost use Rattle.plasma_tx.specs.Views.{now};
ghost use Rattle.node_sessions.specs.Commands.{HaltsLog};
ghost use Rattle.safe_runs.specs.Cases.{is_hidden};
ghost use Rattle.safe_runs.specs.Sessions.{hidden_in, told_in, untold, with_time};

use line_forms::number;
use plasma_base::{Bytes, NoMemory};
use plasma_tx::RootLog;
use std::alloc::Global;
use std::collections::BTreeSet;
use std::marker::Model;
use streamed_lines::{Halt, Stop};

/// Coins, which contracts see as a rising list without repetitions.
#[derive(Drop)]
pub struct Coins {
    numbers: BTreeSet<u64>,
}

impl Model for Coins {
    ghost use Rattle.std.specs.Prelude.{List, ℕ};

    ghost Value = { List ℕ };

    ghost view = { λ coins. coins.numbers.keys };
}

impl Coins {
    /// No coins. It takes no memory.
    pub fn new(alloc: Global) -> Coins
        ensures { result ≡ [] }
    {
        Coins {
            numbers: BTreeSet::new(alloc),
        }
    }

    /// Whether the coin is one of them.
    pub fn contains(&self, coin: u64) -> bool
        ensures { result ≡ is_hidden self.now coin }
    {
        self.numbers.contains(&coin)
    }

    /// Whether there are none.
    fn is_empty(&self) -> bool
        ensures { result ≡ (length self.now == 0) }
    {
        self.numbers.len() == 0
    }

    /// Adds a coin, which changes nothing where it is one of them.
    fn insert(&mut self, coin: u64) -> Result<(), NoMemory>
        ensures { OnOk result (self.new ≡ insert_key nat_cmp self.old coin) }
    {
        self.numbers.insert(coin)?;
        Ok(())
    }
}

/// What the lines behind a log told: the time by the caller's clock, and the coins of which the operator didn't show a
/// block when it was asked.
#[derive(Drop)]
pub struct Told {
    pub clock: Option<u64>,
    pub hidden: Coins,
}

// A line that may not stand where it stands.
fn bad_line() -> Halt<Bytes>
    ensures { result ≡ Halt.Stops Stop.BadLine }
{
    Halt::Stops {
        stop: Stop::BadLine,
    }
}

// The coin that a line says is hidden.
fn hidden_in(line: &[u8]) -> Option<u64>
    ensures { result ≡ hidden_in line.now }
{
    if !line.starts_with(b"hidden ") {
        return None;
    }
    number(&line[7..])
}

impl Told {
    /// Nothing. It takes no memory.
    pub fn new(alloc: Global) -> Told
        ensures { result ≡ untold }
    {
        Told {
            clock: None,
            hidden: Coins::new(alloc),
        }
    }

    /// The time by the caller's clock; where none was told that of the log.
    pub fn time(&self, log: &RootLog) -> u64
        ensures { result ≡ unwrap_or self.now.clock (now log.now.log) }
    {
        match self.clock {
            Some(time) => time,
            None => log.now(),
        }
    }

    // Takes the time over, where neither it nor a coin was told before.
    fn set_time(&mut self, time: u64) -> Result<(), Halt<Bytes>>
        ensures told { OnOk result (with_time self.old time ≡ Ok self.new) }
        ensures halts { IfErr result (HaltsLog (with_time self.old time)) }
        ensures memory { result ≢ Err Halt.NoMemory }
    {
        if self.clock.is_some() || !self.hidden.is_empty() {
            return Err(bad_line());
        }
        self.clock = Some(time);
        Ok(())
    }

    /// Takes over what a line behind a log tells.
    pub fn tell(&mut self, line: &[u8]) -> Result<(), Halt<Bytes>>
        ensures told { OnOk result (told_in self.old line.now ≡ Ok self.new) }
        ensures halts { IfErr result (HaltsLog (told_in self.old line.now)) }
        ensures memory { result ≡ Err Halt.NoMemory → is_some (hidden_in line.now) ≡ true }
    {
        if let Some(time) = number(line) {
            return self.set_time(time);
        }
        let Some(coin) = hidden_in(line) else {
            return Err(bad_line());
        };
        self.hidden.insert(coin)?;
        Ok(())
    }
}
