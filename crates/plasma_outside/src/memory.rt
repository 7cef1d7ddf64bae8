ghost use Rattle.std.specs.Prelude.{◌≡◌, ◌≤◌, ◌<◌, ◌+◌, ℕ, false, List, [], length, slice_index_or, Some, is_err, IfOk};
ghost use Rattle.std.specs.List.{All};
ghost use Rattle.std.specs.Io.{ReadsAtMost};
ghost use Rattle.plasma_base.specs.Causes.{faults_after};
ghost use Rattle.plasma_outside.specs.Outside.{Takes, Puts, ends_after, given_by, is_failed};
ghost use Rattle.plasma_outside.specs.Memory.{is_to_fail, bytes_given, after_take, after_put};

use super::sink::{Sink, SinkRefusal};
use super::source::{Source, SourceFailed};
use std::alloc::Global;
use std::marker::Model;

// Whether the call after so many is on the list. The number after `u64::MAX` is on none.
fn is_on_list(fails: &[u64], calls: u64) -> bool
    ensures { result ≡ is_to_fail fails.now calls }
{
    let number = u128::from(calls) + 1;
    fails.iter().any(|fail| u128::from(*fail) == number)
}

// The length of the piece at a place, or what there is room for where there is none.
fn piece_at(pieces: &[u64], place: u64, room: usize) -> usize
    ensures { result ≡ slice_index_or pieces.now place room }
{
    match pieces.get(place as usize) {
        Some(piece) => *piece as usize,
        None => room,
    }
}

/// A source in memory that hands its bytes out in pieces, and fails at the calls on a list.
#[derive(Drop)]
pub struct MemSource {
    bytes: Vec<u8>,
    place: usize,
    pieces: Vec<u64>,
    fails: Vec<u64>,
    calls: u64,
    faults: u64,
    ends: u64,
    failed_last: bool,
    given_last: usize,
}

impl Model for MemSource {
    ghost use Rattle.std.specs.Prelude.{◌≤◌, drop, length};
    ghost use Rattle.std.specs.List.{All};
    ghost use Rattle.plasma_outside.specs.Memory.{MemInput};

    ghost Value = { MemInput };

    ghost view = { λ s. record {
      bytes = drop s.place s.bytes.items;
      pieces = s.pieces.items;
      fails = s.fails.items;
      calls = s.calls;
      faults = s.faults;
      ends = s.ends;
      failed_last = s.failed_last;
      given_last = s.given_last;
    } };

    ghost invariant = { λ s. (s.place ≤ length s.bytes.items) × All (λ piece. 1 ≤ piece) s.pieces.items };
}

impl MemSource {
    /// A source of these bytes. Its calls are counted from 1: the k-th call of `take` gives as many
    /// bytes as the k-th piece says, and fails where k is in `fails`. A call that fails gives none of
    /// its piece, and the next call has the next piece.
    pub fn make(bytes: Vec<u8>, pieces: Vec<u64>, fails: Vec<u64>) -> MemSource
        requires { All (λ piece. 1 ≤ piece) pieces.items }
        ensures { result ≡ record {
          bytes = bytes.items;
          pieces = pieces.items;
          fails = fails.items;
          calls = 0;
          faults = 0;
          ends = 0;
          failed_last = false;
          given_last = 0;
        } }
    {
        MemSource {
            bytes,
            place: 0,
            pieces,
            fails,
            calls: 0,
            faults: 0,
            ends: 0,
            failed_last: false,
            given_last: 0,
        }
    }
}

impl Source for MemSource {
    ghost left = { λ input. Some input.bytes };

    ghost faults = { λ input. input.faults };

    ghost ends = { λ input. input.ends };

    ghost failed_last = { λ input. input.failed_last };

    ghost given_last = { λ input. input.given_last };

    fn take(&mut self, room: &mut [u8]) -> Result<usize, SourceFailed>
        requires { 0 < length room.old }
        ensures bound { ReadsAtMost result room.new }
        ensures bytes { Takes (Some self.old.bytes) (Some self.new.bytes) result room.new }
        ensures cause { self.new.faults ≡ faults_after self.old.faults (is_err result) }
        ensures end { self.new.ends ≡ ends_after self.old.ends result }
        ensures last { self.new.failed_last ≡ is_err result }
        ensures given { self.new.given_last ≡ given_by result }
        ensures fails { is_err result ≡ is_to_fail self.old.fails self.old.calls }
        ensures count { IfOk result (λ n. n ≡ bytes_given self.old (length room.old)) }
        ensures after { self.new ≡ after_take self.old (length room.old) }
    {
        let piece = piece_at(&self.pieces, self.calls, room.len());
        let fails = is_on_list(&self.fails, self.calls);
        self.calls = self.calls.saturating_add(1);
        self.failed_last = fails;
        if fails {
            self.given_last = 0;
            self.faults = self.faults.saturating_add(1);
            return Err(SourceFailed);
        }
        let rest = &self.bytes[self.place..];
        let count = piece.min(room.len().min(rest.len()));
        room[..count].copy_from_slice(&rest[..count]);
        self.place += count;
        self.given_last = count;
        if count == 0 {
            self.ends = self.ends.saturating_add(1);
        }
        Ok(count)
    }
}

/// A sink in memory that fails at the calls on a list.
#[derive(Drop)]
pub struct MemSink {
    bytes: Vec<u8>,
    fails: Vec<u64>,
    calls: u64,
    faults: u64,
}

impl Model for MemSink {
    ghost use Rattle.plasma_outside.specs.Memory.{MemOutput};

    ghost Value = { MemOutput };

    ghost view = { λ s. record { bytes = s.bytes.items; fails = s.fails.items; calls = s.calls; faults = s.faults } };
}

impl MemSink {
    /// A sink that has taken nothing. Its calls are counted from 1: the k-th call of `put_all` fails where
    /// k is in `fails`.
    pub fn make(alloc: Global, fails: Vec<u64>) -> MemSink
        ensures { result ≡ record { bytes = []; fails = fails.items; calls = 0; faults = 0 } }
    {
        MemSink {
            bytes: Vec::new(alloc),
            fails,
            calls: 0,
            faults: 0,
        }
    }

    /// The bytes that the sink has taken, lent.
    pub fn bytes(&self) -> &[u8]
        ensures { result.now ≡ self.now.bytes }
    {
        self.bytes.as_slice()
    }
}

impl Sink for MemSink {
    ghost taken = { λ output. Some output.bytes };

    ghost faults = { λ output. output.faults };

    /// A call that fails puts nothing; one that finds no memory changes nothing, and isn't counted.
    fn put_all(&mut self, bytes: &[u8]) -> Result<(), SinkRefusal>
        ensures bytes { Puts (Some self.old.bytes) (Some self.new.bytes) result bytes.now }
        ensures cause { self.new.faults ≡ faults_after self.old.faults (is_failed result) }
        ensures fails { is_failed result ≡ is_to_fail self.old.fails self.old.calls }
        ensures after { self.new ≡ after_put self.old bytes.now result }
    {
        if is_on_list(&self.fails, self.calls) {
            self.calls = self.calls.saturating_add(1);
            self.faults = self.faults.saturating_add(1);
            return Err(SinkRefusal::Failed);
        }
        self.bytes.extend_from_slice(bytes)?;
        self.calls = self.calls.saturating_add(1);
        Ok(())
    }
}
