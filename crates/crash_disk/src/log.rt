ghost use Rattle.std.specs.Prelude.{◌≡◌, length, Some, None};
ghost use Rattle.crash_disk.specs.Disk.{fresh_history, HasRoom};
ghost use Rattle.crash_disk.specs.Memory.{bytes_of, step_of, fails_next, after_call, with_fuse, with_room, after_crash};

use super::faults::Faults;
use super::past::{AskedStep, Past};
use std::marker::Model;

// What was asked of a disk since it began, of which only proofs know; which of the device calls to come
// fail; and the room left for them.
#[derive(Drop)]
pub struct CallLog {
    past: Past,
    faults: Faults,
    room_calls: u64,
    room_bytes: u64,
}

impl Model for CallLog {
    ghost use Rattle.crash_disk.specs.Memory.{MemState};

    ghost Value = { MemState };

    ghost use Rattle.crash_disk.specs.Log.{log_of};

    ghost view = { log_of };
}

impl CallLog {
    // That of a disk that begins with this image: no calls yet, no fuse and no room.
    pub fn make(image: &[u8], fails: Vec<u64>) -> CallLog
        ensures { result ≡ record {
          history = fresh_history image.now;
          fails = fails.items;
          made = 0;
          fuse = None;
          faults = 0;
          room = record { calls = 0; bytes = 0 };
        } }
    {
        CallLog {
            past: Past::new(image),
            faults: Faults {
                fails,
                made: 0,
                fuse: None,
                count: 0,
            },
            room_calls: 0,
            room_bytes: 0,
        }
    }

    // The room left, as calls.
    pub fn room_calls(&self) -> u64
        ensures { result ≡ self.now.room.calls }
    {
        self.room_calls
    }

    // The room left, as bytes.
    pub fn room_bytes(&self) -> u64
        ensures { result ≡ self.now.room.bytes }
    {
        self.room_bytes
    }

    // Notes the next call, and says whether it fails.
    pub fn note(&mut self, step: &AskedStep<'_>) -> bool
        requires { HasRoom self.old.room (length (bytes_of (step_of step.now))) }
        ensures value { result ≡ fails_next self.old }
        ensures noted { self.new ≡ after_call self.old (step_of step.now) }
    {
        let failed = self.faults.next_fails();
        self.past = self.past.and(step, failed);
        self.room_calls -= 1;
        self.room_bytes -= step.bytes_written();
        failed
    }

    // Lets so many further calls pass.
    pub fn fuse(&mut self, calls: u64)
        ensures { self.new ≡ with_fuse calls self.old }
    {
        self.faults.fuse = Some(calls);
    }

    // The room is then for at least so many calls, which write so many bytes.
    pub fn make_room(&mut self, calls: u64, bytes: u64)
        ensures { self.new ≡ with_room calls bytes self.old }
    {
        self.room_calls = calls.max(self.room_calls);
        self.room_bytes = bytes.max(self.room_bytes);
    }

    // Begins anew with this image: no calls, no fuse and no room.
    pub fn begin_with(&mut self, image: &[u8])
        ensures { self.new ≡ after_crash image.now self.old }
    {
        self.past = Past::new(image);
        self.faults.fuse = None;
        self.room_calls = 0;
        self.room_bytes = 0;
    }
}
