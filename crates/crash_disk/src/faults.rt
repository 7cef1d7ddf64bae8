ghost use Rattle.std.specs.Prelude.{◌≡◌, ◌-◌, ◌||◌, option_map};
ghost use Rattle.plasma_base.specs.Causes.{counted, faults_after};
ghost use Rattle.crash_disk.specs.Disk.{is_spent};
ghost use Rattle.crash_disk.specs.Memory.{listed_at};

// Which device calls fail: those on a list, counted from 1, and every call once the fuse is spent. It counts
// those that did.
#[derive(Drop)]
pub struct Faults {
    pub fails: Vec<u64>,
    pub made: u64,
    pub fuse: Option<u64>,
    pub count: u64,
}

/// Whether a fuse lets no call pass any more.
pub fn is_spent(fuse: Option<u64>) -> bool
    ensures { result ≡ is_spent fuse }
{
    match fuse {
        Some(calls) => calls == 0,
        None => false,
    }
}

/// The fuse after one call more.
pub fn shorter_fuse(fuse: Option<u64>) -> Option<u64>
    ensures { result ≡ option_map (λ calls. calls - 1) fuse }
{
    match fuse {
        Some(calls) => Some(calls.saturating_sub(1)),
        None => None,
    }
}

// Whether the call after so many is on the list. The number after `u64::MAX` is on none.
fn is_on_list(fails: &[u64], made: u64) -> bool
    ensures { result ≡ listed_at fails.now made 0 }
{
    let number = u128::from(made) + 1;
    fails.iter().any(|fail| u128::from(*fail) == number)
}

impl Faults {
    // Counts the next call, and says whether it fails.
    pub fn next_fails(&mut self) -> bool
        ensures value { result ≡ (is_spent self.old.fuse || listed_at self.old.fails.items self.old.made 0) }
        ensures fails { self.new.fails.items ≡ self.old.fails.items }
        ensures made { self.new.made ≡ counted self.old.made }
        ensures fuse { self.new.fuse ≡ option_map (λ calls. calls - 1) self.old.fuse }
        ensures count { self.new.count ≡ faults_after self.old.count result }
    {
        let failed = is_spent(self.fuse) || is_on_list(&self.fails, self.made);
        self.made = self.made.saturating_add(1);
        self.fuse = shorter_fuse(self.fuse);
        if failed {
            self.count = self.count.saturating_add(1);
        }
        failed
    }
}
