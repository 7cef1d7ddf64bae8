ghost use Rattle.std.specs.Prelude.{◌≡◌, ◌+◌, ℕ, ◌∷◌, [], List, length, map, IfOk, OnOk};
ghost use Rattle.world_rules.specs.Events.{Event};
ghost use Rattle.world_rules.specs.Exhibits.{exhibit_of};
ghost use Rattle.trace_exhibits.specs.Lines.{event_of, read_of};
ghost use Rattle.trace_exhibits.specs.Findings.{HasDigest, Finds};

use super::collisions::Collisions;
use super::forgeries::Forgeries;
use super::lines::{ExhibitLine, shown_of};
use plasma_base::{Hash32, NoMemory};
use std::alloc::Global;
use world_rules::Exhibit;

/// What lines show that excuses a loss, found while they come: the earliest clash of two strings under a digest, or
/// else the first line with a forgery.
#[derive(Drop)]
pub struct Findings {
    alloc: Global,
    pub(crate) collisions: Collisions,
    pub(crate) forgeries: Forgeries,
}

impl Findings {
    /// What no line shows, to be found by this digest. It makes 64 digests and takes no memory.
    pub fn new<H: Hash32>(alloc: Global, h: &H) -> Findings
        ensures digest { HasDigest (H.digest_of h.now) result }
        ensures none { (tag : List ℕ) → Finds (H.digest_of h.now) tag [] result }
    {
        Findings {
            alloc,
            collisions: Collisions::new(alloc, h),
            forgeries: Forgeries::new(alloc),
        }
    }

    /// Takes the line with this number, on the chain with this tag; `h` is the digest that is found by. After
    /// `NoMemory` nothing is said of what lines show.
    pub fn pass<H: Hash32>(
        &mut self,
        h: &H,
        tag: &[u8; 32],
        number: u64,
        line: &ExhibitLine<'_>,
    ) -> Result<(), NoMemory>
        requires { HasDigest (H.digest_of h.now) self.old }
        ensures digest { HasDigest (H.digest_of h.now) self.new }
        ensures finds { (events : List Event) → number ≡ length events + 1
            → Finds (H.digest_of h.now) tag.now events self.old
            → OnOk result (Finds (H.digest_of h.now) tag.now (event_of line.now ∷ events) self.new) }
    {
        if self.collisions.found.is_some() {
            return Ok(());
        }
        let shown = shown_of(self.alloc, line)?;
        self.collisions.take_all(h, shown.as_slice())?;
        self.forgeries
            .take(tag, number, &self.collisions.met, line, shown.as_slice())
    }

    /// What the lines show. `NoMemory` is its one refusal.
    pub fn exhibit(&self) -> Result<Exhibit, NoMemory>
        ensures { (dig : List ℕ → List ℕ) (tag : List ℕ) (events : List Event)
            → Finds dig tag (map read_of events) self.now
            → IfOk result (λ exhibit. exhibit ≡ exhibit_of dig tag events) }
    {
        if let Some(clash) = &self.collisions.found {
            return Ok(Exhibit::Collision {
                first: clash.first.copy()?,
                second: clash.second.copy()?,
            });
        }
        match self.forgeries.found {
            None => Ok(Exhibit::Nothing),
            Some(line) => Ok(Exhibit::Forgery { line }),
        }
    }
}
