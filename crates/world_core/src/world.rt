ghost use Rattle.std.specs.Prelude.{◌≡◌, ◌∷◌, [], true, false, List, None, Some, IfOk, OnOk, IsErrOf};
ghost use Rattle.sha2.specs.Sha256.{sha256};
ghost use Rattle.plasma_tx.specs.Spelling.{AreBytes};
ghost use Rattle.schedule_text.specs.declared.line.Line.{Line};
ghost use Rattle.schedule_text.specs.Grammar.{IsLine};
ghost use Rattle.world_rules.specs.Steps.{Run, run_of};
ghost use Rattle.world_rules.specs.Verdicts.{verdicts_of, exhibit_of_run, counts_of};
ghost use Rattle.world_core.specs.Worlds.{before_all, NodesSpell, IsAfter};
ghost use Rattle.world_core.specs.Lines.{is_ending, IsStep, WouldFill, MovesIn};

use super::running::RunningWorld;
use plasma_base::{Hash32, NoMemory, Sha};
use schedule_text::Line;
use std::alloc::Global;
use std::marker::Model;
use world_rules::{Counts, Exhibit, TraceLine, Verdict};
use world_scene::{LineAnswer, StepRefusal};
use world_trace::Trace;

/// The world that a schedule's lines step through, with what it keeps of them.
#[derive(Drop)]
pub struct World<H: Hash32 + Copy = Sha> {
    running: RunningWorld<H>,
    // Whether memory ran out, or the mail was full: no line is stepped any more.
    has_ended: bool,
}

impl<H: Hash32 + Copy> Model for World<H> {
    ghost use Rattle.std.specs.Prelude.{◌≡◌, false};
    ghost use Rattle.std.specs.Coded.{codes};
    ghost use Rattle.world_trace.specs.contracts.trace.Trace as kept;
    ghost use Rattle.world_core.specs.Worlds.{WorldState, NodesSpell};

    ghost Value = { WorldState H };

    ghost coded = { Prim.hlevel (codes, H.code, kept.the_row.coded) };

    ghost view = { λ w. record { running = w.running; ended = w.has_ended } };

    // Until it has ended, each image of a crash now of each node's disks keeps the node's records.
    ghost invariant = { λ w. w.has_ended ≡ false → NodesSpell w.running };
}

impl World<Sha> {
    /// The world before its first line. Openings are judged by SHA-256 (FIPS 180-4).
    pub fn new(alloc: Global) -> World<Sha>
        ensures after { IsAfter sha256 [] result.running }
        ensures nodes { NodesSpell result.running }
        ensures ended { result.ended ≡ false }
    {
        World::new_with(alloc, Sha)
    }
}

// What the type of bytes says of them. It does nothing.
fn are_bytes(bytes: &[u8])
    ensures { AreBytes bytes.now }
{
    let _ = bytes;
}

impl<H: Hash32 + Copy> World<H> {
    /// The world before its first line, with openings judged by this digest.
    pub fn new_with(alloc: Global, hash: H) -> World<H>
        ensures state { result ≡ record { running = before_all hash; ended = false } }
        ensures after { IsAfter (H.digest_of hash) [] result.running }
        ensures nodes { NodesSpell result.running }
    {
        World {
            running: RunningWorld::new(alloc, hash),
            has_ended: false,
        }
    }

    /// Takes the step of a line: what it does to the contract, the nodes with their disks, names and mail. The answer
    /// is its line of the trace. `BadLine` comes exactly where it breaks a rule of declarations, and changes nothing;
    /// `MailFull` exactly where all mail items together would have more than 268,435,456 bytes. After that and after
    /// `NoMemory` the world has ended: it steps no line, and answers `NoMemory`.
    pub fn step(&mut self, line: &Line) -> Result<TraceLine, StepRefusal>
        requires { IsLine line.now }

        // The world is the run of all lines so far, and the answer is the line's in it.
        ensures ok { (lines : List Line) → IsAfter (H.digest_of self.old.running.hash) lines self.old.running
            → IfOk result (λ told. IsStep (H.digest_of self.old.running.hash) lines line.now told self.new.running) }
        ensures hash { OnOk result (self.new.running.hash ≡ self.old.running.hash) }

        // Every image of a crash now of each node's disks keeps its identity and its records; the disks of a node that
        // runs a command make the calls of that command, and all others stay.
        ensures nodes { OnOk result (NodesSpell self.new.running) }
        ensures moves { OnOk result (MovesIn H.digest_of self.old.running.scene line.now self.new.running.scene) }
        ensures bad { (lines : List Line) → IsAfter (H.digest_of self.old.running.hash) lines self.old.running
            → IsErrOf result StepRefusal.BadLine → run_of (H.digest_of self.old.running.hash) (line.now ∷ lines) ≡ None }
        ensures same { IsErrOf result StepRefusal.BadLine → self.new ≡ self.old }

        // It ends with any other refusal, and from then on answers `NoMemory` and stays.
        ensures ends { self.new.ended ≡ is_ending result }
        ensures ended { self.old.ended ≡ true → IsErrOf result StepRefusal.NoMemory × (self.new ≡ self.old) }
        ensures full { (lines : List Line) → IsAfter (H.digest_of self.old.running.hash) lines self.old.running
            → IsErrOf result StepRefusal.MailFull → WouldFill (H.digest_of self.old.running.hash) lines line.now }
    {
        if self.has_ended {
            return Err(StepRefusal::NoMemory);
        }
        let answer = match self.running.take_line(line) {
            Ok(answer) => answer,
            Err(StepRefusal::BadLine) => return Err(StepRefusal::BadLine),
            // A scene has no limit of mail: whatever else it refuses it refuses for want of memory.
            Err(_) => {
                self.has_ended = true;
                return Err(StepRefusal::NoMemory);
            }
        };
        // What stops the step from here on ends the world.
        self.has_ended = true;
        let LineAnswer {
            done,
            reply,
            made,
            event,
        } = answer;
        are_bytes(made.as_slice());
        let item = made.copy()?;
        self.running.put_mail(item)?;
        self.running.keep(line, event, done, &reply)?;
        let number = self.trace().len() as u64;
        self.has_ended = false;
        Ok(TraceLine {
            line: number,
            done,
            answer: reply,
            made,
        })
    }

    /// What is kept of the lines so far.
    pub fn trace(&self) -> &Trace
        ensures { result.now ≡ self.now.running.trace }
    {
        &self.running.trace
    }

    /// The verdicts on all wallets' coins, in the order of their declarations and by rising coin; none before the
    /// first line. `NoMemory` is its one refusal.
    pub fn verdicts(&self) -> Result<Vec<Verdict>, NoMemory>
        ensures { (lines : List Line) (run : Run) → IsAfter (H.digest_of self.now.running.hash) lines self.now.running
            → run_of (H.digest_of self.now.running.hash) lines ≡ Some run
            → IfOk result (λ verdicts. verdicts.items ≡ verdicts_of (H.digest_of self.now.running.hash) run) }
    {
        self.trace().verdicts()
    }

    /// What the lines show that excuses a loss: nothing before the first line. `NoMemory` is its one refusal.
    pub fn exhibit(&self) -> Result<Exhibit, NoMemory>
        ensures { (lines : List Line) (run : Run) → IsAfter (H.digest_of self.now.running.hash) lines self.now.running
            → run_of (H.digest_of self.now.running.hash) lines ≡ Some run
            → IfOk result (λ exhibit. exhibit ≡ exhibit_of_run (H.digest_of self.now.running.hash) run) }
    {
        self.trace().exhibit()
    }

    /// How much there is of the lines: how many they are, were accepted by the contract or answered with a refusal, the
    /// blocks and coins of the chain, and the verdicts of each kind. `NoMemory` is its one refusal.
    pub fn counts(&self) -> Result<Counts, NoMemory>
        ensures { (lines : List Line) (run : Run) → IsAfter (H.digest_of self.now.running.hash) lines self.now.running
            → run_of (H.digest_of self.now.running.hash) lines ≡ Some run
            → IfOk result (λ counts. counts ≡ counts_of (H.digest_of self.now.running.hash) run) }
    {
        let verdicts = self.verdicts()?;
        Ok(self.running.counts(&verdicts))
    }
}
