ghost use Rattle.std.specs.Prelude.{◌≡◌, [], List, Some};
ghost use Rattle.schedule_text.specs.declared.line.Line.{Line};
ghost use Rattle.world_rules.specs.Steps.{Run, run_of};
ghost use Rattle.world_rules.specs.Verdicts.{verdicts_of, counts_of};
ghost use Rattle.world_core.specs.Worlds.{before_all, NodesSpell, IsAfter};

use super::counting::{verdict_counts, with_log};
use plasma_base::Hash32;
use std::alloc::Global;
use std::marker::Model;
use world_rules::{Counts, Verdict};
use world_scene::Scene;
use world_trace::Trace;

/// The world that a schedule's lines step through, with what it keeps of them, until it ends.
#[derive(Drop)]
pub(crate) struct RunningWorld<H: Hash32 + Copy> {
    pub(crate) alloc: Global,
    pub(crate) hash: H,
    // None until a first line begins the chain.
    pub(crate) scene: Option<Scene<H>>,
    // The bytes of all mail items.
    pub(crate) mail_size: u64,
    pub(crate) trace: Trace,
    // How many answers begin with a refusal.
    pub(crate) refused: u64,
}

impl<H: Hash32 + Copy> Model for RunningWorld<H> {
    ghost use Rattle.std.specs.Prelude.{◌≤◌};
    ghost use Rattle.world_rules.specs.declared.TheConstants.{MOST_MAIL};
    ghost use Rattle.std.specs.Coded.{codes};
    ghost use Rattle.world_trace.specs.contracts.trace.Trace as kept;
    ghost use Rattle.world_trace.specs.Traces.{HasDigest};
    ghost use Rattle.world_core.specs.Worlds.{RunningState};

    ghost Value = { RunningState H };

    ghost coded = { Prim.hlevel (codes, H.code, kept.the_row.coded) };

    ghost view = { λ w. record {
      hash = w.hash;
      scene = w.scene;
      mail_size = w.mail_size;
      trace = w.trace;
      refused = w.refused;
    } };

    // What is left for mail is a number; and what the lines show is found by the world's digest.
    ghost invariant = { λ w. (w.mail_size ≤ MOST_MAIL) × HasDigest (H.digest_of w.hash) w.trace };
}

impl<H: Hash32 + Copy> RunningWorld<H> {
    /// The world before its first line, with openings judged by this digest.
    pub(crate) fn new(alloc: Global, hash: H) -> RunningWorld<H>
        ensures state { result ≡ before_all hash }
        ensures after { IsAfter (H.digest_of hash) [] result }
        ensures nodes { NodesSpell result }
    {
        RunningWorld {
            alloc,
            hash,
            scene: None,
            mail_size: 0,
            trace: Trace::new(alloc),
            refused: 0,
        }
    }

    /// How much there is of the lines, by their verdicts.
    pub(crate) fn counts(&self, verdicts: &[Verdict]) -> Counts
        ensures { (lines : List Line) (run : Run) → IsAfter (H.digest_of self.now.hash) lines self.now
            → run_of (H.digest_of self.now.hash) lines ≡ Some run
            → verdicts.now ≡ verdicts_of (H.digest_of self.now.hash) run
            → result ≡ counts_of (H.digest_of self.now.hash) run }
    {
        let counts = verdict_counts(self.trace.len() as u64, self.refused, verdicts);
        match &self.scene {
            None => counts,
            Some(scene) => with_log(counts, scene.log()),
        }
    }
}
