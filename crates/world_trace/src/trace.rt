ghost use Rattle.std.specs.Prelude.{◌≡◌, ◌+◌, ◌++◌, ◌∷◌, ℕ, List, None, length, map, IfOk, OnOk};
ghost use Rattle.std.specs.List.{flat_map};
ghost use Rattle.plasma_tx.specs.Shown.{Tests, Rules};
ghost use Rattle.plasma_tx.specs.Table.{IsLegal};
ghost use Rattle.world_rules.specs.Events.{Event, log_of};
ghost use Rattle.world_rules.specs.Verdicts.{verdicts_on};
ghost use Rattle.world_rules.specs.Exhibits.{exhibit_of};
ghost use Rattle.coin_verdicts.specs.Facts.{OwnersStay};
ghost use Rattle.coin_verdicts.specs.Wallets.{named_of};
ghost use Rattle.trace_exhibits.specs.Lines.{event_of};
ghost use Rattle.world_trace.specs.Events.{IsEvent};
ghost use Rattle.world_trace.specs.Read.{declared_by};
ghost use Rattle.world_trace.specs.Traces.{no_trace, HasDigest, IsOpenTo, FindsIn, Tells};

use super::event::LineEvent;
use super::fact::fact_of;
use super::read::read_in;
use coin_verdicts::{Fact, NamedWallet, verdicts};
use plasma_base::{Bytes, Hash32, NoMemory};
use plasma_tx::RootLog;
use std::alloc::Global;
use std::marker::Model;
use trace_exhibits::{ExhibitLine, Findings};
use world_rules::{Exhibit, Verdict};

/// What is kept of the lines of a run: of each line what verdicts need, the names of the wallets, and what the lines
/// show that excuses a loss, which is found while they come.
#[derive(Drop)]
pub struct Trace {
    alloc: Global,
    facts: Vec<Fact>,
    wallets: Vec<NamedWallet>,
    // None before the first line, which says by which digest it is found.
    found: Option<Findings>,
}

impl Model for Trace {
    ghost use Rattle.std.specs.Coded.{codes};
    ghost use Rattle.trace_exhibits.specs.contracts.findings.Findings as findings;
    ghost use Rattle.world_trace.specs.Traces.{TraceState};

    ghost Value = { TraceState };

    ghost coded = { Prim.hlevel (codes, findings.the_row.coded) };

    ghost view = { λ t. record {
      facts = t.facts.items;
      wallets = t.wallets.items;
      found = t.found;
    } };
}

// Takes the first line, which makes what finds. It stands apart, since its memory would be cleared for each line.
#[cold]
#[inline(never)]
fn find_first<H: Hash32>(
    found: &mut Option<Findings>,
    alloc: Global,
    h: &H,
    tag: &[u8; 32],
    number: u64,
    line: &ExhibitLine<'_>,
) -> Result<(), NoMemory>
    requires { found.old ≡ None }
    ensures digest { IsOpenTo (H.digest_of h.now) found.new }
    ensures finds { (events : List Event) → number ≡ length events + 1
        → FindsIn (H.digest_of h.now) tag.now events found.old
        → OnOk result (FindsIn (H.digest_of h.now) tag.now (event_of line.now ∷ events) found.new) }
{
    let mut findings = Findings::new(alloc, h);
    findings.pass(h, tag, number, line)?;
    *found = Some(findings);
    Ok(())
}

// Takes the line with this number, the first of which makes what finds.
fn find_in<H: Hash32>(
    found: &mut Option<Findings>,
    alloc: Global,
    h: &H,
    tag: &[u8; 32],
    number: u64,
    line: &ExhibitLine<'_>,
) -> Result<(), NoMemory>
    requires { IsOpenTo (H.digest_of h.now) found.old }
    ensures digest { IsOpenTo (H.digest_of h.now) found.new }
    ensures finds { (events : List Event) → number ≡ length events + 1
        → FindsIn (H.digest_of h.now) tag.now events found.old
        → OnOk result (FindsIn (H.digest_of h.now) tag.now (event_of line.now ∷ events) found.new) }
{
    match found {
        Some(findings) => findings.pass(h, tag, number, line),
        None => find_first(found, alloc, h, tag, number, line),
    }
}

// Adds the wallet that the event declares, by this name.
fn add_wallet(
    wallets: &mut Vec<NamedWallet>,
    alloc: Global,
    name: &[u8],
    event: &LineEvent,
) -> Result<(), NoMemory>
    ensures { OnOk result (wallets.new.items ≡ wallets.old.items ++ declared_by name.now event.now) }
{
    if let LineEvent::Declares { wallet, .. } = event {
        let name = Bytes::from_vec(Vec::from_slice(alloc, name)?);
        wallets.push(NamedWallet {
            number: *wallet,
            name,
        })?;
    }
    Ok(())
}

impl Trace {
    /// Nothing of no lines.
    pub fn new(alloc: Global) -> Trace
        ensures { result ≡ no_trace }
    {
        Trace {
            alloc,
            facts: Vec::new(alloc),
            wallets: Vec::new(alloc),
            found: None,
        }
    }

    /// How many lines there are.
    pub fn len(&self) -> usize
        ensures { result ≡ length self.now.facts }
    {
        self.facts.len()
    }

    /// Adds a line, which is this event and left this log. `name` is that of the wallet that the line declares, if it
    /// declares one; `h` is the digest of all lines. After `NoMemory` nothing is said of the trace.
    pub fn push<H: Hash32>(
        &mut self,
        h: &H,
        log: &RootLog,
        name: &[u8],
        event: LineEvent,
    ) -> Result<(), NoMemory>
        requires { HasDigest (H.digest_of h.now) self.old }
        ensures digest { HasDigest (H.digest_of h.now) self.new }
        ensures told { (tests : Tests) (rules : Rules) (events : List Event) (told : Event)
            → Tells (H.digest_of h.now) tests rules events self.old
            → IsEvent tests rules (log_of events) told event
            → log.now.log ≡ log_of (told ∷ events) → log.now.tag ≡ rules.tag
            → OnOk result (Tells (H.digest_of h.now) tests rules (told ∷ events) self.new) }
        ensures named { OnOk result (self.new.wallets ≡ self.old.wallets ++ declared_by name.now event) }
        ensures one { OnOk result (length self.new.facts ≡ length self.old.facts + 1) }
    {
        let number = (self.facts.len() as u64).saturating_add(1);
        let line = read_in(log, &event);
        find_in(&mut self.found, self.alloc, h, &log.tag(), number, &line)?;
        add_wallet(&mut self.wallets, self.alloc, name, &event)?;
        let fact = fact_of(self.alloc, event)?;
        self.facts.push(fact)?;
        Ok(())
    }

    /// The verdicts on the coins of all wallets, in the order of their declarations. `NoMemory` is its one refusal.
    pub fn verdicts(&self) -> Result<Vec<Verdict>, NoMemory>
        ensures { (dig : List ℕ → List ℕ) (tests : Tests) (rules : Rules) (events : List Event)
            → Tells dig tests rules events self.now → IsLegal rules (log_of events) → OwnersStay events
            → IfOk result (λ found. found.items
            ≡ flat_map (verdicts_on tests rules events) (map named_of self.now.wallets)) }
    {
        verdicts(self.alloc, &self.facts, &self.wallets)
    }

    /// What the lines show that excuses a loss. `NoMemory` is its one refusal.
    pub fn exhibit(&self) -> Result<Exhibit, NoMemory>
        ensures { (dig : List ℕ → List ℕ) (tests : Tests) (rules : Rules) (events : List Event)
            → Tells dig tests rules events self.now
            → IfOk result (λ exhibit. exhibit ≡ exhibit_of dig rules.tag events) }
    {
        match &self.found {
            None => Ok(Exhibit::Nothing),
            Some(found) => found.exhibit(),
        }
    }
}
