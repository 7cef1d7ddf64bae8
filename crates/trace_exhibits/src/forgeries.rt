ghost use Rattle.std.specs.Prelude.{◌≡◌, ◌+◌, ℕ, ◌∷◌, [], false, List, length, IfOk, OnOk};
ghost use Rattle.world_rules.specs.Events.{Event};
ghost use Rattle.world_rules.specs.Exhibits.{forges_some};
ghost use Rattle.trace_exhibits.specs.Opened.{Opened};
ghost use Rattle.trace_exhibits.specs.Told.{shown_of};
ghost use Rattle.trace_exhibits.specs.Lines.{event_of};
ghost use Rattle.trace_exhibits.specs.Wallets.{KeepsWallets, is_forged_in};
ghost use Rattle.trace_exhibits.specs.Tested.{KeepsTested};
ghost use Rattle.trace_exhibits.specs.Met.{AreStill};
ghost use Rattle.trace_exhibits.specs.Findings.{FindsForgery};

use super::lines::ExhibitLine;
use super::met::MetOpenings;
use super::shown::ShownOpening;
use super::tested::Tested;
use super::wallets::Known;
use plasma_base::NoMemory;
use std::alloc::Global;

/// What lines said of wallets and which openings were tested; and the number of the first line that shows a forgery,
/// once there is one: a leaf with the chain's tag whose signature is valid under the key of a wallet that an earlier
/// line declares, over a body that no earlier leaf of it bound. Nothing is looked at behind it.
#[derive(Drop)]
pub(crate) struct Forgeries {
    alloc: Global,
    pub(crate) known: Known,
    pub(crate) tested: Tested,
    pub(crate) found: Option<u64>,
}

impl Forgeries {
    /// No line. It takes no memory.
    pub(crate) fn new(alloc: Global) -> Forgeries
        ensures { (tag : List ℕ) (met : List Opened) → FindsForgery tag [] met result }
    {
        Forgeries {
            alloc,
            known: Known::new(alloc),
            tested: Tested::new(alloc),
            found: None,
        }
    }

    /// Takes the line with this number, which shows these openings. More may have been met since the line before.
    pub(crate) fn take(
        &mut self,
        tag: &[u8; 32],
        number: u64,
        met: &MetOpenings,
        line: &ExhibitLine<'_>,
        shown: &[ShownOpening<'_>],
    ) -> Result<(), NoMemory>
        requires { shown.now ≡ shown_of (event_of line.now) }
        ensures { (events : List Event) (before : List Opened) → number ≡ length events + 1
            → AreStill before met.now → FindsForgery tag.now events before self.old
            → OnOk result (FindsForgery tag.now (event_of line.now ∷ events) met.now self.new) }
    {
        if self.found.is_some() {
            return Ok(());
        }
        if show_forgery(self.alloc, tag, &self.known, &mut self.tested, met, shown)? {
            self.found = Some(number);
            return Ok(());
        }
        self.known.add(line)?;
        Ok(())
    }
}

// Whether one of the openings of a line shows a forgery, behind the lines that said what is known.
fn show_forgery(
    alloc: Global,
    tag: &[u8; 32],
    known: &Known,
    tested: &mut Tested,
    met: &MetOpenings,
    shown: &[ShownOpening<'_>],
) -> Result<bool, NoMemory>
    ensures { IfOk result (λ forged. (events : List Event) (event : Event) → shown.now ≡ shown_of event
        → KeepsWallets events known.now → KeepsTested tag.now events met.now tested.old
        → (forged ≡ forges_some tag.now events event)
        × (forged ≡ false → KeepsTested tag.now events met.now tested.new)) }
{
    for one in shown {
        if is_forged(alloc, tag, known, tested, met, one)? {
            return Ok(true);
        }
    }
    Ok(false)
}

// Whether the opening shows a forgery. One that was met and tested is tested again by newer wallets alone.
fn is_forged(
    alloc: Global,
    tag: &[u8; 32],
    known: &Known,
    tested: &mut Tested,
    met: &MetOpenings,
    one: &ShownOpening<'_>,
) -> Result<bool, NoMemory>
    ensures { IfOk result (λ forged. (events : List Event) → KeepsWallets events known.now
        → KeepsTested tag.now events met.now tested.old
        → (forged ≡ is_forged_in tag.now events one.now)
        × (forged ≡ false → KeepsTested tag.now events met.now tested.new)) }
{
    let place = met.find(one.coin(), one.opening());
    let count = tested.count(place);
    if count == known.count() {
        return Ok(false);
    }
    if known.is_forged(alloc, tag, one, count)? {
        return Ok(true);
    }
    tested.add(place, known.count())?;
    Ok(false)
}
