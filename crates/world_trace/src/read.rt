ghost use Rattle.std.specs.Prelude.{◌≡◌};
ghost use Rattle.trace_exhibits.specs.Lines.{accepts, event_of};
ghost use Rattle.world_trace.specs.Read.{joined_in, read_in};

use super::event::LineEvent;
use coin_history::Bundle;
use plasma_tx::RootLog;
use trace_exhibits::ExhibitLine;

// The newest call of the log, lent.
fn joined(log: &RootLog) -> ExhibitLine<'_>
    ensures { event_of result ≡ joined_in log.now.log }
{
    match log.events().last() {
        Some(call) => ExhibitLine::Joins { call },
        None => ExhibitLine::Other,
    }
}

// The openings of a bundle, lent.
fn shown(bundle: &Bundle) -> ExhibitLine<'_>
    ensures { event_of result ≡ accepts bundle.now.coin bundle.now.openings }
{
    ExhibitLine::Shows {
        coin: bundle.coin,
        openings: bundle.openings.as_slice(),
    }
}

/// What the exhibit reads of a line, lent of its event and of the log that it left.
pub(crate) fn read_in<'a>(log: &'a RootLog, event: &'a LineEvent) -> ExhibitLine<'a>
    ensures { event_of result ≡ read_in log.now.log event.now }
{
    match event {
        LineEvent::Declares { wallet, owner } => ExhibitLine::Declares {
            wallet: *wallet,
            owner,
        },
        LineEvent::Joins { .. } => joined(log),
        LineEvent::Accepts { bundle, .. }
        | LineEvent::Guards { bundle, .. }
        | LineEvent::TakesBack { bundle, .. } => shown(bundle),
        LineEvent::Binds { wallet, body } => ExhibitLine::Binds {
            wallet: *wallet,
            body,
        },
        _ => ExhibitLine::Other,
    }
}
