ghost use Rattle.std.specs.Prelude.{◌≡◌};
ghost use Rattle.plasma_outside.specs.Outside.{is_failed};
ghost use Rattle.run_endings.specs.Statuses.{is_write_fault};
ghost use Rattle.replay_run.specs.Output.{status_of_replay};

use plasma_outside::SinkRefusal;
use run_endings::Status;
use streamed_lines::Ending;

/// The causes of its own for which a line ends a replay: there are none.
#[derive(Clone, Copy)]
pub enum NoCause {}

/// The status of a replay that ended so, or was stopped.
pub fn status_of_replay(ended: Result<Ending<NoCause>, SinkRefusal>) -> Status
    ensures status { result ≡ status_of_replay ended }
    ensures write_fault { is_write_fault result ≡ is_failed ended }
{
    match ended {
        Ok(Ending::Complete) => Status::Done,
        Ok(Ending::BadLine { .. }) => Status::BadLine,
        Ok(Ending::ReadFault) => Status::ReadFault,
        Ok(Ending::TooLong { .. }) => Status::TooLong,
        Err(refusal) => Status::of_refusal(refusal),
    }
}
