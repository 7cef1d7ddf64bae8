ghost use Rattle.std.specs.Prelude.{◌≡◌};
ghost use Rattle.streamed_lines.specs.Streams.{ending_at};
ghost use Rattle.streamed_lines.specs.Reading.{halted_at};

use plasma_base::NoMemory;
use plasma_outside::SinkRefusal;
use std::alloc::AllocError;

/// What ends a stream of lines. `C` are the causes of an answerer's own.
#[derive(Clone, Copy, PartialEq, Eq)]
pub enum Ending<C> {
    /// All lines were answered.
    Complete,
    /// This line is the first that may not stand there, or that is missing.
    BadLine { line: u64 },
    /// The input wasn't read to its end.
    ReadFault,
    /// This line is the first that passes a limit.
    TooLong { line: u64 },
    /// The answerer ended it at this line, for a cause of its own.
    Ended { line: u64, cause: C },
}

/// Why a line ends a stream.
#[derive(Debug, Clone, Copy, PartialEq, Eq)]
pub enum Stop<C> {
    /// It may not stand there.
    BadLine,
    /// It passes a limit.
    TooLong,
    /// A cause of the answerer's own.
    Ends { cause: C },
}

/// Why a line isn't answered.
#[derive(Clone, Copy, PartialEq, Eq)]
pub enum Halt<C> {
    /// The line ends the stream.
    Stops { stop: Stop<C> },
    /// The answerer failed, and counted it.
    Failed,
    /// Memory ran out.
    NoMemory,
}

/// What breaks a stream of lines off.
#[derive(Clone, Copy, PartialEq, Eq)]
pub enum Break {
    /// The sink failed.
    WriteFault,
    /// The answerer failed, and counted it.
    Failed,
    /// Memory ran out.
    NoMemory,
}

impl<C> Stop<C> {
    // The ending of a stream that line `number` stops so.
    fn ending(self, number: u64) -> Ending<C>
        ensures { result ≡ ending_at number self }
    {
        match self {
            Stop::BadLine => Ending::BadLine { line: number },
            Stop::TooLong => Ending::TooLong { line: number },
            Stop::Ends { cause } => Ending::Ended {
                line: number,
                cause,
            },
        }
    }
}

impl<C> Halt<C> {
    /// What ends a stream whose line `number` isn't answered, or breaks it off.
    pub(crate) fn outcome(self, number: u64) -> Result<Ending<C>, Break>
        ensures { result ≡ halted_at number self }
    {
        match self {
            Halt::Stops { stop } => Ok(stop.ending(number)),
            Halt::Failed => Err(Break::Failed),
            Halt::NoMemory => Err(Break::NoMemory),
        }
    }
}

impl<C> From<NoMemory> for Halt<C> {
    ghost use Rattle.std.specs.Prelude.{◌≡◌};
    ghost use Rattle.streamed_lines.specs.declared.ending.Halt.{Halt};

    ghost from_gives = { λ _ halt. halt ≡ Halt.NoMemory };

    fn from(_error: NoMemory) -> Halt<C> {
        Halt::NoMemory
    }
}

impl<C> From<AllocError> for Halt<C> {
    ghost use Rattle.std.specs.Prelude.{◌≡◌};
    ghost use Rattle.streamed_lines.specs.declared.ending.Halt.{Halt};

    ghost from_gives = { λ _ halt. halt ≡ Halt.NoMemory };

    fn from(_error: AllocError) -> Halt<C> {
        Halt::NoMemory
    }
}

impl From<SinkRefusal> for Break {
    ghost use Rattle.std.specs.Prelude.{◌≡◌};
    ghost use Rattle.streamed_lines.specs.Reading.{break_of};

    ghost from_gives = { λ refusal why. why ≡ break_of refusal };

    fn from(refusal: SinkRefusal) -> Break {
        match refusal {
            SinkRefusal::Failed => Break::WriteFault,
            SinkRefusal::NoMemory => Break::NoMemory,
        }
    }
}
