ghost use Rattle.std.specs.Prelude.{◌≡◌, ◌≢◌};
ghost use Rattle.plasma_outside.specs.declared.sink.SinkRefusal.{SinkRefusal};
ghost use Rattle.plasma_outside.specs.Outside.{is_sink_fault};
ghost use Rattle.run_endings.specs.Statuses.{code_of, status_of_refusal, is_write_fault};

use plasma_outside::SinkRefusal;

/// How a run ended. Its number is the program's exit status.
#[derive(Clone, Copy, PartialEq, Eq)]
pub enum Status {
    /// Everything was done.
    Done,
    /// A node's command was refused, or the log is of another chain than the node's.
    Refused,
    /// The words are no form.
    Usage,
    /// A line isn't in the grammar, or breaks a rule of declarations, or is missing.
    BadLine,
    /// The source failed.
    ReadFault,
    /// The sink failed.
    WriteFault,
    /// A disk failed.
    DeviceFault,
    /// Memory ran out.
    NoMemory,
    /// A line passes a limit.
    TooLong,
    /// A disk doesn't keep the records of the role.
    NotJournal,
    /// A disk that is to be begun isn't empty.
    AlreadyMade,
}

impl Status {
    /// The program's exit status.
    pub fn code(self) -> u8
        ensures { result ≡ code_of self }
    {
        match self {
            Status::Done => 0,
            Status::Refused => 1,
            Status::Usage => 2,
            Status::BadLine => 3,
            Status::ReadFault => 4,
            Status::WriteFault => 5,
            Status::DeviceFault => 6,
            Status::NoMemory => 7,
            Status::TooLong => 8,
            Status::NotJournal => 9,
            Status::AlreadyMade => 10,
        }
    }

    /// The status of what stopped the writing.
    pub fn of_refusal(refusal: SinkRefusal) -> Status
        ensures status { result ≡ status_of_refusal refusal }
        ensures no_read_fault { result ≢ Status.ReadFault }
        ensures memory { result ≡ Status.NoMemory → refusal ≡ SinkRefusal.NoMemory }
        ensures write_fault { is_write_fault result ≡ is_sink_fault refusal }
    {
        match refusal {
            SinkRefusal::Failed => Status::WriteFault,
            SinkRefusal::NoMemory => Status::NoMemory,
        }
    }
}
