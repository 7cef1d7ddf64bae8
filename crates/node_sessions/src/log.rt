ghost use Rattle.std.specs.Prelude.{◌≡◌, ◌⊎◌, true, IsSome, Ok, Err, IfOk, IfErr, OnOk, OnErr};
ghost use Rattle.root_log.specs.Grammar.{chain_in, appended, TakesMemory, begins_as_chain};
ghost use Rattle.node_sessions.specs.Sessions.{other_chain, first_log, longer_log};
ghost use Rattle.node_sessions.specs.Commands.{HaltsLog};

use plasma_base::{Bytes, NoMemory};
use plasma_tx::RootLog;
use root_log::{LogRefusal, read_chain, read_line};
use std::alloc::Global;
use streamed_lines::{Halt, Stop};

// Why a log of another chain isn't read.
fn other_chain(alloc: Global) -> Result<Bytes, NoMemory>
    ensures { IfOk result (λ cause. cause ≡ other_chain) }
{
    Ok(Bytes::from_vec(Vec::from_slice(alloc, b"other-chain")?))
}

// Why a line of a log isn't read.
fn halt_of(refusal: LogRefusal) -> Halt<Bytes>
    ensures bad { refusal ≡ LogRefusal.BadEvent → result ≡ Halt.Stops Stop.BadLine }
    ensures memory { refusal ≡ LogRefusal.NoMemory → result ≡ Halt.NoMemory }
{
    match refusal {
        LogRefusal::BadEvent => Halt::Stops {
            stop: Stop::BadLine,
        },
        LogRefusal::NoMemory => Halt::NoMemory,
    }
}

/// The log that a first line begins, which has to name the chain with this tag.
pub fn first_log(alloc: Global, tag: &[u8; 32], line: &[u8]) -> Result<RootLog, Halt<Bytes>>
    ensures begun { IfOk result (λ log. first_log tag.now (chain_in line.now) ≡ Ok log) }
    ensures halts { IfErr result (HaltsLog (first_log tag.now (chain_in line.now))) }
    ensures memory { result ≡ Err Halt.NoMemory → (begins_as_chain line.now ≡ true) ⊎ IsSome (chain_in line.now) }
{
    let log = read_chain(alloc, line).map_err(halt_of)?;
    if log.tag() != *tag {
        let cause = other_chain(alloc)?;
        return Err(Halt::Stops {
            stop: Stop::Ends { cause },
        });
    }
    Ok(log)
}

/// Reads a line of a log that is the log's next call.
pub fn read_call(alloc: Global, log: &mut RootLog, line: &[u8]) -> Result<(), Halt<Bytes>>
    ensures longer { OnOk result (longer_log (appended log.old line.now) ≡ Ok log.new) }
    ensures halts { IfErr result (HaltsLog (longer_log (appended log.old line.now))) }
    ensures memory { result ≡ Err Halt.NoMemory → TakesMemory line.now }
    ensures same { OnErr result (log.new ≡ log.old) }
{
    read_line(alloc, log, line).map_err(halt_of)
}
