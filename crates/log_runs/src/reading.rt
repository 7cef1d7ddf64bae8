ghost use Rattle.std.specs.Prelude.{◌≡◌, true, Some, Err, IfOk, IfErr, IsSome};
ghost use Rattle.plasma_base.specs.HexText.{hex_in};
ghost use Rattle.schedule_text.specs.Grammar.{begins_with_bytes};
ghost use Rattle.root_log.specs.Grammar.{chain_in, call_in, begins_as_chain};
ghost use Rattle.log_runs.specs.Kept.{SpellsNone};

use plasma_base::{Bytes, HexRefusal, take_hex};
use plasma_tx::{RootCall, RootLog};
use root_log::LogRefusal;
use std::alloc::Global;
use streamed_lines::{Halt, Stop};

// Why a line of a log isn't read.
fn halt_of(refusal: LogRefusal) -> Halt<Bytes>
    ensures bad { refusal ≡ LogRefusal.BadEvent → result ≡ Halt.Stops Stop.BadLine }
    ensures memory { refusal ≡ LogRefusal.NoMemory → result ≡ Halt.NoMemory }
{
    match refusal {
        LogRefusal::BadEvent => Halt::Stops {
            stop: Stop::BadLine,
        },
        LogRefusal::NoMemory => Halt::NoMemory,
    }
}

/// The log without calls of the chain that a first line names.
pub fn read_first(alloc: Global, line: &[u8]) -> Result<RootLog, Halt<Bytes>>
    ensures found { IfOk result (λ log. chain_in line.now ≡ Some log) }
    ensures bad { IfErr result (SpellsNone (chain_in line.now)) }
    ensures memory { result ≡ Err Halt.NoMemory → begins_as_chain line.now ≡ true }
{
    root_log::read_chain(alloc, line).map_err(halt_of)
}

/// The call that a line of a log spells.
pub fn read_call(alloc: Global, line: &[u8]) -> Result<RootCall, Halt<Bytes>>
    ensures found { IfOk result (λ call. call_in line.now ≡ Some call) }
    ensures bad { IfErr result (SpellsNone (call_in line.now)) }
    ensures memory { result ≡ Err Halt.NoMemory → begins_with_bytes line.now ≡ true }
{
    root_log::read_call(alloc, line).map_err(halt_of)
}

/// The bytes that a line spells as a hex. Memory is taken only where it does.
pub fn read_hex(alloc: Global, line: &[u8]) -> Result<Bytes, Halt<Bytes>>
    ensures found { IfOk result (λ bytes. hex_in line.now ≡ Some bytes) }
    ensures bad { IfErr result (SpellsNone (hex_in line.now)) }
    ensures memory { result ≡ Err Halt.NoMemory → IsSome (hex_in line.now) }
{
    match take_hex(alloc, line) {
        Ok(bytes) => Ok(Bytes::from_vec(bytes)),
        Err(HexRefusal::BadHex) => Err(Halt::Stops {
            stop: Stop::BadLine,
        }),
        Err(HexRefusal::NoMemory) => Err(Halt::NoMemory),
    }
}
