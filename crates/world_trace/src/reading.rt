ghost use Rattle.std.specs.Prelude.{◌≡◌, ◌==◌, length, drop, if◌then◌else◌, IfOk};
ghost use Rattle.world_rules.specs.OrderEvents.{bundle_read};
ghost use Rattle.world_trace.specs.Reading.{body_found, message_in, leaf_at_end};

use coin_history::{Bundle, HistoryRefusal, Openings};
use plasma_base::{NoMemory, get_u32};
use plasma_tx::Body;
use std::alloc::Global;

// How many bytes a leaf's record has that is a message alone.
const FIRST_LENGTH: usize = 116;

/// The bundle that the bytes spell; an empty one where they spell none, which no node takes.
pub fn bundle_read(alloc: Global, bytes: &[u8]) -> Result<Bundle, NoMemory>
    ensures { IfOk result (λ bundle. bundle ≡ bundle_read bytes.now) }
{
    match Bundle::read(alloc, bytes) {
        Ok(bundle) => Ok(bundle),
        Err(HistoryRefusal::NoMemory) => Err(NoMemory),
        Err(_) => Ok(Bundle {
            coin: 0,
            tip: 0,
            openings: Openings::from_vec(Vec::new(alloc)),
        }),
    }
}

/// The body that the bytes begin with, whatever its tag is, if they begin with one. It takes no memory.
pub fn body_found(bytes: &[u8]) -> Option<Body>
    ensures { result ≡ body_found bytes.now }
{
    if bytes.len() < 36 {
        return None;
    }
    let mut tag = [0; 32];
    tag.copy_from_slice(&bytes[4..36]);
    match Body::read(&tag, bytes) {
        Ok(body) => Some(body),
        Err(_) => None,
    }
}

/// The message of a leaf's record: all of it, or what follows its number.
pub fn message_in(bytes: &[u8]) -> &[u8]
    ensures { result.now ≡ message_in bytes.now }
{
    if bytes.len() == FIRST_LENGTH {
        bytes
    } else {
        &bytes[bytes.len().min(4)..]
    }
}

/// The leaf that a wallet's note says was taken back: the four bytes behind its mark, its coin and its tip.
pub fn leaf_at_end(bytes: &[u8]) -> u32
    ensures { result ≡ leaf_at_end bytes.now }
{
    get_u32(bytes, 17).unwrap_or(0)
}
