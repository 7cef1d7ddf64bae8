use coin_history::HistoryRefusal;
use node_replies::history_cause;
use plasma_base::{Bytes, NoMemory, Sha, lent_digest, put_hex, sha_digest, toy_digest};
use root_log::{print_chain, read_chain};
use std::alloc::Global;
use std::test::Fail;

/// Whether the bytes have this hex.
pub fn is_hex(alloc: Global, bytes: &[u8], hex: &str) -> Result<bool, NoMemory> {
    Ok(put_hex(alloc, bytes)?.as_slice() == hex.as_bytes())
}

const CHAIN: &[u8] =
    b"chain 0x0000000000000000000000000000000000000000000000000000000000000001 9 100";

// The first line of a log, printed after it was read.
fn printed(alloc: Global, line: &[u8]) -> Result<Vec<u8>, Fail> {
    let log = read_chain(alloc, line)?;
    let mut out = Vec::new(alloc);
    print_chain(&log, &mut out)?;
    Ok(out)
}

// The text of a refusal.
fn said(alloc: Global) -> Result<Bytes, NoMemory> {
    history_cause(alloc, &HistoryRefusal::MissingBlock { n: 12 })
}

#[test]
fn texts_that_no_run_prints(rt: HostRuntime) -> Result<(), Fail> {
    assert!(rt; printed(rt.alloc(), CHAIN)?.as_slice() == CHAIN);
    assert!(rt; said(rt.alloc())?.as_slice() == b"missing-block 12".as_slice());
    Ok(())
}

// The example of the standard (FIPS 180-4).
const ABC: &str = "0xba7816bf8f01cfea414140de5dae2223b00361a396177a9cb410ff61f20015ad";

// The two groups, one byte and the eight behind it, added up.
const GROUPS: &str = "0x00000000000000000000000000000000000000000000000002636465666768cd";

#[test]
fn digests_that_no_run_makes(rt: HostRuntime) -> Result<(), Fail> {
    let alloc = rt.alloc();
    assert!(rt; is_hex(alloc, &sha_digest(b"abc"), ABC)?);
    assert!(rt; is_hex(alloc, &lent_digest(&Sha, b"abc"), ABC)?);
    assert!(rt; is_hex(alloc, &toy_digest(b"abcdefghi"), GROUPS)?);
    Ok(())
}
