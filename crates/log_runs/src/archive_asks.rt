ghost use Rattle.std.specs.Prelude.{◌≡◌, ◌≢◌, ◌++◌, ◌<◌, ◌^◌, Ok, Err, length, IfErr, OnOk};
ghost use Rattle.std.specs.List.{All};
ghost use Rattle.coin_history.specs.Bundles.{AreRising};
ghost use Rattle.log_runs.specs.Archiving.{broken_text, bundled_text, answer_to, held_behind};
ghost use Rattle.log_runs.specs.Holds.{holding_of, Holds, IsTold};

use super::archive_line::ArchiveAsk;
use super::phrases::{push_told, push_words};
use coin_history::Bundle;
use plasma_base::{Hash32, NoMemory, push_hex};
use plasma_tx::RawOpening;
use proof_archive::{Archive, ArchiveRefusal};
use std::alloc::Global;

// Puts a coin's broken block at the end, or that there is none.
fn push_broken(out: &mut Vec<u8>, broken: Option<u64>) -> Result<(), NoMemory>
    ensures { OnOk result (out.new.items ≡ out.old.items ++ broken_text broken) }
{
    match broken {
        None => push_words(out, b"whole\n"),
        Some(n) => push_told(out, b"broken", n),
    }
}

// Puts a bundle at the end: its tip, and its bytes as a hex on a line of its own.
fn push_bundle(alloc: Global, out: &mut Vec<u8>, bundle: &Bundle) -> Result<(), NoMemory>
    requires rising { AreRising bundle.now.openings }
    requires count { length bundle.now.openings < 2 ^ 32 }
    requires lengths { All (λ opening. length opening.bytes < 2 ^ 32) bundle.now.openings }
    ensures { OnOk result (out.new.items ≡ out.old.items ++ bundled_text bundle.now) }
{
    let mut bytes = Vec::new(alloc);
    bundle.write(&mut bytes)?;
    push_told(out, b"bundled", bundle.tip)?;
    push_hex(out, &bytes)?;
    out.push(b'\n')?;
    Ok(())
}

/// Asks an archive, and puts its answer at the end.
#[tactic(auto, unfolding(crate::specs::Archiving::answer_to, crate::specs::Archiving::held_behind))]
pub fn answer_ask<H: Hash32>(
    alloc: Global,
    archive: &mut Archive<H>,
    ask: ArchiveAsk,
    out: &mut Vec<u8>,
) -> Result<(), ArchiveRefusal>
    ensures told { OnOk result (IsTold (answer_to (H.digest_of archive.old.hash) (holding_of archive.old) ask)
        out.old.items out.new.items) }
    ensures holds { OnOk result (Holds archive.old.hash archive.new
        (held_behind (H.digest_of archive.old.hash) (holding_of archive.old) ask)) }
    ensures refused { IfErr result (λ why. why ≢ ArchiveRefusal.NoMemory
        → answer_to (H.digest_of archive.old.hash) (holding_of archive.old) ask ≡ Err why) }
{
    match ask {
        ArchiveAsk::Put {
            coin,
            block,
            opening,
        } => {
            let kept = archive.put(
                coin,
                RawOpening {
                    block,
                    bytes: opening,
                },
            )?;
            push_told(out, b"kept", kept)?;
        }
        ArchiveAsk::Tip { coin } => push_told(out, b"tip", archive.tip(coin)?)?,
        ArchiveAsk::Broken { coin } => push_broken(out, archive.broken(coin))?,
        ArchiveAsk::Bundle { coin, tip } => push_bundle(alloc, out, &archive.bundle(coin, tip)?)?,
    }
    Ok(())
}
