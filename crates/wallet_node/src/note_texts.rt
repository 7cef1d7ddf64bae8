ghost use Rattle.std.specs.Prelude.{◌≡◌, length, IfOk};
ghost use Rattle.node_rules.specs.Kept.{kept_of};
ghost use Rattle.node_rules.specs.WalletRecords.{Note, note_text};
ghost use Rattle.coin_history.specs.Bundles.{IsBundle};

use node_rules::kept_text;
use plasma_base::{Bytes, NoMemory, put_u32, put_u64};
use plasma_tx::Links;
use std::alloc::Global;

// The note of a coin that is taken up.
#[tactic(auto, unfolding(node_rules::specs::WalletRecords::note_text))]
pub fn accepted_note(alloc: Global, links: &Links) -> Result<Bytes, NoMemory>
    requires { IsBundle (kept_of links.now) }
    ensures { IfOk result (λ body. body ≡ note_text (Note.Accepts (kept_of links.now))) }
{
    kept_text(alloc, 2, links)
}

// The note of a coin that is left with.
#[tactic(auto, unfolding(node_rules::specs::WalletRecords::note_text))]
pub fn leaving_note(alloc: Global, coin: u64, tip: u64) -> Result<Bytes, NoMemory>
    ensures text { IfOk result (λ body. body ≡ note_text (Note.LeavesWith coin tip)) }
    ensures long { IfOk result (λ body. length body ≡ 17) }
{
    let mut body = Vec::with_capacity(alloc, 17)?;
    body.push(3)?;
    put_u64(&mut body, coin)?;
    put_u64(&mut body, tip)?;
    Ok(Bytes::from_vec(body))
}

// The note of a transfer that is taken back.
#[tactic(auto, unfolding(node_rules::specs::WalletRecords::note_text))]
pub fn reclaimed_note(alloc: Global, coin: u64, tip: u64, q: u32) -> Result<Bytes, NoMemory>
    ensures text { IfOk result (λ body. body ≡ note_text (Note.Reclaims coin tip q)) }
    ensures long { IfOk result (λ body. length body ≡ 21) }
{
    let mut body = Vec::with_capacity(alloc, 21)?;
    body.push(5)?;
    put_u64(&mut body, coin)?;
    put_u64(&mut body, tip)?;
    put_u32(&mut body, q)?;
    Ok(Bytes::from_vec(body))
}
