ghost use Rattle.std.specs.Prelude.{◌≡◌, length, IfOk};
ghost use Rattle.node_rules.specs.Kept.{kept_of};
ghost use Rattle.node_rules.specs.Watcher.{Note, note_text};
ghost use Rattle.coin_history.specs.Bundles.{IsBundle};

use node_rules::kept_text;
use plasma_base::{Bytes, NoMemory, put_u64};
use plasma_tx::Links;
use std::alloc::Global;

// The note of a coin that is guarded.
#[tactic(auto, unfolding(node_rules::specs::Watcher::note_text))]
pub fn guarded_note(alloc: Global, links: &Links) -> Result<Bytes, NoMemory>
    requires { IsBundle (kept_of links.now) }
    ensures { IfOk result (λ body. body ≡ note_text (Note.Guarded (kept_of links.now))) }
{
    kept_text(alloc, 18, links)
}

// The note of a guard that is let go.
#[tactic(auto, unfolding(node_rules::specs::Watcher::note_text))]
pub fn released_note(alloc: Global, coin: u64, tip: u64) -> Result<Bytes, NoMemory>
    ensures text { IfOk result (λ body. body ≡ note_text (Note.Released coin tip)) }
    ensures long { IfOk result (λ body. length body ≡ 17) }
{
    let mut body = Vec::with_capacity(alloc, 17)?;
    body.push(19)?;
    put_u64(&mut body, coin)?;
    put_u64(&mut body, tip)?;
    Ok(Bytes::from_vec(body))
}
