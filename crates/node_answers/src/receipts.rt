ghost use Rattle.std.specs.Prelude.{◌≡◌, ◌++◌, [], ◌∷◌, Err, IfOk, codes, option_map};
ghost use Rattle.plasma_base.specs.HexText.{hex_text};
ghost use Rattle.node_replies.specs.Causes.{phrase};
ghost use Rattle.receipt_audit.specs.Desk.{issue_stop};
ghost use Rattle.node_answers.specs.Desks.{issue_cause, stop_at};

use super::said::push_phrase;
use node_journal::Stop;
use node_replies::offer_cause;
use operator_rules::OfferRefusal;
use plasma_base::{Bytes, NoMemory, push_hex};
use receipt_audit::{IssueRefusal, Receipt};
use std::alloc::Global;

/// What stopped an issue that was refused for this, if anything did.
pub fn stop_of(why: &IssueRefusal) -> Option<Stop>
    ensures { result ≡ option_map stop_at (issue_stop (Err why.now)) }
{
    match *why {
        IssueRefusal::Offer {
            why: OfferRefusal::DeviceFault,
        } => Some(Stop::DeviceFault),
        IssueRefusal::Offer {
            why: OfferRefusal::Closed,
        } => Some(Stop::Closed),
        IssueRefusal::DeviceFault => Some(Stop::DeviceFault),
        IssueRefusal::Closed => Some(Stop::Closed),
        IssueRefusal::NoMemory => Some(Stop::NoMemory),
        _ => None,
    }
}

/// The text of what an issue is refused for.
pub fn issue_cause(alloc: Global, why: &IssueRefusal) -> Result<Bytes, NoMemory>
    ensures { IfOk result (λ cause. cause ≡ issue_cause why.now) }
{
    let mut out = Vec::new(alloc);
    match *why {
        IssueRefusal::BadDue { blocks } => push_phrase(&mut out, b"bad-due", &[blocks])?,
        IssueRefusal::OldJournal => out.extend_from_slice(b"old-journal")?,
        IssueRefusal::KeySpent { used } => {
            push_phrase(&mut out, b"key-spent", &[u64::from(used)])?
        }
        IssueRefusal::Offer { why } => return offer_cause(alloc, &why),
        IssueRefusal::DeviceFault => out.extend_from_slice(b"device-fault")?,
        IssueRefusal::Closed => out.extend_from_slice(b"closed")?,
        IssueRefusal::NoMemory => out.extend_from_slice(b"no-memory")?,
    }
    Ok(Bytes::from_vec(out))
}

/// The words of a receipt that was issued by so many blocks: the promise, a line feed, and the receipt as a hex.
pub fn words_of(
    alloc: Global,
    issued: u64,
    due: u64,
    receipt: &Receipt,
) -> Result<Vec<u8>, NoMemory>
    ensures { IfOk result (λ words. words.items
        ≡ (phrase (codes "promised") (issued ∷ due ∷ []) ++ 10 ∷ []) ++ hex_text receipt.now.bytes) }
{
    let mut words = Vec::new(alloc);
    push_phrase(&mut words, b"promised", &[issued, due])?;
    words.push(b'\n')?;
    push_hex(&mut words, receipt.bytes.as_slice())?;
    Ok(words)
}
