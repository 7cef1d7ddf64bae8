ghost use Rattle.std.specs.Prelude.{◌≡◌, ◌++◌, codes, length, take, OnOk, OnErr};
ghost use Rattle.node_replies.specs.Texts.{kind_text, offers_text, reply_text};

use super::reply::{OfferKind, Reply};
use super::words::{push_phrase, push_words, whole};
use plasma_base::NoMemory;

fn push_kind(out: &mut Vec<u8>, kind: OfferKind) -> Result<(), NoMemory>
    ensures ok { OnOk result (out.new.items ≡ out.old.items ++ kind_text kind) }
    ensures front { take (length out.old.items) out.new.items ≡ out.old.items }
{
    match kind {
        OfferKind::After => push_words(out, b"after"),
        OfferKind::Between => push_words(out, b"between"),
        OfferKind::Before => push_words(out, b"before"),
        OfferKind::Respond => push_words(out, b"respond"),
    }
}

#[tactic(auto, using(line_forms::proofs::PrintLaws::fronts))]
fn push_offers(out: &mut Vec<u8>, kinds: &[OfferKind]) -> Result<(), NoMemory>
    ensures ok { OnOk result (out.new.items ≡ out.old.items ++ offers_text kinds.now) }
    ensures front { take (length out.old.items) out.new.items ≡ out.old.items }
{
    push_phrase(out, b"offers", &[kinds.len() as u64])?;
    for kind in kinds {
        out.push(b' ')?;
        push_kind(out, *kind)?;
    }
    Ok(())
}

#[tactic(auto, using(line_forms::proofs::PrintLaws::fronts))]
fn push_refused(out: &mut Vec<u8>, cause: &[u8]) -> Result<(), NoMemory>
    ensures ok { OnOk result (out.new.items ≡ out.old.items ++ codes "refused " ++ cause.now) }
    ensures front { take (length out.old.items) out.new.items ≡ out.old.items }
{
    push_words(out, b"refused ")?;
    push_words(out, cause)
}

/// Puts an answer at the end. Where memory runs out some of it may stand there.
#[tactic(auto, unfolding(crate::specs::Texts::reply_text))]
pub fn push_reply(out: &mut Vec<u8>, reply: &Reply) -> Result<(), NoMemory>
    ensures ok { OnOk result (out.new.items ≡ out.old.items ++ reply_text reply.now) }
    ensures front { take (length out.old.items) out.new.items ≡ out.old.items }
{
    match reply {
        Reply::Chain => push_words(out, b"chain"),
        Reply::Wallet => push_words(out, b"wallet"),
        Reply::Watcher => push_words(out, b"watcher"),
        Reply::Rogue => push_words(out, b"rogue"),
        Reply::Funded => push_words(out, b"funded"),
        Reply::Ticked => push_words(out, b"ticked"),
        Reply::Deposited { coin, block } => push_phrase(out, b"deposited", &[*coin, *block]),
        Reply::Committed { block } => push_phrase(out, b"committed", &[*block]),
        Reply::Started { opens } => push_phrase(out, b"started", &[*opens]),
        Reply::Cancelled => push_words(out, b"cancelled"),
        Reply::Challenged { until } => push_phrase(out, b"challenged", &[*until]),
        Reply::Responded => push_words(out, b"responded"),
        Reply::Paid => push_words(out, b"paid"),
        Reply::Dropped => push_words(out, b"dropped"),
        Reply::Money { balance } => push_phrase(out, b"money", &[*balance]),
        Reply::Nothing => push_words(out, b"nothing"),
        Reply::Accepted { coin, tip } => push_phrase(out, b"accepted", &[*coin, *tip]),
        Reply::Guarded { coin, tip } => push_phrase(out, b"guarded", &[*coin, *tip]),
        Reply::Sent { leaf } => push_phrase(out, b"sent", &[u64::from(*leaf)]),
        Reply::Leaving { tip } => push_phrase(out, b"leaving", &[*tip]),
        Reply::Released => push_words(out, b"released"),
        Reply::Reclaimed { coin, leaf } => push_phrase(
            out,
            b"reclaimed",
            &[*coin, u64::from(*leaf)],
        ),
        Reply::Migrated => push_words(out, b"migrated"),
        Reply::Pooled { coin } => push_phrase(out, b"pooled", &[*coin]),
        Reply::Laid { coin } => push_phrase(out, b"laid", &[*coin]),
        Reply::Sealed { leaves } => push_phrase(out, b"sealed", &[*leaves]),
        Reply::Bundled { tip } => push_phrase(out, b"bundled", &[*tip]),
        Reply::Proved => push_words(out, b"proved"),
        Reply::Signed => push_words(out, b"signed"),
        Reply::Crashed => push_words(out, b"crashed"),
        Reply::Stopped => push_words(out, b"stopped"),
        Reply::Opened { notes, leaves } => push_phrase(out, b"opened", &[*notes, *leaves]),
        Reply::Up => push_words(out, b"up"),
        Reply::Down => push_words(out, b"down"),
        Reply::Offers { kinds } => push_offers(out, kinds.as_slice()),
        Reply::Refused { cause } => push_refused(out, cause.as_slice()),
    }
}

/// Puts an answer at the end, as a trace line has it behind its number, without a line feed. Where memory runs out
/// nothing changes.
pub fn print_reply(reply: &Reply, out: &mut Vec<u8>) -> Result<(), NoMemory>
    ensures ok { OnOk result (out.new.items ≡ out.old.items ++ reply_text reply.now) }
    ensures err { OnErr result (out.new.items ≡ out.old.items) }
{
    let before = out.len();
    let put = push_reply(out, reply);
    whole(out, before, put)
}
