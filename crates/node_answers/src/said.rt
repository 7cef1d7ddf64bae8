ghost use Rattle.std.specs.Prelude.{◌≡◌, ◌++◌, ◌∷◌, [], Ok, IfOk, OnOk, OnErr};
ghost use Rattle.std.specs.List.{flat_map};
ghost use Rattle.node_replies.specs.Causes.{phrase};
ghost use Rattle.node_replies.specs.Orders.{Response};
ghost use Rattle.node_replies.specs.Given.{IsGiven};
ghost use Rattle.node_sessions.specs.declared.said.Said.{Said};
ghost use Rattle.node_answers.specs.Answers.{made_text, offer_text, given_text, said, IsSaid};

use line_forms::push_number;
use node_replies::{Given, Reply, print_reply};
use node_sessions::Said;
use plasma_base::{Bytes, NoMemory, push_hex};
use plasma_tx::RootCall;
use root_log::print_call;
use std::alloc::Global;

/// Puts words, and numbers after them, at the end.
pub fn push_phrase(out: &mut Vec<u8>, words: &[u8], numbers: &[u64]) -> Result<(), NoMemory>
    ensures { OnOk result (out.new.items ≡ out.old.items ++ phrase words.now numbers.now) }
{
    out.extend_from_slice(words)?;
    for number in numbers.iter() {
        out.push(b' ')?;
        push_number(out, *number)?;
    }
    Ok(())
}

/// A refusal for this cause.
pub fn refused(alloc: Global, words: &[u8]) -> Result<Said, NoMemory>
    ensures { IfOk result (λ said. said ≡ Said.Refused words.now) }
{
    let mut cause = Vec::new(alloc);
    cause.extend_from_slice(words)?;
    Ok(Said::Refused {
        cause: Bytes::from_vec(cause),
    })
}

// Puts the bytes that a command makes at the end, as a hex on a line of its own.
fn push_made(out: &mut Vec<u8>, made: &[u8]) -> Result<(), NoMemory>
    ensures { OnOk result (out.new.items ≡ out.old.items ++ made_text made.now) }
{
    if made.is_empty() {
        return Ok(());
    }
    push_hex(out, made)?;
    out.push(b'\n')?;
    Ok(())
}

// Puts offered calls at the end, each as a line of a log.
fn push_offers(out: &mut Vec<u8>, offers: &[RootCall]) -> Result<(), NoMemory>
    ensures { OnOk result (out.new.items ≡ out.old.items ++ flat_map offer_text offers.now) }
{
    for call in offers.iter() {
        print_call(call, out)?;
        out.push(b'\n')?;
    }
    Ok(())
}

// Puts an answer, which is no refusal, at the end.
#[tactic(auto, unfolding(crate::specs::Answers::given_text))]
fn push_given(
    out: &mut Vec<u8>,
    reply: &Reply,
    made: &[u8],
    offers: &[RootCall],
) -> Result<(), NoMemory>
    ensures { (response : Response)
        → reply.now ≡ response.reply → made.now ≡ response.made → offers.now ≡ response.offers
        → OnOk result (out.new.items ≡ out.old.items ++ given_text response) }
{
    print_reply(reply, out)?;
    out.push(b'\n')?;
    push_made(out, made)?;
    push_offers(out, offers)
}

/// Puts what a command gave out at the end, unless it was refused. Where memory runs out the text stays.
pub fn put_given(alloc: Global, given: Given, text: &mut Vec<u8>) -> Result<Said, NoMemory>
    ensures said { (response : Response) → IsGiven response given
        → IfOk result (λ told. IsSaid (said response) told text.old.items text.new.items) }
    ensures untold { OnErr result (text.new.items ≡ text.old.items) }
{
    let Given {
        reply,
        made,
        offers,
    } = given;
    match reply {
        Reply::Refused { cause } => Ok(Said::Refused { cause }),
        reply => {
            let mut out = Vec::new(alloc);
            push_given(&mut out, &reply, made.as_slice(), &offers)?;
            text.extend_from_slice(&out)?;
            Ok(Said::Answered)
        }
    }
}

/// Puts words that tell of a node at the end, as a line.
pub fn put_words(words: Vec<u8>, text: &mut Vec<u8>) -> Result<Said, NoMemory>
    ensures said { IfOk result
        (λ said. IsSaid (Ok (words.items ++ 10 ∷ [])) said text.old.items text.new.items) }
    ensures untold { OnErr result (text.new.items ≡ text.old.items) }
{
    let mut words = words;
    words.push(b'\n')?;
    text.extend_from_slice(&words)?;
    Ok(Said::Answered)
}
