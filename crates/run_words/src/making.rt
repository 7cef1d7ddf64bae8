ghost use Rattle.std.specs.Prelude.{◌≡◌, Some, None, Err, IfOk};
ghost use Rattle.run_words.specs.Words.{texts};
ghost use Rattle.run_words.specs.Forms.{wallet_of, init_wallet, identity_in, operator_of, init_operator, init_watcher, make_form, verify_form, hss_init, hss_sign, hss_verify, audit_form};

use super::form::Form;
use super::tokens::{byte_word, count_word, key_word, number_word, tag_word, types_words};
use line_forms::LineRefusal;
use lms_sign::LmsTypes;
use std::alloc::Global;

// The types of a wallet's key where the words name none.
const FIRST_TYPES: LmsTypes = LmsTypes { lms: 5, ots: 4 };

// `<tag> <account> <seed>`, with these types.
#[tactic(auto, unfolding(crate::specs::Forms::wallet_of))]
fn wallet_of(
    alloc: Global,
    tag: &str,
    account: &str,
    seed: &str,
    types: LmsTypes,
) -> Result<Form, LineRefusal>
    ensures found { IfOk result (λ value. wallet_of tag.now account.now seed.now types ≡ Some value) }
    ensures bad { result ≡ Err LineRefusal.BadLine → wallet_of tag.now account.now seed.now types ≡ None }
{
    Ok(Form::InitWallet {
        tag: tag_word(alloc, tag)?,
        account: number_word(account).ok_or(LineRefusal::BadLine)?,
        seed: tag_word(alloc, seed)?,
        types,
    })
}

/// `init wallet`, after its name: `<tag> <account> <seed>`, and then `<lms> <ots>` or nothing.
#[tactic(auto, unfolding(crate::specs::Forms::init_wallet))]
pub fn init_wallet(alloc: Global, words: &[&str]) -> Result<Form, LineRefusal>
    ensures found { IfOk result (λ value. init_wallet (texts words.now) ≡ Some value) }
    ensures bad { result ≡ Err LineRefusal.BadLine → init_wallet (texts words.now) ≡ None }
{
    match words {
        [tag, account, seed] => wallet_of(alloc, tag, account, seed, FIRST_TYPES),
        [tag, account, seed, lms, ots] => {
            let types = types_words(lms, ots).ok_or(LineRefusal::BadLine)?;
            wallet_of(alloc, tag, account, seed, types)
        }
        _ => Err(LineRefusal::BadLine),
    }
}

// `<tag> <account>`.
#[tactic(auto, unfolding(crate::specs::Forms::identity_in))]
fn identity_in(alloc: Global, words: &[&str]) -> Result<([u8; 32], u64), LineRefusal>
    ensures found { IfOk result (λ value. identity_in (texts words.now) ≡ Some value) }
    ensures bad { result ≡ Err LineRefusal.BadLine → identity_in (texts words.now) ≡ None }
{
    let [tag, account] = words else {
        return Err(LineRefusal::BadLine);
    };
    Ok((
        tag_word(alloc, tag)?,
        number_word(account).ok_or(LineRefusal::BadLine)?,
    ))
}

// `<tag> <account>`, with this seed of a key or none.
#[tactic(auto, unfolding(crate::specs::Forms::operator_of))]
fn operator_of(
    alloc: Global,
    tag: &str,
    account: &str,
    key_seed: Option<[u8; 32]>,
) -> Result<Form, LineRefusal>
    ensures found { IfOk result (λ value. operator_of tag.now account.now key_seed ≡ Some value) }
    ensures bad { result ≡ Err LineRefusal.BadLine → operator_of tag.now account.now key_seed ≡ None }
{
    Ok(Form::InitOperator {
        tag: tag_word(alloc, tag)?,
        account: number_word(account).ok_or(LineRefusal::BadLine)?,
        key_seed,
    })
}

/// `init operator`, after its name: `<tag> <account>`, and then `<seed>` or nothing.
#[tactic(auto, unfolding(crate::specs::Forms::init_operator))]
pub fn init_operator(alloc: Global, words: &[&str]) -> Result<Form, LineRefusal>
    ensures found { IfOk result (λ value. init_operator (texts words.now) ≡ Some value) }
    ensures bad { result ≡ Err LineRefusal.BadLine → init_operator (texts words.now) ≡ None }
{
    match words {
        [tag, account] => operator_of(alloc, tag, account, None),
        [tag, account, seed] => {
            let seed = tag_word(alloc, seed)?;
            operator_of(alloc, tag, account, Some(seed))
        }
        _ => Err(LineRefusal::BadLine),
    }
}

/// `init watcher`, after its name: `<tag> <account>`.
pub fn init_watcher(alloc: Global, words: &[&str]) -> Result<Form, LineRefusal>
    ensures found { IfOk result (λ value. init_watcher (texts words.now) ≡ Some value) }
    ensures bad { result ≡ Err LineRefusal.BadLine → init_watcher (texts words.now) ≡ None }
{
    let (tag, account) = identity_in(alloc, words)?;
    Ok(Form::InitWatcher { tag, account })
}

/// `make`, after its name: `<seed> <count>`.
#[tactic(auto, unfolding(crate::specs::Forms::make_form))]
pub fn make_form(words: &[&str]) -> Result<Form, LineRefusal>
    ensures found { IfOk result (λ value. make_form (texts words.now) ≡ Some value) }
    ensures bad { result ≡ Err LineRefusal.BadLine → make_form (texts words.now) ≡ None }
{
    let [seed, count] = words else {
        return Err(LineRefusal::BadLine);
    };
    Ok(Form::Make {
        seed: number_word(seed).ok_or(LineRefusal::BadLine)?,
        count: count_word(count).ok_or(LineRefusal::BadLine)?,
    })
}

/// `verify`, after its name: `<key> <message> <signature>`.
#[tactic(auto, unfolding(crate::specs::Forms::verify_form))]
pub fn verify_form(alloc: Global, words: &[&str]) -> Result<Form, LineRefusal>
    ensures found { IfOk result (λ value. verify_form (texts words.now) ≡ Some value) }
    ensures bad { result ≡ Err LineRefusal.BadLine → verify_form (texts words.now) ≡ None }
{
    let [key, message, signature] = words else {
        return Err(LineRefusal::BadLine);
    };
    Ok(Form::Verify {
        key: byte_word(alloc, key)?,
        message: byte_word(alloc, message)?,
        signature: byte_word(alloc, signature)?,
    })
}

/// `hss init`, after its names: `<seed>`.
#[tactic(auto, unfolding(crate::specs::Forms::hss_init))]
pub fn hss_init(alloc: Global, words: &[&str]) -> Result<Form, LineRefusal>
    ensures found { IfOk result (λ value. hss_init (texts words.now) ≡ Some value) }
    ensures bad { result ≡ Err LineRefusal.BadLine → hss_init (texts words.now) ≡ None }
{
    let [seed] = words else {
        return Err(LineRefusal::BadLine);
    };
    Ok(Form::HssInit {
        seed: tag_word(alloc, seed)?,
    })
}

/// `hss sign`, after its names: `<message>`.
#[tactic(auto, unfolding(crate::specs::Forms::hss_sign))]
pub fn hss_sign(alloc: Global, words: &[&str]) -> Result<Form, LineRefusal>
    ensures found { IfOk result (λ value. hss_sign (texts words.now) ≡ Some value) }
    ensures bad { result ≡ Err LineRefusal.BadLine → hss_sign (texts words.now) ≡ None }
{
    let [message] = words else {
        return Err(LineRefusal::BadLine);
    };
    Ok(Form::HssSign {
        message: byte_word(alloc, message)?,
    })
}

/// `hss verify`, after its names: `<key> <message> <signature>`.
#[tactic(auto, unfolding(crate::specs::Forms::hss_verify))]
pub fn hss_verify(alloc: Global, words: &[&str]) -> Result<Form, LineRefusal>
    ensures found { IfOk result (λ value. hss_verify (texts words.now) ≡ Some value) }
    ensures bad { result ≡ Err LineRefusal.BadLine → hss_verify (texts words.now) ≡ None }
{
    let [key, message, signature] = words else {
        return Err(LineRefusal::BadLine);
    };
    Ok(Form::HssVerify {
        key: byte_word(alloc, key)?,
        message: byte_word(alloc, message)?,
        signature: byte_word(alloc, signature)?,
    })
}

/// `audit`, after its name: `<key> <receipt>`.
#[tactic(auto, unfolding(crate::specs::Forms::audit_form))]
pub fn audit_form(alloc: Global, words: &[&str]) -> Result<Form, LineRefusal>
    ensures found { IfOk result (λ value. audit_form (texts words.now) ≡ Some value) }
    ensures bad { result ≡ Err LineRefusal.BadLine → audit_form (texts words.now) ≡ None }
{
    let [key, receipt] = words else {
        return Err(LineRefusal::BadLine);
    };
    Ok(Form::Audit {
        key: key_word(alloc, key)?,
        receipt: byte_word(alloc, receipt)?,
    })
}
