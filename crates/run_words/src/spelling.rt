ghost use Rattle.std.specs.Prelude.{◌≡◌, is_some, map, string_bytes};
ghost use Rattle.std.specs.Option.{option_and_then};
ghost use Rattle.run_words.specs.Forms.{types_in, form_of, form_named, init_form, init_wallet, wallet_of, init_operator, identity_in, make_form, verify_form, hss_init, hss_sign, hss_verify, hss_form, audit_form};
ghost use Rattle.lms_sign.specs.declared.types.LmsTypes.{LmsTypes};

use super::tokens::{count_word, is_byte_word, is_key_word, is_tag_word, number_word, types_words};

// Whether words are `<tag> <account> <seed>`.
#[tactic(auto, unfolding(crate::specs::Forms::wallet_of))]
fn is_wallet(tag: &str, account: &str, seed: &str) -> bool
    ensures { (types : LmsTypes) → result ≡ is_some (wallet_of tag.now account.now seed.now types) }
{
    is_tag_word(tag) && number_word(account).is_some() && is_tag_word(seed)
}

// Whether words are `<tag> <account> <seed> <lms> <ots>`.
fn is_typed_wallet(tag: &str, account: &str, seed: &str, lms: &str, ots: &str) -> bool
    ensures { result ≡ is_some
        (option_and_then (wallet_of tag.now account.now seed.now) (types_in lms.now ots.now)) }
{
    match types_words(lms, ots) {
        Some(_) => is_wallet(tag, account, seed),
        None => false,
    }
}

// Whether the words after `init wallet` are one of its two forms.
#[tactic(auto, unfolding(crate::specs::Forms::init_wallet))]
fn is_init_wallet(words: &[String]) -> bool
    ensures { result ≡ is_some (init_wallet (map string_bytes words.now)) }
{
    match words {
        [tag, account, seed] => is_wallet(tag.as_str(), account.as_str(), seed.as_str()),
        [tag, account, seed, lms, ots] => is_typed_wallet(
            tag.as_str(),
            account.as_str(),
            seed.as_str(),
            lms.as_str(),
            ots.as_str(),
        ),
        _ => false,
    }
}

// Whether the words after `init operator` are one of its two forms.
#[tactic(auto, unfolding(crate::specs::Forms::init_operator, crate::specs::Forms::operator_of))]
fn is_init_operator(words: &[String]) -> bool
    ensures { result ≡ is_some (init_operator (map string_bytes words.now)) }
{
    match words {
        [tag, account] => is_tag_word(tag.as_str()) && number_word(account.as_str()).is_some(),
        [tag, account, seed] => {
            is_tag_word(seed.as_str())
                && is_tag_word(tag.as_str())
                && number_word(account.as_str()).is_some()
        }
        _ => false,
    }
}

// Whether words are `<tag> <account>`.
#[tactic(auto, unfolding(crate::specs::Forms::identity_in))]
fn is_identity(words: &[String]) -> bool
    ensures { result ≡ is_some (identity_in (map string_bytes words.now)) }
{
    match words {
        [tag, account] => is_tag_word(tag.as_str()) && number_word(account.as_str()).is_some(),
        _ => false,
    }
}

// Whether the words after `init` are one of its forms.
#[tactic(auto, unfolding(crate::specs::Forms::init_form))]
fn is_init(words: &[String]) -> bool
    ensures { result ≡ is_some (init_form (map string_bytes words.now)) }
{
    let [role, rest @ ..] = words else {
        return false;
    };
    match role.as_str() {
        "wallet" => is_init_wallet(rest),
        "operator" => is_init_operator(rest),
        "watcher" => is_identity(rest),
        _ => false,
    }
}

// Whether the words after `make` are `<seed> <count>`.
#[tactic(auto, unfolding(crate::specs::Forms::make_form))]
fn is_make(words: &[String]) -> bool
    ensures { result ≡ is_some (make_form (map string_bytes words.now)) }
{
    match words {
        [seed, count] => {
            number_word(seed.as_str()).is_some() && count_word(count.as_str()).is_some()
        }
        _ => false,
    }
}

// Whether the words after `verify` are `<key> <message> <signature>`.
#[tactic(auto, unfolding(crate::specs::Forms::verify_form))]
fn is_verify(words: &[String]) -> bool
    ensures { result ≡ is_some (verify_form (map string_bytes words.now)) }
{
    match words {
        [key, message, signature] => {
            is_byte_word(key.as_str())
                && is_byte_word(message.as_str())
                && is_byte_word(signature.as_str())
        }
        _ => false,
    }
}

// Whether the words after `hss init` are `<seed>`.
#[tactic(auto, unfolding(crate::specs::Forms::hss_init))]
fn is_hss_init(words: &[String]) -> bool
    ensures { result ≡ is_some (hss_init (map string_bytes words.now)) }
{
    match words {
        [seed] => is_tag_word(seed.as_str()),
        _ => false,
    }
}

// Whether the words after `hss sign` are `<message>`.
#[tactic(auto, unfolding(crate::specs::Forms::hss_sign))]
fn is_hss_sign(words: &[String]) -> bool
    ensures { result ≡ is_some (hss_sign (map string_bytes words.now)) }
{
    match words {
        [message] => is_byte_word(message.as_str()),
        _ => false,
    }
}

// Whether the words after `hss verify` are `<key> <message> <signature>`.
#[tactic(auto, unfolding(crate::specs::Forms::hss_verify, crate::specs::Forms::verify_form))]
fn is_hss_verify(words: &[String]) -> bool
    ensures { result ≡ is_some (hss_verify (map string_bytes words.now)) }
{
    match words {
        [key, message, signature] => {
            is_byte_word(key.as_str())
                && is_byte_word(message.as_str())
                && is_byte_word(signature.as_str())
        }
        _ => false,
    }
}

// Whether the words after `hss` are one of its forms.
#[tactic(auto, unfolding(crate::specs::Forms::hss_form))]
fn is_hss(words: &[String]) -> bool
    ensures { result ≡ is_some (hss_form (map string_bytes words.now)) }
{
    let [verb, rest @ ..] = words else {
        return false;
    };
    match verb.as_str() {
        "init" => is_hss_init(rest),
        "sign" => is_hss_sign(rest),
        "verify" => is_hss_verify(rest),
        _ => false,
    }
}

// Whether the words after `audit` are `<key> <receipt>`.
#[tactic(auto, unfolding(crate::specs::Forms::audit_form))]
fn is_audit(words: &[String]) -> bool
    ensures { result ≡ is_some (audit_form (map string_bytes words.now)) }
{
    match words {
        [key, receipt] => is_key_word(key.as_str()) && is_byte_word(receipt.as_str()),
        _ => false,
    }
}

// Whether the words after this name are a form of it.
#[tactic(auto, unfolding(crate::specs::Forms::form_named, crate::specs::Forms::alone))]
fn is_form_named(name: &str, words: &[String]) -> bool
    ensures { result ≡ is_some (form_named name.now (map string_bytes words.now)) }
{
    match name {
        "replay" | "brief" | "wallet" | "operator" | "watcher" | "archive" => words.is_empty(),
        "init" => is_init(words),
        "make" => is_make(words),
        "verify" => is_verify(words),
        "hss" => is_hss(words),
        "audit" => is_audit(words),
        _ => false,
    }
}

/// Whether the words are a form. It takes no memory.
#[tactic(auto, unfolding(crate::specs::Forms::form_of))]
pub fn is_form(words: &[String]) -> bool
    ensures { result ≡ is_some (form_of (map string_bytes words.now)) }
{
    match words {
        [] => false,
        [name, rest @ ..] => is_form_named(name.as_str(), rest),
    }
}
