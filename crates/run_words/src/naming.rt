ghost use Rattle.std.specs.Prelude.{◌≡◌, Some, None, Err, IfOk};
ghost use Rattle.run_words.specs.Words.{texts};
ghost use Rattle.run_words.specs.Forms.{form_named, alone, init_form, hss_form};

use super::form::Form;
use super::making::{
    audit_form, hss_init, hss_sign, hss_verify, init_operator, init_wallet, init_watcher,
    make_form, verify_form,
};
use line_forms::LineRefusal;
use plasma_base::NoMemory;
use std::alloc::Global;

// The form that its name alone spells: no other word may follow.
#[tactic(auto, unfolding(crate::specs::Forms::alone))]
fn alone(form: Form, words: &[&str]) -> Result<Form, LineRefusal>
    ensures found { IfOk result (λ value. alone form (texts words.now) ≡ Some value) }
    ensures bad { result ≡ Err LineRefusal.BadLine → alone form (texts words.now) ≡ None }
{
    if words.is_empty() {
        Ok(form)
    } else {
        Err(LineRefusal::BadLine)
    }
}

// The form of `init` that the words after this name spell.
#[tactic(auto, unfolding(crate::specs::Forms::init_form))]
fn init_form(alloc: Global, words: &[&str]) -> Result<Form, LineRefusal>
    ensures found { IfOk result (λ value. init_form (texts words.now) ≡ Some value) }
    ensures bad { result ≡ Err LineRefusal.BadLine → init_form (texts words.now) ≡ None }
{
    let [role, rest @ ..] = words else {
        return Err(LineRefusal::BadLine);
    };
    match *role {
        "wallet" => init_wallet(alloc, rest),
        "operator" => init_operator(alloc, rest),
        "watcher" => init_watcher(alloc, rest),
        _ => Err(LineRefusal::BadLine),
    }
}

// The form of `hss` that the words after this name spell.
#[tactic(auto, unfolding(crate::specs::Forms::hss_form))]
fn hss_form(alloc: Global, words: &[&str]) -> Result<Form, LineRefusal>
    ensures found { IfOk result (λ value. hss_form (texts words.now) ≡ Some value) }
    ensures bad { result ≡ Err LineRefusal.BadLine → hss_form (texts words.now) ≡ None }
{
    let [verb, rest @ ..] = words else {
        return Err(LineRefusal::BadLine);
    };
    match *verb {
        "init" => hss_init(alloc, rest),
        "sign" => hss_sign(alloc, rest),
        "verify" => hss_verify(alloc, rest),
        _ => Err(LineRefusal::BadLine),
    }
}

// The form with this name that the words after it spell. It refuses `BadLine` exactly where they spell
// none.
#[tactic(auto, unfolding(crate::specs::Forms::form_named))]
fn read_named(alloc: Global, name: &str, words: &[&str]) -> Result<Form, LineRefusal>
    ensures found { IfOk result (λ value. form_named name.now (texts words.now) ≡ Some value) }
    ensures bad { result ≡ Err LineRefusal.BadLine → form_named name.now (texts words.now) ≡ None }
{
    match name {
        "replay" => alone(Form::Replay, words),
        "brief" => alone(Form::Brief, words),
        "wallet" => alone(Form::Wallet, words),
        "operator" => alone(Form::Operator, words),
        "watcher" => alone(Form::Watcher, words),
        "init" => init_form(alloc, words),
        "make" => make_form(words),
        "verify" => verify_form(alloc, words),
        "hss" => hss_form(alloc, words),
        "audit" => audit_form(alloc, words),
        "archive" => alone(Form::Archive, words),
        _ => Err(LineRefusal::BadLine),
    }
}

/// The form with this name that the words after it spell; `None` where they spell none.
pub fn form_named(alloc: Global, name: &str, words: &[&str]) -> Result<Option<Form>, NoMemory>
    ensures { IfOk result (λ form. form ≡ form_named name.now (texts words.now)) }
{
    match read_named(alloc, name, words) {
        Ok(form) => Ok(Some(form)),
        Err(LineRefusal::BadLine) => Ok(None),
        Err(LineRefusal::NoMemory) => Err(NoMemory),
    }
}
