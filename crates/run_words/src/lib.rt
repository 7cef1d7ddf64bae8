//! The words of a run: what stands after the program's name is read as one of the forms that a run
//! has. Which words are a form the definition alone says: they are tested by it first. Only words
//! that are one are handed to a command line parser, whose matches make the form.
#![tactic(auto)]

mod form;
mod making;
mod naming;
mod parsing;
mod spelling;
mod tokens;

pub use form::{Form, form_of};
