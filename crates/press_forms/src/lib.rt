//! Commands as forms, as a client sends them.
#![tactic(auto)]

mod form;

pub use form::{form_of, word};
