//! The small form of a scenario: one scripted peer with one answer, and one channel that submits one GET by http.
//!
//! `read_form` gives it of JSON (RFC 8259), or says that the octets are no JSON or not of the form. A member that the form
//! doesn't have, one that only spells out a default too, makes it another scenario.
#![tactic(auto)]

mod form;

pub use form::{FormFault, MOST_BODY, SmallForm, read_form};

#[cfg(test)]
mod tests;
