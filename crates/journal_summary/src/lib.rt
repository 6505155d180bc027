//! The summary of a list of entries: how many submissions were accepted, how their exchanges ended, how often these moved,
//! how many connections were made, and how many entries there are, a line for each.
//!
//! `write_summary` writes just the text that the definition gives of a list of entries, by the state that they leave of the
//! abstract pool. The format is this project's own.
#![tactic(auto)]

mod counts;
mod summary;

pub use summary::write_summary;
