//! Pairs of a scenario and a journal, judged: whether the journal is that of a history of a pool with the scenario's limits.
//!
//! `replay` says how many entries such a history has, or which line of the journal is the first that keeps it from being
//! one, or why the octets are no pair. A line that is exactly `--` stands between the two; the form is this project's own.
#![tactic(auto)]

mod judge;
mod pairs;
mod verdict;

pub use judge::replay;
pub use verdict::{ReplayFault, Verdict};

#[cfg(test)]
mod tests;
