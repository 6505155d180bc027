//! Scenarios, read from JSON (RFC 8259): the net, the limits of the pool, scripted peers, and what each channel does.
//!
//! `read_scenario` gives the scenario that a text is, or the first fault of the walk through it with its path (RFC 6901).
//! `specs/` says the walk member by member, as tables. JSON has at most 127 arrays and objects within each other, only
//! numbers whose nearest 64-bit float is finite, and no escape of a lone surrogate; of two members of one name the last
//! counts.
#![tactic(auto)]

mod acts;
mod answers;
mod calls;
mod limits;
mod peers;
mod scenario;
mod submissions;

pub use limits::DEFAULT_CONFIG;
pub use scenario::{Scenario, read_scenario};
pub use scenario_walk::ScenarioFault;

#[cfg(test)]
mod tests;
