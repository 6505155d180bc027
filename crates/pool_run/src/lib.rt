//! The top calls of the pool. `desk_main` runs a command on one thread over any source, sink and dialers, and its
//! contract says of every status what it shows, and of 2 when it comes.
//!
//! The command `serial` reads a scenario, runs its exchange by turns over one connection (RFC 9112) and writes the
//! journal of what happened and a summary. On status 0 the journal is that of the octets that went over the connection.
//! The command `check` reads a scenario, runs nothing, and writes how many channels, calls and peers it has. What is no
//! scenario both refuse by the first fault of the walk through it. The command `replay` reads a scenario and a journal, and
//! says whether the journal is that of a history, or which line keeps it from being one.
#![tactic(auto)]

mod check;
mod conversation;
mod desk;
mod ending;
mod first_answer;
mod journal;
mod replay;
mod report;
mod serial;
mod streams;

pub use desk::{Finish, desk_main};
pub use origin_core::InnerDialer;

#[cfg(test)]
mod tests;
