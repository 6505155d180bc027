//! What a pool does by itself after a call: which exchange expires, lapses, gets a connection or has one opened, and which
//! idle connection makes room. `specs/Settling` says it by facts, `specs/Due` computes it, and `proofs/DueLemmas` has that
//! the two are one. `next_due` takes no memory, and asks that there are at most `MOST_JUDGED` connections. Limits, ranks and the
//! order of the kinds are this project's own.
#![tactic(auto)]

mod counts;
mod kinds;
mod room;
mod seek;
mod settle;
mod settling;

pub use counts::{count_in_group, count_total};
pub use kinds::Due;
pub use room::planned;
pub use settle::{due_act, is_act, is_settled, next_due};
