//! The state that an entry of a pool's history leaves: what a call, a worker's entry and what the pool does by itself change
//! of exchanges, connections, alternatives and addresses. `specs/After` has the definition, with a file for each thing that a
//! worker reports (an answer, a GOAWAY, the end of a stream or of the connection), and `after_act` computes it.
#![tactic(auto)]

mod after;
mod answered;
mod calls;
mod exchanges;
mod goaway;
mod lost;
mod opened;
mod pools_entries;
mod stream_ends;
mod workers_entries;

pub use after::after_act;
pub use calls::{group_parts_for, note};
