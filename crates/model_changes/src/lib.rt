//! What becomes of one connection, and of the alternatives of origins (RFC 7838), by an entry of a pool's history. `specs/`
//! has the definitions, and each function is proved to compute one of them.
#![tactic(auto)]

mod alternatives;
mod connections;
mod identity;

pub use alternatives::{
    Mark, broken_alternatives, dropped_alternatives, persistent_alternatives, proven_alternatives,
    updated_alternatives,
};
pub use connections::{
    after_answer, after_large_answer, after_opened, closing, dialing_by, excluding, going_away,
    gone, is_start_of, new_connection, shut_all, with_limit, with_sent, with_start, with_taken,
    without_exchange, without_start, without_stream,
};
pub use identity::suits;
