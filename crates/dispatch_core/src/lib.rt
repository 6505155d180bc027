//! A connection pool over flat lists. Each of its twelve calls leaves its entry in the history, and what the pool does by itself
//! behind it, up to where nothing is left to do; so the history stays one of the abstract pool, and each reply is the abstract
//! pool's. `DirectPort` is a pool as one caller uses it. What a pool does follows the Fetch Standard (connections), RFC 9110,
//! 9112, 9113, 7838 and 8164 by the definitions of the abstract pool.
#![tactic(auto)]

mod allowed;
mod answers;
mod calls;
mod follow;
mod orders;
mod pool;
mod port;
mod ranges;
mod settle;
mod worker_calls;

pub use pool::Pool;
pub use port::DirectPort;
pub use ranges::are_within_ranges;

#[cfg(test)]
mod tests;
