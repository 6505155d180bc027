//! Which hosts a connection's other side is the authority for, by the names that it has shown.
//!
//! `covers` compares a host with an identity's names as RFC 9110, section 4.3.4, asks of an `https` client, by the rules of
//! RFC 9525, section 6.3. It takes no memory.
#![tactic(auto)]

mod cover;

pub use cover::covers;

#[cfg(test)]
mod tests;
