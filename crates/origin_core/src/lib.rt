//! Scripted HTTP/1.1 origins in memory (RFC 9112), and the dialer that runs them.
//!
//! What an origin puts for the octets that it received is one relation, `Puts`: the answers to the whole requests that
//! they begin with, in order, up to one that can't be read. A link gives exactly the next octets of that, and a dial
//! fails exactly where no peer is at the target, or where the peer's script refuses the connection.
#![tactic(auto)]

mod inner_dialer;
mod inner_link;
mod scripted_answer;
mod scripted_origin;
mod scripted_request;

pub use inner_dialer::InnerDialer;
pub use inner_link::InnerLink;
pub use scripted_origin::ScriptedOrigin;
pub use scripted_request::Asked;
