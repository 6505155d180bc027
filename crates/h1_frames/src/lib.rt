//! The frames of HTTP/1.1 on a connection (RFC 9112): how the head of a response is found and read, and how a request
//! is written.
//!
//! `head_unit` finds the lines that make a head, `read_head` answers what they say as soon as they are there and never
//! before, and refuses a head that takes more than 65536 octets. The head that `write_request` writes reads back, by the
//! grammar of httparse, as the request that was given, where each part of it is what its place allows; behind that head
//! stands the body.
#![tactic(auto)]

mod head;
mod request;
#[cfg(test)]
mod tests;
mod unit;

pub use head::{Head, HeadRead, fields_from, read_head};
pub use request::write_request;
pub use unit::head_unit;
