//! The values that all crates of the pool share: octets and lists, numbers, origins and targets, identities,
//! requests and responses, and the book of scripted peers. Each can be copied whole, and contracts see lists as lists.
//!
//! `Request::build` reads a URL by the URL Standard into a request of RFC 9110, and `authority` writes the host and
//! the port of an origin as RFC 9110, sections 4.2.3 and 7.2, have it in a `Host` field. `Identity::build` takes names and
//! wildcards (RFC 9525), and `dressed` adds the field of RFC 7838 by which a request says that it goes to an alternative
//! service.
#![tactic(auto)]

mod dressing;
mod end_cause;
mod field;
mod host;
mod identity;
mod method;
mod numbers;
mod origin;
mod peer;
mod request;
mod response;
mod target;

pub use dressing::dressed;
pub use end_cause::EndCause;
pub use field::{Field, Fields};
pub use host::is_plain_host;
pub use identity::{Addresses, Identity, IdentityFault, MOST_NAMES, Names, is_name};
pub use method::is_idempotent;
pub use numbers::{CallerNo, ConnNo, ExchangeNo, Moment, StreamList, StreamNo, number_in};
pub use origin::{Origin, Scheme, authority};
pub use peer::{ActKind, Answer, AnswerBody, Answers, Peer, PeerAct, PeerActs, PeerBook};
pub use plain_values::{Listed, NoMem, Octets, PlainValue};
pub use request::{BuildFault, MOST_FIELDS, Request, is_field, is_token_text};
pub use response::Response;
pub use target::{Proto, Target, Via};

#[cfg(test)]
mod tests;
