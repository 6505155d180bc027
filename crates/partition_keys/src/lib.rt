//! The keys by which a pool keeps sites apart: a site, a partition key (Fetch Standard, network partition keys), the
//! group of connections that exchanges of one key, one origin and one target with equal credentials share, and the
//! alternative services of an origin (RFC 7838).
//!
//! `read_site` and `write_site` are one the other's inverse: each site has one text. `is_fresh` says when an alternative
//! may be used.
#![tactic(auto)]

mod alternative;
mod group;
mod key;
mod site;

pub use alternative::{AltUpdate, Alternative, Alternatives, Proof, Why, is_fresh};
pub use group::{AltKey, CoalesceKey, GroupKey};
pub use key::PartitionKey;
pub use site::{Site, SiteFault, read_site, write_site};

#[cfg(test)]
mod tests;
