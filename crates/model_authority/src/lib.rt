//! Which target an exchange has, and which connection it may use by which right: directly, over an alternative service
//! (RFC 7838), or coalesced (RFC 9113, section 9.1.1), and never across partitions or credentials (Fetch Standard,
//! connections). `specs/` has the definitions, and each function computes one of them. None takes memory but what copies.
#![tactic(auto)]

mod keys;
mod lists;
mod statuses;
mod way_laws;
mod ways;

pub use keys::{
    GroupParts, build_group, parts_of_group, parts_of_target, same_group, same_octets, same_proto,
    same_target,
};
pub use lists::{is_nil, numbered, numbered_mut};
pub use statuses::{
    has_ended, is_at, is_busy, is_closing, is_dialing, is_draining, is_gone, is_h2, is_leased,
    is_on, is_open, is_opening, is_unsent_at, is_waiting, is_wanted, speaks_h2,
};
pub use way_laws::way_is_first;
pub use ways::{
    alternative_parts, alternatives, group_parts, has_target, is_host_row_of, is_https, is_row_of,
    is_usable, secured_for, target, target_parts_for, way,
};
