//! What a reader may conclude from the definitions of the abstract pool: laws that hold of every history, or of every state.
//! Each stands in `specs/` in the subject's own words, and is the contract of one function here, which computes nothing.
//! `specs/Sound` has what holds of every state that a history goes through. Partitions follow the Fetch Standard
//! (connections), authority RFC 9110, moves RFC 9110, 9112, 9113 and 7838, alternatives RFC 7838 and 8164, what a peer allows
//! and HTTP/1.1's one exchange at a time RFC 9113 and 9112; the pool's own limits, ranks and the order of settling are this
//! project's own.
#![tactic(auto)]

pub mod assigns;
pub mod dials;
pub mod ends;
pub mod leases;
pub mod limits;
pub mod longer;
pub mod moves;
pub mod overs;
pub mod places;
pub mod ports;
pub mod settling;
pub mod sound;
pub mod starts;
pub mod texts;
pub mod workers;
