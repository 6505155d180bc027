//! Which entries may stand at a state of the abstract pool, which lists of entries are histories, which answers leave no
//! entry, and what is read off a history. `PoolPort` is a pool as one caller uses it, and `laws` has what holds in each
//! history. `specs/` has the definitions.
#![tactic(auto)]

mod laws;
mod legal;
mod orders;
mod port;
mod replies;
mod reply_laws;

pub use laws::{
    ends_as_state_says, holds_as_state_says, reports_as_state_says, wanted_are_untouched,
    works_as_state_says,
};
pub use legal::{is_late, may_end, may_tell, may_work, next_dial, noted};
pub use orders::orders_by;
pub use port::PoolPort;
pub use replies::{
    cancel_reply, change_reply, is_bad_probe, own_exchange, preconnect_reply, resolved_reply,
    shut_reply, submit_reply,
};
pub use reply_laws::replies_are_computed;
