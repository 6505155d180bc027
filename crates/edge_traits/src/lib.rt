//! The outside of the pool as traits: sources and sinks of octets, links and the dialers that make them, a clock and
//! a gate. A ghost member of a trait says what contracts see of an object: counts of what it answered, which never
//! fall, and what it may tell besides. A failure is answered only where the count of faults rose in that call.
//!
//! Three laws bind every dialer: a retired link's counts and octets become its dialer's; all links of one dialer
//! together give at most `MOST_OCTETS` octets; the log and the records only grow, by `retire` and by `dial`.
//!
//! Beside the traits stand their implementations in memory, which tell all.
#![tactic(auto)]

mod book_links;
mod books;
mod clock;
mod dialer;
mod gate;
mod link;
mod link_step;
mod mem_dialer;
mod mem_sink;
mod mem_source;
mod octet_copy;
mod script_link;
mod script_part;
mod sink;
mod source;
mod steady_sink;
mod steady_source;
mod step_clock;
mod tables;
#[cfg(test)]
mod tests;

pub use book_links::{NO_TALLY, OutLink, Tally};
pub use books::Books;
pub use clock::Clock;
pub use dialer::{Dialed, Dialer, MOST_OCTETS, NetKind};
pub use gate::{Gate, OpenGate, Point};
pub use link::{Link, LinkRead, LinkWrite};
pub use link_step::{CallNos, LinkStep, LinkSteps};
pub use mem_dialer::MemDialer;
pub use mem_sink::MemSink;
pub use mem_source::MemSource;
pub use octet_copy::put_front;
pub use script_link::ScriptLink;
pub use script_part::{ScriptLinks, ScriptPart};
pub use sink::{Sink, SinkWrite};
pub use source::{Source, SourceRead};
pub use steady_sink::SteadySink;
pub use steady_source::SteadySource;
pub use step_clock::StepClock;
pub use tables::{DialAttempt, RetiredLink};
