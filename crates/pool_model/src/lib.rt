//! The abstract pool: what a connection pool is, said over plain lists, and which lists of entries are histories of
//! one. What is built over a pool is to be proved against it, and a history that some pool left can be judged by it.
//!
//! `first_bad` says that entries are a history, or the first place that keeps them from being one; `state_of` is the
//! state that they leave. Which exchange may use which connection follows the Fetch Standard (connections), RFC 9110,
//! 9112, 9113, 7838 and 8164; limits, ranks and the order of what the pool does by itself are this project's own.
#![tactic(auto)]

mod judge;
mod state;

pub use judge::{first_bad, has_room_for_more, open_pool};
pub use model_histories::PoolPort;
pub use model_settling::Due;
pub use model_values::{
    AbstractPool, Act, AltRow, CancelReply, ChangeReply, Config, ConnTicket, Connection, Entry,
    Exchange, History, HostRow, Look, Order, OrderMark, OrderMarks, Orders, OrdersReply, Origins,
    Outcome, Phase, PreconnectReply, ProtoRow, Report, ResolvedReply, Rows, ScriptCall,
    ScriptCalls, Scripts, Seek, ShutReply, Status, Submission, SubmitReply, TicketKept, Way,
};
pub use state::{go_on, state_of};
