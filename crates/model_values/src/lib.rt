//! The values that a pool's history is made of: submissions, outcomes, orders, reports, replies and entries; and the flat
//! state of the abstract pool. Each can be copied whole and compared, and contracts see lists as lists. The ticket by which
//! a worker holds its connection can't be copied or dropped.
#![tactic(auto)]

mod act_value;
mod config;
mod entry;
mod limits;
mod order;
mod outcome;
mod reply;
mod report;
mod rows;
mod script;
mod state;
mod submission;
mod ticket;

pub use act_value::{is_assign, is_evict, is_expire, is_lapse};
pub use config::Config;
pub use entry::{Act, Entry, History, Way};
pub use limits::{
    BROKEN_FOR, MOST_ADDRESSES, MOST_CONNECTIONS, MOST_JUDGED, MOST_MOVES, MOST_ORIGINS,
    MOST_UNSAID,
};
pub use order::{Order, OrderMark, OrderMarks, Orders};
pub use outcome::Outcome;
pub use reply::{
    CancelReply, ChangeReply, Look, OrdersReply, PreconnectReply, ResolvedReply, Seek, ShutReply,
    SubmitReply, TicketKept,
};
pub use report::Report;
pub use rows::Rows;
pub use script::{ScriptCall, ScriptCalls, Scripts};
pub use state::{
    AbstractPool, AltRow, Connection, Exchange, HostRow, Origins, Phase, ProtoRow, Status,
};
pub use submission::Submission;
pub use ticket::ConnTicket;
