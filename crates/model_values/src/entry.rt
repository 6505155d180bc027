// The entries of a pool's history.
ghost use Rattle.std.specs.Prelude.{◌≡◌, ◌↔◌, IsTrue};

use crate::order::OrderMarks;
use crate::reply::{
    CancelReply, ChangeReply, PreconnectReply, ResolvedReply, ShutReply, SubmitReply,
};
use crate::report::Report;
use crate::submission::Submission;
use net_base::{
    Addresses, CallerNo, ConnNo, EndCause, ExchangeNo, Listed, Moment, NoMem, Octets, Origin,
    PlainValue, StreamList, StreamNo, Target,
};
use partition_keys::PartitionKey;
use std::alloc::Global;

/// By which right an exchange uses a connection.
#[derive(Clone, Copy, Debug, PartialEq, Eq)]
pub enum Way {
    /// The connection goes to the exchange's origin itself.
    Direct,
    /// It goes to an alternative of the origin (RFC 7838, section 2).
    Alternative,
    /// It was opened for an https origin, and its other side is the authority for this one too (RFC 9113, section
    /// 9.1.1).
    Coalesced,
}

/// What one entry of the history says: a call with its reply, or what the pool did by itself after a call.
#[derive(Debug, Drop)]
pub enum Act {
    Submit {
        ask: Submission,
        reply: SubmitReply,
    },
    Cancel {
        exchange: ExchangeNo,
        reply: CancelReply,
    },
    Reprioritise {
        exchange: ExchangeNo,
        urgency: u8,
        reply: ChangeReply,
    },
    Preconnect {
        key: PartitionKey,
        credentials: bool,
        origin: Origin,
        count: u32,
        reply: PreconnectReply,
    },
    Resolved {
        key: PartitionKey,
        host: Octets,
        addresses: Addresses,
        reply: ResolvedReply,
    },
    /// The network changed (RFC 7838, section 2.2).
    Network,
    /// A look that came late: its moment alone makes something due.
    Tick,
    Shutdown {
        reply: ShutReply,
    },
    /// A worker seeks, and is to dial this connection.
    Dial {
        conn: ConnNo,
        target: Target,
    },
    /// A worker takes the orders of its connection. `sent` counts the octets that its link took so far.
    Orders {
        conn: ConnNo,
        sent: u64,
        orders: OrderMarks,
    },
    Reported {
        conn: ConnNo,
        sent: u64,
        report: Report,
    },
    /// The connection is gone. `heard` are the streams of which some part of an answer came.
    Closed {
        conn: ConnNo,
        sent: u64,
        cause: EndCause,
        heard: StreamList,
    },
    /// The exchange's deadline is reached.
    Expire(ExchangeNo),
    /// The exchange is a waiting probe whose origin has no fresh HTTP/2 alternative.
    Lapse(ExchangeNo),
    /// The exchange gets a stream of a connection.
    Assign {
        exchange: ExchangeNo,
        conn: ConnNo,
        stream: StreamNo,
        way: Way,
    },
    /// A connection is wanted for the exchange.
    Want {
        exchange: ExchangeNo,
        conn: ConnNo,
        target: Target,
    },
    /// An idle connection makes room.
    Evict(ConnNo),
}

/// One entry of the history. What the pool did by itself has the caller 0.
#[derive(Debug, Drop)]
pub struct Entry {
    pub who: CallerNo,
    pub moment: Moment,
    pub act: Act,
}

/// A history: entries in the order in which they took place.
pub type History = Listed<Entry>;

impl PlainValue for Way {
    fn copy(&self, _alloc: Global) -> Result<Way, NoMem> {
        Ok(*self)
    }

    fn same(&self, other: &Way) -> bool {
        *self == *other
    }
}

impl PlainValue for Entry {
    fn copy(&self, alloc: Global) -> Result<Entry, NoMem> {
        Ok(Entry {
            who: self.who,
            moment: self.moment,
            act: self.act.copy(alloc)?,
        })
    }

    fn same(&self, other: &Entry) -> bool {
        self.who == other.who && self.moment == other.moment && self.act.same(&other.act)
    }
}
