// The state of the abstract pool.

use crate::config::Config;
use crate::entry::Way;
use crate::order::OrderMarks;
use crate::outcome::Outcome;
use crate::rows::Rows;
use crate::submission::Submission;
use net_base::{
    Addresses, CallerNo, ConnNo, ExchangeNo, Identity, Listed, Moment, Octets, Origin, Proto,
    StreamList, StreamNo,
};
use partition_keys::{Alternatives, GroupKey, PartitionKey};

/// How far an exchange is.
#[derive(Debug, Drop)]
pub enum Status {
    Waiting,
    /// It has a stream of a connection. Its start is handed where the connection's worker has taken the order.
    Leased {
        conn: ConnNo,
        stream: StreamNo,
        way: Way,
        handed: bool,
    },
    Ended(Outcome),
}

/// An exchange of the abstract pool. Its number is its place among the exchanges, counted from 1.
#[derive(Debug, Drop)]
pub struct Exchange {
    pub ask: Submission,
    pub caller: CallerNo,
    /// How often it became waiting again.
    pub moves: u8,
    /// Whether it was tried again after its connection was lost (RFC 9110, section 9.2.2).
    pub retried: bool,
    /// Whether it takes only connections to its origin itself (RFC 9110, section 15.5.20).
    pub direct_only: bool,
    pub status: Status,
}

/// How far a connection is.
#[derive(Clone, Copy, Debug, PartialEq, Eq)]
pub enum Phase {
    /// No worker has it yet.
    Wanted,
    Dialing,
    Open,
    /// It takes no further exchange, and closes when its live streams run out.
    Draining,
    /// It is told to close.
    Closing,
    Gone,
}

/// A connection of the abstract pool. Its number is its place among the connections, counted from 1.
#[derive(Debug, Drop)]
pub struct Connection {
    pub group: GroupKey,
    /// The exchange that it was wanted for, or nothing where it was opened ahead.
    pub wanted_for: Option<ExchangeNo>,
    /// The worker that dialed it, 0 before.
    pub caller: CallerNo,
    pub phase: Phase,
    pub identity: Option<Identity>,
    /// How many live streams the peer allows.
    pub peer_limit: u32,
    /// The number of the next stream.
    pub next_stream: u64,
    pub live: StreamList,
    /// The streams whose start was handed.
    pub started: StreamList,
    /// The orders that are pending.
    pub orders: OrderMarks,
    /// How many octets its link had taken at its last entry.
    pub sent: u64,
    pub idle_since: Moment,
    /// The origins for which it isn't coalesced again (RFC 9110, section 15.5.20).
    pub excluded: Origins,
}

/// Origins.
pub type Origins = Listed<Origin>;

/// The alternatives of one origin in one partition.
#[derive(Debug, Drop)]
pub struct AltRow {
    pub key: PartitionKey,
    pub origin: Origin,
    pub list: Alternatives,
}

/// The addresses of one host in one partition.
#[derive(Debug, Drop)]
pub struct HostRow {
    pub key: PartitionKey,
    pub host: Octets,
    pub list: Addresses,
}

/// The protocol that the last connection of one group spoke.
#[derive(Debug, Drop)]
pub struct ProtoRow {
    pub group: GroupKey,
    pub proto: Proto,
}

/// The abstract pool: plain lists and a few marks. All that is counted or looked up is counted and looked up in them.
///
/// `latest` and `entries` here, and `caller`, `sent` and `started` of a connection, are readings of the entries so far
/// and no choice of the pool's.
#[derive(Debug, Drop)]
pub struct AbstractPool {
    pub config: Config,
    pub exchanges: Rows<Exchange>,
    pub connections: Rows<Connection>,
    /// The alternatives, those that were set last first.
    pub alternatives: Rows<AltRow>,
    pub addresses: Rows<HostRow>,
    pub protos: Rows<ProtoRow>,
    /// The place of the entry that shut the pool down, counted from 1.
    pub shutdown: Option<u64>,
    /// The greatest moment so far.
    pub latest: Moment,
    /// How many entries there were so far.
    pub entries: u64,
}
