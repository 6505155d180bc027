// Acts, copied whole and compared part by part.
ghost use Rattle.std.specs.Prelude.{◌≡◌, ◌↔◌, IsTrue};

use crate::entry::{Act, Way};
use crate::order::OrderMarks;
use crate::reply::{
    CancelReply, ChangeReply, PreconnectReply, ResolvedReply, ShutReply, SubmitReply,
};
use crate::report::Report;
use crate::submission::Submission;
use net_base::{
    Addresses, ConnNo, EndCause, ExchangeNo, NoMem, Octets, Origin, PlainValue, StreamList,
    StreamNo, Target,
};
use partition_keys::PartitionKey;
use std::alloc::Global;

impl PlainValue for Act {
    fn copy(&self, alloc: Global) -> Result<Act, NoMem> {
        match self {
            Act::Submit { ask, reply } => Ok(Act::Submit {
                ask: ask.copy(alloc)?,
                reply: *reply,
            }),
            Act::Cancel { exchange, reply } => Ok(Act::Cancel {
                exchange: *exchange,
                reply: *reply,
            }),
            Act::Reprioritise {
                exchange,
                urgency,
                reply,
            } => Ok(Act::Reprioritise {
                exchange: *exchange,
                urgency: *urgency,
                reply: *reply,
            }),
            Act::Preconnect {
                key,
                credentials,
                origin,
                count,
                reply,
            } => Ok(Act::Preconnect {
                key: key.copy(alloc)?,
                credentials: *credentials,
                origin: origin.copy(alloc)?,
                count: *count,
                reply: *reply,
            }),
            Act::Resolved {
                key,
                host,
                addresses,
                reply,
            } => Ok(Act::Resolved {
                key: key.copy(alloc)?,
                host: host.copy(alloc)?,
                addresses: addresses.copy(alloc)?,
                reply: *reply,
            }),
            Act::Network => Ok(Act::Network),
            Act::Tick => Ok(Act::Tick),
            Act::Shutdown { reply } => Ok(Act::Shutdown { reply: *reply }),
            Act::Dial { conn, target } => Ok(Act::Dial {
                conn: *conn,
                target: target.copy(alloc)?,
            }),
            Act::Orders { conn, sent, orders } => Ok(Act::Orders {
                conn: *conn,
                sent: *sent,
                orders: orders.copy(alloc)?,
            }),
            Act::Reported { conn, sent, report } => Ok(Act::Reported {
                conn: *conn,
                sent: *sent,
                report: report.copy(alloc)?,
            }),
            Act::Closed {
                conn,
                sent,
                cause,
                heard,
            } => Ok(Act::Closed {
                conn: *conn,
                sent: *sent,
                cause: *cause,
                heard: heard.copy(alloc)?,
            }),
            Act::Expire(number) => Ok(Act::Expire(*number)),
            Act::Lapse(number) => Ok(Act::Lapse(*number)),
            Act::Assign {
                exchange,
                conn,
                stream,
                way,
            } => Ok(Act::Assign {
                exchange: *exchange,
                conn: *conn,
                stream: *stream,
                way: *way,
            }),
            Act::Want {
                exchange,
                conn,
                target,
            } => Ok(Act::Want {
                exchange: *exchange,
                conn: *conn,
                target: target.copy(alloc)?,
            }),
            Act::Evict(number) => Ok(Act::Evict(*number)),
        }
    }

    fn same(&self, other: &Act) -> bool {
        match self {
            Act::Submit { ask, reply } => is_submit(other, ask, *reply),
            Act::Cancel { exchange, reply } => is_cancel(other, *exchange, *reply),
            Act::Reprioritise {
                exchange,
                urgency,
                reply,
            } => is_reprioritise(other, *exchange, *urgency, *reply),
            Act::Preconnect {
                key,
                credentials,
                origin,
                count,
                reply,
            } => is_preconnect(other, key, *credentials, origin, *count, *reply),
            Act::Resolved {
                key,
                host,
                addresses,
                reply,
            } => is_resolved(other, key, host, addresses, *reply),
            Act::Network => is_network(other),
            Act::Tick => is_tick(other),
            Act::Shutdown { reply } => is_shutdown(other, *reply),
            Act::Dial { conn, target } => is_dial(other, *conn, target),
            Act::Orders { conn, sent, orders } => is_orders(other, *conn, *sent, orders),
            Act::Reported { conn, sent, report } => is_reported(other, *conn, *sent, report),
            Act::Closed {
                conn,
                sent,
                cause,
                heard,
            } => is_closed(other, *conn, *sent, *cause, heard),
            Act::Expire(number) => is_expire(other, *number),
            Act::Lapse(number) => is_lapse(other, *number),
            Act::Assign {
                exchange,
                conn,
                stream,
                way,
            } => is_assign(other, *exchange, *conn, *stream, *way),
            Act::Want {
                exchange,
                conn,
                target,
            } => is_want(other, *exchange, *conn, target),
            Act::Evict(number) => is_evict(other, *number),
        }
    }
}

fn is_submit(act: &Act, ask: &Submission, reply: SubmitReply) -> bool
    ensures { IsTrue result ↔ (Act.Submit ask.now reply ≡ act.now) }
{
    match act {
        Act::Submit {
            ask: other_ask,
            reply: other_reply,
        } => ask.same(other_ask) && reply == *other_reply,
        _ => false,
    }
}

fn is_cancel(act: &Act, exchange: ExchangeNo, reply: CancelReply) -> bool
    ensures { IsTrue result ↔ (Act.Cancel exchange reply ≡ act.now) }
{
    match act {
        Act::Cancel {
            exchange: other_exchange,
            reply: other_reply,
        } => exchange == *other_exchange && reply == *other_reply,
        _ => false,
    }
}

fn is_reprioritise(act: &Act, exchange: ExchangeNo, urgency: u8, reply: ChangeReply) -> bool
    ensures { IsTrue result ↔ (Act.Reprioritise exchange urgency reply ≡ act.now) }
{
    match act {
        Act::Reprioritise {
            exchange: other_exchange,
            urgency: other_urgency,
            reply: other_reply,
        } => exchange == *other_exchange && urgency == *other_urgency && reply == *other_reply,
        _ => false,
    }
}

fn is_preconnect(
    act: &Act,
    key: &PartitionKey,
    credentials: bool,
    origin: &Origin,
    count: u32,
    reply: PreconnectReply,
) -> bool
    ensures { IsTrue result ↔ (Act.Preconnect key.now credentials origin.now count reply ≡ act.now) }
{
    match act {
        Act::Preconnect {
            key: other_key,
            credentials: other_credentials,
            origin: other_origin,
            count: other_count,
            reply: other_reply,
        } => key.same(other_key)
            && credentials == *other_credentials
            && origin.same(other_origin)
            && count == *other_count
            && reply == *other_reply,
        _ => false,
    }
}

fn is_resolved(
    act: &Act,
    key: &PartitionKey,
    host: &Octets,
    addresses: &Addresses,
    reply: ResolvedReply,
) -> bool
    ensures { IsTrue result ↔ (Act.Resolved key.now host.now addresses.now reply ≡ act.now) }
{
    match act {
        Act::Resolved {
            key: other_key,
            host: other_host,
            addresses: other_addresses,
            reply: other_reply,
        } => key.same(other_key)
            && host.same(other_host)
            && addresses.same(other_addresses)
            && reply == *other_reply,
        _ => false,
    }
}

fn is_network(act: &Act) -> bool
    ensures { IsTrue result ↔ (Act.Network ≡ act.now) }
{
    match act {
        Act::Network => true,
        _ => false,
    }
}

fn is_tick(act: &Act) -> bool
    ensures { IsTrue result ↔ (Act.Tick ≡ act.now) }
{
    match act {
        Act::Tick => true,
        _ => false,
    }
}

fn is_shutdown(act: &Act, reply: ShutReply) -> bool
    ensures { IsTrue result ↔ (Act.Shutdown reply ≡ act.now) }
{
    match act {
        Act::Shutdown { reply: other_reply } => reply == *other_reply,
        _ => false,
    }
}

fn is_dial(act: &Act, conn: ConnNo, target: &Target) -> bool
    ensures { IsTrue result ↔ (Act.Dial conn target.now ≡ act.now) }
{
    match act {
        Act::Dial {
            conn: other_conn,
            target: other_target,
        } => conn == *other_conn && target.same(other_target),
        _ => false,
    }
}

fn is_orders(act: &Act, conn: ConnNo, sent: u64, orders: &OrderMarks) -> bool
    ensures { IsTrue result ↔ (Act.Orders conn sent orders.now ≡ act.now) }
{
    match act {
        Act::Orders {
            conn: other_conn,
            sent: other_sent,
            orders: other_orders,
        } => conn == *other_conn && sent == *other_sent && orders.same(other_orders),
        _ => false,
    }
}

fn is_reported(act: &Act, conn: ConnNo, sent: u64, report: &Report) -> bool
    ensures { IsTrue result ↔ (Act.Reported conn sent report.now ≡ act.now) }
{
    match act {
        Act::Reported {
            conn: other_conn,
            sent: other_sent,
            report: other_report,
        } => conn == *other_conn && sent == *other_sent && report.same(other_report),
        _ => false,
    }
}

fn is_closed(act: &Act, conn: ConnNo, sent: u64, cause: EndCause, heard: &StreamList) -> bool
    ensures { IsTrue result ↔ (Act.Closed conn sent cause heard.now ≡ act.now) }
{
    match act {
        Act::Closed {
            conn: other_conn,
            sent: other_sent,
            cause: other_cause,
            heard: other_heard,
        } => conn == *other_conn
            && sent == *other_sent
            && cause == *other_cause
            && heard.same(other_heard),
        _ => false,
    }
}

/// Whether the act is that this exchange expires.
pub fn is_expire(act: &Act, number: ExchangeNo) -> bool
    ensures { IsTrue result ↔ (Act.Expire number ≡ act.now) }
{
    match act {
        Act::Expire(other) => number == *other,
        _ => false,
    }
}

/// Whether the act is that this exchange lapses.
pub fn is_lapse(act: &Act, number: ExchangeNo) -> bool
    ensures { IsTrue result ↔ (Act.Lapse number ≡ act.now) }
{
    match act {
        Act::Lapse(other) => number == *other,
        _ => false,
    }
}

/// Whether the act is that this exchange gets this stream in this way.
pub fn is_assign(act: &Act, exchange: ExchangeNo, conn: ConnNo, stream: StreamNo, way: Way) -> bool
    ensures { IsTrue result ↔ (Act.Assign exchange conn stream way ≡ act.now) }
{
    match act {
        Act::Assign {
            exchange: other_exchange,
            conn: other_conn,
            stream: other_stream,
            way: other_way,
        } => exchange == *other_exchange
            && conn == *other_conn
            && stream == *other_stream
            && way == *other_way,
        _ => false,
    }
}

fn is_want(act: &Act, exchange: ExchangeNo, conn: ConnNo, target: &Target) -> bool
    ensures { IsTrue result ↔ (Act.Want exchange conn target.now ≡ act.now) }
{
    match act {
        Act::Want {
            exchange: other_exchange,
            conn: other_conn,
            target: other_target,
        } => exchange == *other_exchange && conn == *other_conn && target.same(other_target),
        _ => false,
    }
}

/// Whether the act is that this connection makes room.
pub fn is_evict(act: &Act, number: ConnNo) -> bool
    ensures { IsTrue result ↔ (Act.Evict number ≡ act.now) }
{
    match act {
        Act::Evict(other) => number == *other,
        _ => false,
    }
}
