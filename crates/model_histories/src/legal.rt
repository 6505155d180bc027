// Whether an entry may stand at a state.
ghost use Rattle.std.specs.Prelude.{◌≡◌, ◌≢◌, ◌↔◌, ◌≤◌, ◌+◌, ◌<◌, ◌^◌, IsTrue, length};
ghost use Rattle.model_steps.specs.After as after;
ghost use Rattle.model_settling.specs.Due.{IsNext};
ghost use Rattle.model_histories.specs.Histories.{MayStand};
ghost use Rattle.model_histories.specs.Legal as spec;
ghost use Rattle.model_histories.specs.Replies as replies;
ghost use Rattle.model_histories.specs.Working.{MayWorkAt};
ghost use Rattle.model_settling.specs.Settling as settling;
ghost use Rattle.model_authority.specs.Ways as ways;
ghost use Rattle.model_values.specs.Limits.{most_judged};

use crate::replies::{
    has_one_part, is_cancel_reply, is_change_reply, is_preconnect_reply, is_resolved_reply,
    is_shut_reply, is_submit_reply, is_workers_entry, may_close, may_report, may_take,
};
use model_authority::{is_busy, is_wanted, numbered};
use model_settling::{Due, is_act, next_due};
use model_steps::{group_parts_for, note};
use model_values::{
    AbstractPool, Act, ChangeReply, Entry, OrderMarks, PreconnectReply, Report, ResolvedReply,
    Submission, SubmitReply,
};
use net_base::{Addresses, CallerNo, ConnNo, EndCause, ExchangeNo, Origin, PlainValue, Target};
use partition_keys::PartitionKey;

/// Whether a submission may be made, with this reply.
fn may_submit(s: &AbstractPool, ask: &Submission, reply: SubmitReply) -> bool
    ensures { IsTrue result ↔ ((ask.now.urgency ≤ 7) × spec.HasOnePart ask.now.key × replies.IsSubmitReply s.now ask.now reply) }
{
    ask.urgency <= 7 && has_one_part(&ask.key) && is_submit_reply(s, ask, reply)
}

/// Whether an urgency may be set, with this reply.
fn may_change(
    s: &AbstractPool,
    who: CallerNo,
    no: ExchangeNo,
    urgency: u8,
    reply: ChangeReply,
) -> bool
    ensures { IsTrue result ↔ ((urgency ≤ 7) × replies.IsChangeReply s.now who no reply) }
{
    urgency <= 7 && is_change_reply(s, who, no, reply)
}

/// Whether connections may be opened ahead, with this reply.
fn may_preconnect(
    s: &AbstractPool,
    key: &PartitionKey,
    credentials: bool,
    origin: &Origin,
    count: u32,
    reply: PreconnectReply,
) -> bool
    ensures { IsTrue result ↔ ((1 ≤ count) × spec.HasOnePart key.now × replies.IsPreconnectReply s.now (ways.group_for s.now key.now credentials origin.now) count reply) }
{
    let group = group_parts_for(s, key, credentials, origin);
    1 <= count && has_one_part(key) && is_preconnect_reply(s, &group, count, reply)
}

/// Whether addresses may be noted, with this reply.
fn may_resolve(
    s: &AbstractPool,
    key: &PartitionKey,
    addresses: &Addresses,
    reply: ResolvedReply,
) -> bool
    ensures { IsTrue result ↔ (spec.HasOnePart key.now × replies.IsResolvedReply s.now addresses.now reply) }
{
    has_one_part(key) && is_resolved_reply(s, addresses, reply)
}

/// Whether a worker may take these orders.
fn may_order(s: &AbstractPool, who: CallerNo, conn: ConnNo, sent: u64, orders: &OrderMarks) -> bool
    ensures { IsTrue result ↔ spec.MayTakeAt s.now who conn sent orders.now }
{
    match numbered(u64::from(conn.0), s.connections.as_slice()) {
        None => false,
        Some(c) => is_workers_entry(c, who, sent) && may_take(c, orders),
    }
}

/// Whether a worker may ask for the orders of this connection.
pub fn may_work(s: &AbstractPool, who: CallerNo, conn: ConnNo, sent: u64) -> bool
    ensures { IsTrue result ↔ MayWorkAt s.now who conn sent }
{
    match numbered(u64::from(conn.0), s.connections.as_slice()) {
        None => false,
        Some(c) => is_workers_entry(c, who, sent) && is_busy(c.phase),
    }
}

/// Whether a worker may report this.
pub fn may_tell(s: &AbstractPool, who: CallerNo, conn: ConnNo, sent: u64, report: &Report) -> bool
    ensures { IsTrue result ↔ spec.MayReportAt s.now who conn sent report.now }
{
    match numbered(u64::from(conn.0), s.connections.as_slice()) {
        None => false,
        Some(c) => is_workers_entry(c, who, sent) && may_report(c, report),
    }
}

/// Whether a worker may give up its connection by this cause.
pub fn may_end(s: &AbstractPool, who: CallerNo, conn: ConnNo, sent: u64, cause: EndCause) -> bool
    ensures { IsTrue result ↔ spec.MayCloseAt s.now who conn sent cause }
{
    match numbered(u64::from(conn.0), s.connections.as_slice()) {
        None => false,
        Some(c) => is_workers_entry(c, who, sent) && may_close(c, cause),
    }
}

/// The number of the connection that is to be dialed.
#[tactic(auto, unfolding(crate::specs::Replies::dial_of, model_settling::specs::Due::lowest_from))]
pub fn next_dial(s: &AbstractPool) -> Option<u64>
    ensures { result ≡ replies.dial_of s.now }
{
    let mut number = 1u64;
    for c in s.connections.as_slice() {
        if is_wanted(c.phase) {
            return Some(number);
        }
        number += 1;
    }
    None
}

/// Whether the connection of this number goes to this target.
fn goes_to(s: &AbstractPool, number: u64, target: &Target) -> bool
    ensures { IsTrue result ↔ spec.GoesTo s.now number target.now }
{
    match numbered(number, s.connections.as_slice()) {
        None => false,
        Some(c) => target.same(&c.group.target),
    }
}

/// Whether a worker may dial this connection.
fn may_dial(s: &AbstractPool, conn: ConnNo, target: &Target) -> bool
    ensures { IsTrue result ↔ replies.IsDial s.now conn target.now }
{
    match next_dial(s) {
        None => false,
        Some(number) => {
            if number == u64::from(conn.0) {
                goes_to(s, number, target)
            } else {
                false
            }
        }
    }
}

/// Whether the pool has something to do by itself.
pub fn is_late(s: &AbstractPool) -> bool
    requires { length s.now.connections ≤ most_judged }
    ensures { IsTrue result ↔ settling.IsLate s.now }
{
    match next_due(s) {
        None => false,
        Some(_) => true,
    }
}

/// Whether the call has the one reply that the state gives.
fn is_reply(s: &AbstractPool, who: CallerNo, act: &Act) -> bool
    requires { length s.now.connections ≤ most_judged }
    ensures { IsTrue result ↔ spec.IsReply s.now who act.now }
{
    match act {
        Act::Submit { ask, reply } => may_submit(s, ask, *reply),
        Act::Cancel { exchange, reply } => is_cancel_reply(s, who, *exchange, *reply),
        Act::Reprioritise {
            exchange,
            urgency,
            reply,
        } => may_change(s, who, *exchange, *urgency, *reply),
        Act::Preconnect {
            key,
            credentials,
            origin,
            count,
            reply,
        } => may_preconnect(s, key, *credentials, origin, *count, *reply),
        Act::Resolved {
            key,
            host: _,
            addresses,
            reply,
        } => may_resolve(s, key, addresses, *reply),
        Act::Network => true,
        Act::Tick => is_late(s),
        Act::Shutdown { reply } => is_shut_reply(s, *reply),
        Act::Dial { conn, target } => may_dial(s, *conn, target),
        Act::Orders { conn, sent, orders } => may_order(s, who, *conn, *sent, orders),
        Act::Reported { conn, sent, report } => may_tell(s, who, *conn, *sent, report),
        Act::Closed {
            conn,
            sent,
            cause,
            heard: _,
        } => may_end(s, who, *conn, *sent, *cause),
        Act::Expire(_) => false,
        Act::Lapse(_) => false,
        Act::Assign { .. } => false,
        Act::Want { .. } => false,
        Act::Evict(_) => false,
    }
}

/// Whether the act is due, where this is.
fn is_due(s: &AbstractPool, d: Due, act: &Act) -> bool
    requires { IsNext s.now d }
    ensures { IsTrue result ↔ settling.IsDue s.now act.now }
{
    is_act(s, d, act)
}

/// Whether the entry is one of the pool itself, where this is due.
fn is_pools_entry(s: &AbstractPool, d: Due, e: &Entry) -> bool
    requires { IsNext s.now d }
    ensures { IsTrue result ↔ spec.IsPoolsEntry s.now e.now }
{
    e.who.0 == 0 && e.moment == s.latest && is_due(s, d, &e.act)
}

/// Whether the entry is a call's, at the state with its moment counted.
fn is_calls_entry(s: &AbstractPool, e: &Entry) -> bool
    requires { length s.now.connections ≤ most_judged }
    ensures { IsTrue result ↔ ((e.now.who.0 ≢ 0) × spec.IsReply s.now e.now.who e.now.act) }
{
    e.who.0 != 0 && is_reply(s, e.who, &e.act)
}

/// Counts the entry's moment, and whether the entry may stand at the state before, where this is due there.
fn noted_due(s: &mut AbstractPool, d: Due, e: &Entry) -> bool
    requires due { IsNext s.old d }
    requires fits { s.old.entries + 1 < 2 ^ 64 }
    ensures state { s.new ≡ after.noted s.old e.now.moment }
    ensures stands { IsTrue result ↔ MayStand s.old e.now }
{
    let stands = is_pools_entry(s, d, e);
    note(s, e.moment);
    stands
}

/// Counts the entry's moment, and whether the entry may stand at the state before, where nothing is due there.
fn noted_settled(s: &mut AbstractPool, e: &Entry) -> bool
    requires settled { settling.IsSettled s.old }
    requires fits { s.old.entries + 1 < 2 ^ 64 }
    requires few { length s.old.connections ≤ most_judged }
    ensures state { s.new ≡ after.noted s.old e.now.moment }
    ensures stands { IsTrue result ↔ MayStand s.old e.now }
{
    note(s, e.moment);
    is_calls_entry(s, e)
}

/// Counts the entry's moment, and whether the entry may stand at the state before.
pub fn noted(s: &mut AbstractPool, e: &Entry) -> bool
    requires fits { s.old.entries + 1 < 2 ^ 64 }
    requires few { length s.old.connections ≤ most_judged }
    ensures state { s.new ≡ after.noted s.old e.now.moment }
    ensures stands { IsTrue result ↔ MayStand s.old e.now }
{
    match next_due(s) {
        Some(d) => noted_due(s, d, e),
        None => noted_settled(s, e),
    }
}
