// What becomes of a connection.
ghost use Rattle.std.specs.Prelude.{◌≡◌, [], ◌∷◌, ◌++◌, not, filter, IfOk, OnOk, None, map};
ghost use Rattle.std.specs.List.{list_any};
ghost use Rattle.model_changes.specs.Connections as spec;
ghost use Rattle.model_authority.specs.Lists.{is_nil};
ghost use Rattle.model_authority.specs.Statuses as statuses;

use crate::identity::suits;
use model_authority::{is_draining, is_open, is_unsent_at, speaks_h2};
use model_values::{Connection, Exchange, MOST_UNSAID, OrderMark, OrderMarks, Phase};
use net_base::{
    CallerNo, ConnNo, ExchangeNo, Identity, Listed, Moment, NoMem, Origin, PlainValue, StreamList,
    StreamNo,
};
use partition_keys::GroupKey;
use std::alloc::Global;

/// Whether there is no stream.
fn is_empty(streams: &StreamList) -> bool
    ensures { result ≡ is_nil streams.now }
{
    match streams.as_slice() {
        [] => true,
        _ => false,
    }
}

// ---- orders

/// Whether this is a start.
fn is_start(m: OrderMark) -> bool
    ensures { result ≡ spec.is_start m }
{
    match m {
        OrderMark::Start { .. } => true,
        OrderMark::Reset(_) => false,
        OrderMark::Close => false,
    }
}

/// Whether this is the start of this stream.
pub fn is_start_of(r: StreamNo, m: OrderMark) -> bool
    ensures { result ≡ spec.is_start_of r m }
{
    match m {
        OrderMark::Start { stream, .. } => r.0 == stream.0,
        OrderMark::Reset(_) => false,
        OrderMark::Close => false,
    }
}

/// Whether this is the reset of this stream.
pub fn is_reset_of(r: StreamNo, m: OrderMark) -> bool
    ensures { result ≡ spec.is_reset_of r m }
{
    match m {
        OrderMark::Start { .. } => false,
        OrderMark::Reset(stream) => r.0 == stream.0,
        OrderMark::Close => false,
    }
}

/// The orders without the start of this stream.
fn orders_without_start(
    alloc: Global,
    orders: &[OrderMark],
    r: StreamNo,
) -> Result<OrderMarks, NoMem>
    ensures { IfOk result (λ kept. kept ≡ filter (λ m. not (spec.is_start_of r m)) orders.now) }
{
    let mut kept = Listed::new();
    for m in orders {
        if !is_start_of(r, *m) {
            kept.push(alloc, *m)?;
        }
    }
    Ok(kept)
}

/// The orders without the reset of this stream.
fn orders_without_reset(
    alloc: Global,
    orders: &[OrderMark],
    r: StreamNo,
) -> Result<OrderMarks, NoMem>
    ensures { IfOk result (λ kept. kept ≡ filter (λ m. not (spec.is_reset_of r m)) orders.now) }
{
    let mut kept = Listed::new();
    for m in orders {
        if !is_reset_of(r, *m) {
            kept.push(alloc, *m)?;
        }
    }
    Ok(kept)
}

/// The orders without the starts.
fn orders_without_starts(alloc: Global, orders: &[OrderMark]) -> Result<OrderMarks, NoMem>
    ensures { IfOk result (λ kept. kept ≡ filter (λ m. not (spec.is_start m)) orders.now) }
{
    let mut kept = Listed::new();
    for m in orders {
        if !is_start(*m) {
            kept.push(alloc, *m)?;
        }
    }
    Ok(kept)
}

/// The streams other than this one.
fn other_streams(alloc: Global, streams: &[StreamNo], r: StreamNo) -> Result<StreamList, NoMem>
    ensures { IfOk result (λ kept. kept ≡ spec.other_streams r streams.now) }
{
    let mut kept = Listed::new();
    for x in streams {
        if r.0 != x.0 {
            kept.push(alloc, *x)?;
        }
    }
    Ok(kept)
}

// ---- closing

/// It is told to close, and to do nothing else. One that closes or is gone stays as it is.
#[tactic(auto, unfolding(crate::specs::Connections::closing))]
pub fn closing(alloc: Global, c: &mut Connection) -> Result<(), NoMem>
    ensures { OnOk result (c.new ≡ spec.closing c.old) }
{
    match c.phase {
        Phase::Closing | Phase::Gone => {}
        _ => {
            let mut orders = Listed::new();
            orders.push(alloc, OrderMark::Close)?;
            c.phase = Phase::Closing;
            c.orders = orders;
        }
    }
    Ok(())
}

/// It carries nothing from now on. A draining one closes.
#[tactic(auto, unfolding(crate::specs::Connections::idle_from))]
fn idle_from(alloc: Global, c: &mut Connection, now: Moment) -> Result<(), NoMem>
    ensures { OnOk result (c.new ≡ spec.idle_from now c.old) }
{
    c.idle_since = now;
    if is_draining(c.phase) {
        return closing(alloc, c);
    }
    Ok(())
}

/// The live streams and the orders become these. Where the live streams run out, it carries nothing from now on.
#[tactic(auto, unfolding(crate::specs::Connections::idle_if_run_out))]
fn idle_if_run_out(
    alloc: Global,
    c: &mut Connection,
    now: Moment,
    live: StreamList,
    orders: OrderMarks,
) -> Result<(), NoMem>
    ensures { OnOk result (c.new ≡ spec.idle_if_run_out now c.old (record c.old { live = live; orders = orders })) }
{
    let runs_out = is_empty(&live) && !is_empty(&c.live);
    c.live = live;
    c.orders = orders;
    if runs_out {
        return idle_from(alloc, c, now);
    }
    Ok(())
}

/// The stream is no longer live.
#[tactic(auto, unfolding(crate::specs::Connections::without_stream, crate::specs::Connections::idle_if_run_out))]
pub fn without_stream(
    alloc: Global,
    c: &mut Connection,
    now: Moment,
    r: StreamNo,
) -> Result<(), NoMem>
    ensures { OnOk result (c.new ≡ spec.without_stream now r c.old) }
{
    let live = other_streams(alloc, c.live.as_slice(), r)?;
    let runs_out = is_empty(&live) && !is_empty(&c.live);
    c.live = live;
    if runs_out {
        return idle_from(alloc, c, now);
    }
    Ok(())
}

/// The start of the stream is taken back, and it is no longer live.
#[tactic(auto, unfolding(crate::specs::Connections::without_start))]
pub fn without_start(
    alloc: Global,
    c: &mut Connection,
    now: Moment,
    r: StreamNo,
) -> Result<(), NoMem>
    ensures { OnOk result (c.new ≡ spec.without_start now r c.old) }
{
    let live = other_streams(alloc, c.live.as_slice(), r)?;
    let orders = orders_without_start(alloc, c.orders.as_slice(), r)?;
    idle_if_run_out(alloc, c, now, live, orders)
}

/// The stream is to be reset, and stays live until it is closed (RFC 9113, section 6.4). HTTP/1.1 has no way to give
/// up an exchange but to close.
#[tactic(auto, unfolding(crate::specs::Connections::without_exchange))]
pub fn without_exchange(alloc: Global, c: &mut Connection, r: StreamNo) -> Result<(), NoMem>
    ensures { OnOk result (c.new ≡ spec.without_exchange r c.old) }
{
    if speaks_h2(c) {
        return c.orders.push(alloc, OrderMark::Reset(r));
    }
    closing(alloc, c)
}

// ---- being wanted, dialed and opened

/// A connection that is wanted, for an exchange or for none.
pub fn new_connection(group: GroupKey, wanted_for: Option<ExchangeNo>, now: Moment) -> Connection
    ensures { result ≡ spec.new_connection group wanted_for now }
{
    Connection {
        group,
        wanted_for,
        caller: CallerNo(0),
        phase: Phase::Wanted,
        identity: None,
        peer_limit: MOST_UNSAID,
        next_stream: 1,
        live: Listed::new(),
        started: Listed::new(),
        orders: Listed::new(),
        sent: 0,
        idle_since: now,
        excluded: Listed::new(),
    }
}

/// This worker dials it.
pub fn dialing_by(c: &mut Connection, who: CallerNo)
    ensures { c.new ≡ spec.dialing_by who c.old }
{
    c.caller = who;
    c.phase = Phase::Dialing;
}

/// It is open, and its other side has shown this identity.
fn opened_with(c: &mut Connection, now: Moment, id: Identity)
    ensures { c.new ≡ spec.opened_with now id c.old }
{
    c.identity = Some(id);
    c.phase = Phase::Open;
    c.peer_limit = MOST_UNSAID;
    c.next_stream = 1;
    c.idle_since = now;
}

/// Its other side has shown this identity, and it is told to close.
fn refused_with(alloc: Global, c: &mut Connection, id: Identity) -> Result<(), NoMem>
    ensures { OnOk result (c.new ≡ spec.refused_with id c.old) }
{
    c.identity = Some(id);
    closing(alloc, c)
}

/// It opens, unless the pool is shut down or the identity isn't good for it.
#[tactic(auto, unfolding(crate::specs::Connections::after_opened))]
pub fn after_opened(
    alloc: Global,
    c: &mut Connection,
    is_shut: bool,
    now: Moment,
    id: &Identity,
) -> Result<(), NoMem>
    ensures { OnOk result (c.new ≡ spec.after_opened is_shut now id.now c.old) }
{
    let shown = id.copy(alloc)?;
    if !is_shut && suits(&c.group, id) {
        opened_with(c, now, shown);
        return Ok(());
    }
    refused_with(alloc, c, shown)
}

// ---- leases

/// The number of the stream after this one (RFC 9113, section 5.1.1).
fn stream_after(c: &Connection, r: StreamNo) -> u64
    ensures { result ≡ spec.stream_after r c.now }
{
    if speaks_h2(c) {
        return u64::from(r.0) + 2;
    }
    u64::from(r.0) + 1
}

/// The exchange's start is ordered, and its stream is live. One that has no number left drains.
#[tactic(auto, unfolding(crate::specs::Connections::with_start))]
pub fn with_start(
    alloc: Global,
    c: &mut Connection,
    last: u32,
    exchange: ExchangeNo,
    stream: StreamNo,
) -> Result<(), NoMem>
    ensures { OnOk result (c.new ≡ spec.with_start last exchange stream c.old) }
{
    let next = stream_after(c, stream);
    c.orders.push(alloc, OrderMark::Start { exchange, stream })?;
    c.live.push(alloc, stream)?;
    c.next_stream = next;
    if u64::from(last) < next {
        c.phase = Phase::Draining;
    }
    Ok(())
}

/// The streams of the starts among the orders are noted.
fn note_started(alloc: Global, started: &mut StreamList, orders: &[OrderMark]) -> Result<(), NoMem>
    ensures { OnOk result (started.new ≡ started.old ++ spec.streams_started orders.now) }
{
    for m in orders {
        if let OrderMark::Start { stream, .. } = *m {
            started.push(alloc, stream)?;
        }
    }
    Ok(())
}

/// Its orders are taken.
pub fn with_taken(alloc: Global, c: &mut Connection, orders: &[OrderMark]) -> Result<(), NoMem>
    ensures { OnOk result (c.new ≡ spec.with_taken orders.now c.old) }
{
    note_started(alloc, &mut c.started, orders)?;
    c.orders = Listed::new();
    Ok(())
}

// ---- reports

/// The peer allows this many live streams.
pub fn with_limit(c: &mut Connection, n: u32)
    ensures { c.new ≡ spec.with_limit n c.old }
{
    c.peer_limit = n;
}

/// It closes where it isn't kept.
fn kept_open(alloc: Global, c: &mut Connection, keep: bool) -> Result<(), NoMem>
    ensures { OnOk result (c.new ≡ spec.kept_open keep c.old) }
{
    if keep {
        return Ok(());
    }
    closing(alloc, c)
}

/// The reset of the stream is taken back.
fn without_reset(alloc: Global, c: &mut Connection, r: StreamNo) -> Result<(), NoMem>
    ensures { OnOk result (c.new ≡ spec.without_reset r c.old) }
{
    let orders = orders_without_reset(alloc, c.orders.as_slice(), r)?;
    c.orders = orders;
    Ok(())
}

/// The answer is whole, and where the connection isn't kept it closes (RFC 9112, sections 9.3 and 9.6).
#[tactic(auto, unfolding(crate::specs::Connections::after_answer))]
pub fn after_answer(
    alloc: Global,
    c: &mut Connection,
    now: Moment,
    r: StreamNo,
    keep: bool,
) -> Result<(), NoMem>
    ensures { OnOk result (c.new ≡ spec.after_answer now r keep c.old) }
{
    without_reset(alloc, c, r)?;
    without_stream(alloc, c, now, r)?;
    kept_open(alloc, c, keep)
}

/// It isn't to be coalesced for this origin again (RFC 9110, section 15.5.20).
pub fn excluding(alloc: Global, c: &mut Connection, origin: &Origin) -> Result<(), NoMem>
    ensures { OnOk result (c.new ≡ spec.excluding origin.now c.old) }
{
    let excluded = origin.copy(alloc)?;
    c.excluded.push(alloc, excluded)
}

/// An answer that is too large costs an HTTP/2 connection its stream alone, and an HTTP/1.1 connection has to close.
#[tactic(auto, unfolding(crate::specs::Connections::after_large_answer))]
pub fn after_large_answer(
    alloc: Global,
    c: &mut Connection,
    now: Moment,
    r: StreamNo,
) -> Result<(), NoMem>
    ensures { OnOk result (c.new ≡ spec.after_large_answer now r c.old) }
{
    let keep = speaks_h2(c);
    without_stream(alloc, c, now, r)?;
    kept_open(alloc, c, keep)
}

/// Whether some exchange has the lease on this stream of the connection, and its start isn't handed yet.
fn is_unsent_stream(conn: ConnNo, es: &[Exchange], r: StreamNo) -> bool
    ensures { result ≡ spec.is_unsent_stream conn es.now r }
{
    es.iter().any(|e| is_unsent_at(conn, r, &e.status))
}

/// Of these streams those that aren't above the last one, without those whose start isn't handed (RFC 9113, section
/// 6.8).
fn streams_left(
    alloc: Global,
    conn: ConnNo,
    es: &[Exchange],
    last: StreamNo,
    streams: &[StreamNo],
) -> Result<StreamList, NoMem>
    ensures { IfOk result (λ kept. kept ≡ spec.streams_left conn es.now last streams.now) }
{
    let mut kept = Listed::new();
    for r in streams {
        if r.0 <= last.0 && !is_unsent_stream(conn, es, *r) {
            kept.push(alloc, *r)?;
        }
    }
    Ok(kept)
}

/// It takes no further exchange.
fn draining(c: &mut Connection)
    ensures { c.new ≡ spec.draining c.old }
{
    if is_open(c.phase) {
        c.phase = Phase::Draining;
    }
}

/// It takes no further exchange, and where it carries nothing it closes.
fn draining_or_closing(alloc: Global, c: &mut Connection) -> Result<(), NoMem>
    ensures { OnOk result (c.new ≡ spec.draining_or_closing c.old) }
{
    if is_empty(&c.live) {
        return closing(alloc, c);
    }
    draining(c);
    Ok(())
}

/// It takes no further exchange, and where it carries nothing it closes (RFC 9113, section 6.8).
#[tactic(auto, unfolding(crate::specs::Connections::going_away))]
pub fn going_away(
    alloc: Global,
    c: &mut Connection,
    now: Moment,
    conn: ConnNo,
    es: &[Exchange],
    last: StreamNo,
) -> Result<(), NoMem>
    ensures { OnOk result (c.new ≡ spec.going_away now conn es.now last c.old) }
{
    let live = streams_left(alloc, conn, es, last, c.live.as_slice())?;
    let orders = orders_without_starts(alloc, c.orders.as_slice())?;
    idle_if_run_out(alloc, c, now, live, orders)?;
    draining_or_closing(alloc, c)
}

/// It is gone.
pub fn gone(c: &mut Connection)
    ensures { c.new ≡ spec.gone c.old }
{
    c.phase = Phase::Gone;
}

/// One that nobody has yet is gone, one that is up closes, and one that is being dialed is left to its worker.
#[tactic(auto, unfolding(crate::specs::Connections::after_shutdown))]
fn after_shutdown(alloc: Global, c: &mut Connection) -> Result<(), NoMem>
    ensures { OnOk result (c.new ≡ spec.after_shutdown c.old) }
{
    match c.phase {
        Phase::Wanted => gone(c),
        Phase::Open | Phase::Draining => closing(alloc, c)?,
        Phase::Dialing | Phase::Closing | Phase::Gone => {}
    }
    Ok(())
}

/// Each one that nobody has yet is gone, and each one that is up closes.
pub fn shut_all(alloc: Global, list: &mut [Connection]) -> Result<(), NoMem>
    ensures { OnOk result (list.new ≡ map spec.after_shutdown list.old) }
{
    for c in list.iter_mut() {
        after_shutdown(alloc, c)?;
    }
    Ok(())
}

/// Its link has taken this many octets.
pub fn with_sent(c: &mut Connection, sent: u64)
    ensures { c.new ≡ spec.with_sent sent c.old }
{
    c.sent = sent;
}
