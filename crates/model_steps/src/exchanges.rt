// What becomes of an exchange.
ghost use Rattle.std.specs.Prelude.{◌≡◌, map, false};
ghost use Rattle.std.specs.List.{list_any};
ghost use Rattle.model_changes.specs.Connections as connections;
ghost use Rattle.model_steps.specs.Exchanges as spec;
ghost use Rattle.model_authority.specs.Lists.{edit};
ghost use Rattle.model_values.specs.declared.state.Status.TheVariants.{Leased};

use model_authority::{is_waiting, numbered_mut};
use model_changes::is_start_of;
use model_values::{Exchange, MOST_MOVES, OrderMark, Outcome, Status, Submission, Way};
use net_base::{CallerNo, ConnNo, StreamNo};

/// An exchange that waits.
pub fn new_exchange(who: CallerNo, ask: Submission) -> Exchange
    ensures { result ≡ spec.new_exchange who ask }
{
    Exchange {
        ask,
        caller: who,
        moves: 0,
        retried: false,
        direct_only: false,
        status: Status::Waiting,
    }
}

/// The exchange waits again, or ends where it has moved too often.
#[tactic(auto, unfolding(crate::specs::Exchanges::moved))]
pub fn wait_again(e: &mut Exchange)
    ensures { e.new ≡ spec.moved e.old }
{
    if e.moves >= MOST_MOVES {
        e.status = Status::Ended(Outcome::TooManyMoves);
    } else {
        e.status = Status::Waiting;
        e.moves += 1;
    }
}

/// Whether the start of this stream is among the orders.
fn is_ordered(orders: &[OrderMark], stream: StreamNo) -> bool
    ensures { result ≡ list_any (connections.is_start_of stream) orders.now }
{
    orders.iter().any(|m| is_start_of(stream, *m))
}

/// The exchange's start is handed where it is among the orders of its connection.
fn hand(conn: ConnNo, orders: &[OrderMark], e: &mut Exchange)
    ensures { e.new ≡ spec.handed_by conn orders.now e.old }
{
    match &mut e.status {
        Status::Leased {
            conn: c,
            stream,
            handed,
            ..
        } => {
            if c.0 == conn.0 && is_ordered(orders, *stream) {
                *handed = true;
            }
        }
        Status::Waiting => {}
        Status::Ended(_) => {}
    }
}

/// The starts among the orders are handed.
pub fn hand_all(conn: ConnNo, orders: &[OrderMark], list: &mut [Exchange])
    ensures { list.new ≡ map (spec.handed_by conn orders.now) list.old }
{
    for e in list.iter_mut() {
        hand(conn, orders, e);
    }
}

/// Ends the exchange where it has no end.
fn close_exchange(e: &mut Exchange)
    ensures { e.new ≡ spec.ended_unless Outcome.PoolClosed e.old }
{
    match &e.status {
        Status::Ended(_) => {}
        Status::Waiting => e.status = Status::Ended(Outcome::PoolClosed),
        Status::Leased { .. } => e.status = Status::Ended(Outcome::PoolClosed),
    }
}

/// The pool is shut down: each exchange without an end ends.
pub fn close_exchanges(list: &mut [Exchange])
    ensures { list.new ≡ map (spec.ended_unless Outcome.PoolClosed) list.old }
{
    for e in list.iter_mut() {
        close_exchange(e);
    }
}

/// Ends the exchange.
pub fn end(e: &mut Exchange, how: Outcome)
    ensures { e.new ≡ spec.ended_by how e.old }
{
    e.status = Status::Ended(how);
}

/// Ends the exchange where it waits.
fn end_if_waiting(e: &mut Exchange, how: Outcome)
    ensures { e.new ≡ spec.ended_if_waiting how e.old }
{
    if is_waiting(&e.status) {
        e.status = Status::Ended(how);
    }
}

/// Ends the exchange of this number where it waits.
#[tactic(auto, unfolding(model_authority::specs::Lists::edit, model_authority::specs::Lists::numbered))]
pub fn end_numbered_if_waiting(list: &mut [Exchange], number: u64, how: Outcome)
    ensures { list.new ≡ edit number (spec.ended_if_waiting how) list.old }
{
    if let Some(e) = numbered_mut(list, number) {
        end_if_waiting(e, how);
    }
}

/// Ends the exchange at its deadline.
pub fn time_out(e: &mut Exchange)
    ensures { e.new ≡ spec.timed_out e.old }
{
    match e.ask.deadline {
        None => {}
        Some(deadline) => e.status = Status::Ended(Outcome::TimedOut(deadline)),
    }
}

/// Sets the exchange's urgency.
pub fn set_urgency(e: &mut Exchange, urgency: u8)
    ensures { e.new ≡ spec.with_urgency urgency e.old }
{
    e.ask.urgency = urgency;
}

/// The exchange gets a lease whose start isn't handed yet.
pub fn lease(e: &mut Exchange, conn: ConnNo, stream: StreamNo, way: Way)
    ensures { e.new ≡ spec.with_status (Leased conn stream way false) e.old }
{
    e.status = Status::Leased {
        conn,
        stream,
        way,
        handed: false,
    };
}
