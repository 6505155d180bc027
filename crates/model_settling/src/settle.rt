// What the pool is to do by itself.
ghost use Rattle.std.specs.Prelude.{◌≡◌, ◌↔◌, ◌≤◌, IsTrue, IfOk, MatchOption, is_some, length};
ghost use Rattle.std.specs.List.{list_any};
ghost use Rattle.model_settling.specs.Due as spec;
ghost use Rattle.model_authority.specs.Lists as lists;
ghost use Rattle.model_settling.specs.Settling as settling;
ghost use Rattle.model_authority.specs.Statuses as statuses;
ghost use Rattle.model_authority.specs.Ways as ways;
ghost use Rattle.model_values.specs.Limits.{most_judged};

use crate::kinds::Due;
use crate::room::is_total_full;
use crate::seek::{least, lowest};
use crate::settling::{Expired, HeldBack, Idle, Lapsed, Openable, Startable, Usable};
use model_authority::{has_target, is_closing, numbered, target, way};
use model_values::{
    AbstractPool, Act, Connection, Exchange, is_assign, is_evict, is_expire, is_lapse,
};
use net_base::{ConnNo, ExchangeNo, NoMem, StreamNo};
use std::alloc::Global;

// ---- what is due

/// The exchange that is to expire.
#[tactic(auto, unfolding(crate::specs::Due::expire_due))]
fn expire_due(s: &AbstractPool) -> Option<Due>
    ensures { result ≡ spec.expire_due s.now }
{
    match lowest(s.exchanges.as_slice(), &Expired(s)) {
        None => None,
        Some(number) => Some(Due::Expire(ExchangeNo(number))),
    }
}

/// The probe that is to lapse.
#[tactic(auto, unfolding(crate::specs::Due::lapse_due))]
fn lapse_due(s: &AbstractPool) -> Option<Due>
    ensures { result ≡ spec.lapse_due s.now }
{
    match lowest(s.exchanges.as_slice(), &Lapsed(s)) {
        None => None,
        Some(number) => Some(Due::Lapse(ExchangeNo(number))),
    }
}

/// The number of the next stream of a usable connection.
#[tactic(auto, using(crate::proofs::Assigned::next_within))]
fn next_stream(s: &AbstractPool, e: &Exchange, c: &Connection) -> StreamNo
    requires { IsTrue (ways.is_usable s.now e.now c.now) }
    ensures { result.0 ≡ c.now.next_stream }
{
    let _last = s.config.last_stream;
    StreamNo(c.next_stream as u32)
}

/// The exchange of this number gets this usable connection.
fn assign_by(s: &AbstractPool, number: u64, e: &Exchange, conn: u32, c: &Connection) -> Option<Due>
    requires { IsTrue (ways.is_usable s.now e.now c.now) }
    ensures { result ≡ spec.assign_by number conn c.now (ways.way_of s.now e.now c.now) }
{
    let stream = next_stream(s, e, c);
    match way(s, e, c) {
        None => None,
        Some(way) => Some(Due::Assign {
            exchange: ExchangeNo(number),
            conn: ConnNo(conn),
            stream,
            way,
        }),
    }
}

/// The exchange of this number gets the usable connection of that number.
fn assign_to(s: &AbstractPool, number: u64, e: &Exchange, conn: u64) -> Option<Due>
    requires usable { lists.Passes (settling.can_use s.now e.now) s.now.connections conn }
    requires within { conn ≤ most_judged }
    ensures { result ≡ spec.assign_to s.now number e.now conn (lists.numbered conn s.now.connections) }
{
    match numbered(conn, s.connections.as_slice()) {
        None => None,
        Some(c) => assign_by(s, number, e, conn as u32, c),
    }
}

/// The exchange of this number gets its lowest-numbered usable connection.
fn assign_over(s: &AbstractPool, number: u64, e: &Exchange) -> Option<Due>
    requires { length s.now.connections ≤ most_judged }
    ensures { result ≡ spec.assign_over s.now number e.now (spec.lowest_of (settling.can_use s.now e.now) s.now.connections) }
{
    match lowest(s.connections.as_slice(), &Usable { s, e }) {
        None => None,
        Some(conn) => assign_to(s, number, e, conn),
    }
}

/// The exchange of this number gets its lowest-numbered usable connection, where there is one.
#[tactic(auto, unfolding(crate::specs::Due::assign_of))]
fn assign_of(s: &AbstractPool, number: u64) -> Option<Due>
    requires { length s.now.connections ≤ most_judged }
    ensures { result ≡ spec.assign_of s.now number (lists.numbered number s.now.exchanges) }
{
    match numbered(number, s.exchanges.as_slice()) {
        None => None,
        Some(e) => assign_over(s, number, e),
    }
}

/// The stream that an exchange is to get.
#[tactic(auto, unfolding(crate::specs::Due::assign_due))]
fn assign_due(s: &AbstractPool) -> Option<Due>
    requires { length s.now.connections ≤ most_judged }
    ensures { result ≡ spec.assign_due s.now }
{
    match least(s.exchanges.as_slice(), &Startable(s)) {
        None => None,
        Some(best) => assign_of(s, best.number),
    }
}

/// The connection that is to be wanted.
#[tactic(auto, unfolding(crate::specs::Due::want_due))]
fn want_due(s: &AbstractPool) -> Option<Due>
    requires { length s.now.connections ≤ most_judged }
    ensures { result ≡ spec.want_due s.now }
{
    match least(s.exchanges.as_slice(), &Openable(s)) {
        None => None,
        Some(best) => Some(Due::Want {
            exchange: ExchangeNo(best.number),
            conn: ConnNo(s.connections.len() as u32 + 1),
        }),
    }
}

/// Whether one of these connections is told to close.
fn any_closing(list: &[Connection]) -> bool
    ensures { result ≡ list_any (λ c. statuses.is_closing c.phase) list.now }
{
    list.iter().any(|c| is_closing(c.phase))
}

/// Whether an exchange waits for the total alone.
fn any_held_back(s: &AbstractPool) -> bool
    ensures { result ≡ is_some (spec.lowest_of (settling.is_held_back s.now) s.now.exchanges) }
{
    lowest(s.exchanges.as_slice(), &HeldBack(s)).is_some()
}

/// Whether a connection has to make room.
#[tactic(auto, unfolding(crate::specs::Due::must_evict))]
fn must_evict(s: &AbstractPool) -> bool
    ensures { result ≡ spec.must_evict s.now }
{
    is_total_full(s) && !any_closing(s.connections.as_slice()) && any_held_back(s)
}

/// The connection that is idle for longest makes room.
fn evict_best(s: &AbstractPool) -> Option<Due>
    requires { length s.now.connections ≤ most_judged }
    ensures { result ≡ spec.evict_best (spec.least_of settling.is_idle settling.idle_since_of s.now.connections) }
{
    match least(s.connections.as_slice(), &Idle) {
        None => None,
        Some(best) => Some(Due::Evict(ConnNo(best.number as u32))),
    }
}

/// The connection that is to make room.
#[tactic(auto, unfolding(crate::specs::Due::evict_due))]
fn evict_due(s: &AbstractPool) -> Option<Due>
    requires { length s.now.connections ≤ most_judged }
    ensures { result ≡ spec.evict_due s.now }
{
    if must_evict(s) { evict_best(s) } else { None }
}

/// The first kind that applies.
#[tactic(auto, unfolding(crate::specs::Due::due_of))]
fn computed_due(s: &AbstractPool) -> Option<Due>
    requires { length s.now.connections ≤ most_judged }
    ensures { result ≡ spec.due_of s.now }
{
    let expire = expire_due(s);
    if expire.is_some() {
        return expire;
    }
    let lapse = lapse_due(s);
    if lapse.is_some() {
        return lapse;
    }
    let assign = assign_due(s);
    if assign.is_some() {
        return assign;
    }
    let want = want_due(s);
    if want.is_some() {
        return want;
    }
    evict_due(s)
}

/// What the pool is to do by itself: the first kind that applies, of a state with at most `MOST_JUDGED` connections. Takes no
/// memory.
pub fn next_due(s: &AbstractPool) -> Option<Due>
    requires { length s.now.connections ≤ most_judged }
    ensures computes { result ≡ spec.due_of s.now }
    ensures next { MatchOption result (settling.IsSettled s.now) (spec.IsNext s.now) }
{
    computed_due(s)
}

/// Whether the pool has nothing to do by itself.
pub fn is_settled(s: &AbstractPool) -> bool
    requires { length s.now.connections ≤ most_judged }
    ensures { IsTrue result ↔ settling.IsSettled s.now }
{
    match next_due(s) {
        None => true,
        Some(_) => false,
    }
}

// ---- what is due, as the history has it

/// The connection that is wanted for the exchange, as the history has it.
fn want_act(
    alloc: Global,
    s: &AbstractPool,
    exchange: ExchangeNo,
    conn: ConnNo,
) -> Result<Option<Act>, NoMem>
    ensures { IfOk result (λ a. a ≡ spec.want_act s.now exchange conn (lists.numbered exchange.0 s.now.exchanges)) }
{
    match numbered(exchange.0, s.exchanges.as_slice()) {
        None => Ok(None),
        Some(e) => Ok(Some(Act::Want {
            exchange,
            conn,
            target: target(alloc, s, e)?,
        })),
    }
}

/// What is due, as the history has it.
pub fn due_act(alloc: Global, s: &AbstractPool, d: Due) -> Result<Option<Act>, NoMem>
    ensures { IfOk result (λ a. a ≡ spec.act_of s.now d) }
{
    match d {
        Due::Expire(e) => Ok(Some(Act::Expire(e))),
        Due::Lapse(e) => Ok(Some(Act::Lapse(e))),
        Due::Assign {
            exchange,
            conn,
            stream,
            way,
        } => Ok(Some(Act::Assign {
            exchange,
            conn,
            stream,
            way,
        })),
        Due::Want { exchange, conn } => want_act(alloc, s, exchange, conn),
        Due::Evict(c) => Ok(Some(Act::Evict(c))),
    }
}

/// Whether the act is that this connection is wanted for the exchange, whose number is given.
fn is_want_for(
    s: &AbstractPool,
    e: &Exchange,
    number: ExchangeNo,
    opened: ConnNo,
    act: &Act,
) -> bool
    ensures { IsTrue result ↔ (Act.Want number opened (ways.target_of s.now e.now) ≡ act.now) }
{
    match act {
        Act::Want {
            exchange,
            conn,
            target,
        } => number == *exchange && opened == *conn && has_target(s, e, target),
        _ => false,
    }
}

/// Whether the act is that this connection is wanted for the exchange of this number.
fn is_want_act(s: &AbstractPool, exchange: ExchangeNo, conn: ConnNo, act: &Act) -> bool
    ensures { IsTrue result ↔ (spec.want_act s.now exchange conn (lists.numbered exchange.0 s.now.exchanges) ≡ Some act.now) }
{
    match numbered(exchange.0, s.exchanges.as_slice()) {
        None => false,
        Some(e) => is_want_for(s, e, exchange, conn, act),
    }
}

/// Whether the act is what is due, as the history has it. Takes no memory.
pub fn is_act(s: &AbstractPool, d: Due, act: &Act) -> bool
    ensures { IsTrue result ↔ (spec.act_of s.now d ≡ Some act.now) }
{
    match d {
        Due::Expire(e) => is_expire(act, e),
        Due::Lapse(e) => is_lapse(act, e),
        Due::Assign {
            exchange,
            conn,
            stream,
            way,
        } => is_assign(act, exchange, conn, stream, way),
        Due::Want { exchange, conn } => is_want_act(s, exchange, conn, act),
        Due::Evict(c) => is_evict(act, c),
    }
}
