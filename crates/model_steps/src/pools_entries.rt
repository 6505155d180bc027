// What the entries of the pool itself do to the state.
ghost use Rattle.std.specs.Prelude.{◌≡◌, OnOk, IfOk, Some};
ghost use Rattle.model_steps.specs.After as spec;
ghost use Rattle.model_changes.specs.Connections as connections;
ghost use Rattle.model_authority.specs.Lists.{edit};

use crate::calls::release;
use crate::exchanges::{end, lease, time_out};
use model_authority::{numbered, numbered_mut};
use model_changes::{closing, new_connection, with_start};
use model_values::{AbstractPool, Connection, Exchange, Outcome, Way};
use net_base::{ConnNo, ExchangeNo, Moment, NoMem, PlainValue, StreamNo, Target};
use partition_keys::GroupKey;
use std::alloc::Global;

/// The exchange's deadline is reached.
#[tactic(auto, unfolding(crate::specs::After::after_expire, model_authority::specs::Lists::edit, model_authority::specs::Lists::numbered))]
pub fn after_expire(alloc: Global, s: &mut AbstractPool, no: ExchangeNo) -> Result<(), NoMem>
    ensures { OnOk result (s.new ≡ spec.after_expire s.old no) }
{
    release(alloc, s, no)?;
    if let Some(e) = numbered_mut(s.exchanges.items.as_mut_slice(), no.0) {
        time_out(e);
    }
    Ok(())
}

/// The probe's origin has no alternative to ask.
#[tactic(auto, unfolding(crate::specs::After::after_lapse, model_authority::specs::Lists::edit, model_authority::specs::Lists::numbered))]
pub fn after_lapse(s: &mut AbstractPool, no: ExchangeNo)
    ensures { s.new ≡ spec.after_lapse s.old no }
{
    if let Some(e) = numbered_mut(s.exchanges.items.as_mut_slice(), no.0) {
        end(e, Outcome::NoAlternative);
    }
}

/// The exchange's start is ordered on this connection.
#[tactic(auto, unfolding(model_authority::specs::Lists::edit, model_authority::specs::Lists::numbered))]
fn start_on(
    alloc: Global,
    list: &mut [Connection],
    conn: ConnNo,
    last: u32,
    no: ExchangeNo,
    stream: StreamNo,
) -> Result<(), NoMem>
    ensures { OnOk result (list.new ≡ edit conn.0 (connections.with_start last no stream) list.old) }
{
    match numbered_mut(list, u64::from(conn.0)) {
        None => Ok(()),
        Some(c) => with_start(alloc, c, last, no, stream),
    }
}

/// The exchange gets a stream of a connection.
#[tactic(auto, unfolding(crate::specs::After::after_assign, model_authority::specs::Lists::edit, model_authority::specs::Lists::numbered))]
pub fn after_assign(
    alloc: Global,
    s: &mut AbstractPool,
    no: ExchangeNo,
    conn: ConnNo,
    stream: StreamNo,
    way: Way,
) -> Result<(), NoMem>
    ensures { OnOk result (s.new ≡ spec.after_assign s.old no conn stream way) }
{
    let last = s.config.last_stream;
    start_on(
        alloc,
        s.connections.items.as_mut_slice(),
        conn,
        last,
        no,
        stream,
    )?;
    if let Some(e) = numbered_mut(s.exchanges.items.as_mut_slice(), no.0) {
        lease(e, conn, stream, way);
    }
    Ok(())
}

/// A connection that is wanted for this exchange.
fn wanted_connection(
    alloc: Global,
    e: &Exchange,
    no: ExchangeNo,
    target: &Target,
    now: Moment,
) -> Result<Connection, NoMem>
    ensures { IfOk result (λ c. c ≡ spec.wanted_connection e.now no target.now now) }
{
    let group = GroupKey {
        key: e.ask.key.copy(alloc)?,
        credentials: e.ask.credentials,
        origin: e.ask.request.origin.copy(alloc)?,
        target: target.copy(alloc)?,
    };
    Ok(new_connection(group, Some(no), now))
}

/// A connection is wanted for the exchange.
#[tactic(auto, unfolding(crate::specs::After::after_want))]
pub fn after_want(
    alloc: Global,
    s: &mut AbstractPool,
    no: ExchangeNo,
    target: &Target,
) -> Result<(), NoMem>
    ensures { OnOk result (s.new ≡ spec.after_want s.old no target.now) }
{
    let wanted = match numbered(no.0, s.exchanges.as_slice()) {
        None => return Ok(()),
        Some(e) => wanted_connection(alloc, e, no, target, s.latest)?,
    };
    s.connections.push(wanted)
}

/// An idle connection makes room.
#[tactic(auto, unfolding(crate::specs::After::after_evict, model_authority::specs::Lists::edit, model_authority::specs::Lists::numbered))]
pub fn after_evict(alloc: Global, s: &mut AbstractPool, conn: ConnNo) -> Result<(), NoMem>
    ensures { OnOk result (s.new ≡ spec.after_evict s.old conn) }
{
    match numbered_mut(s.connections.items.as_mut_slice(), u64::from(conn.0)) {
        None => Ok(()),
        Some(c) => closing(alloc, c),
    }
}
