// Which exchanges and connections the pool is to do something about by itself.
ghost use Rattle.std.specs.Prelude.{◌≡◌};
ghost use Rattle.std.specs.List.{list_any};
ghost use Rattle.model_settling.specs.Settling as spec;
ghost use Rattle.model_authority.specs.Ways as ways;

use crate::room::{eligible, has_room, has_room_but_total};
use crate::seek::{Ranks, Seeks};
use model_authority::{alternatives, has_ended, is_h2, is_nil, is_open, is_usable, is_waiting};
use model_values::{AbstractPool, Connection, Exchange};
use net_base::Moment;
use partition_keys::{Alternative, is_fresh};

/// Whether there is a deadline, and it is reached.
fn has_passed(m: Moment, deadline: Option<Moment>) -> bool
    ensures { result ≡ spec.has_passed m deadline }
{
    match deadline {
        None => false,
        Some(deadline) => deadline.0 <= m.0,
    }
}

/// The exchanges that have no end, and whose deadline is reached.
#[derive(Drop)]
pub struct Expired<'s>(pub &'s AbstractPool);

impl Seeks<Exchange> for Expired<'_> {
    ghost test = { λ sought. spec.has_expired sought.0.now };

    fn passes(&self, _number: u64, e: &Exchange) -> bool {
        !has_ended(&e.status) && has_passed(self.0.latest, e.ask.deadline)
    }
}

/// Whether the alternative is HTTP/2 and may be used at this moment.
fn is_fresh_h2(m: Moment, a: &Alternative) -> bool
    ensures { result ≡ spec.is_fresh_h2 m a.now }
{
    is_h2(a.proto) && is_fresh(a, m)
}

/// Whether one of these alternatives is HTTP/2 and may be used at this moment.
fn any_fresh_h2(m: Moment, list: &[Alternative]) -> bool
    ensures { result ≡ list_any (spec.is_fresh_h2 m) list.now }
{
    list.iter().any(|a| is_fresh_h2(m, a))
}

/// The waiting probes whose origin has no fresh HTTP/2 alternative.
#[derive(Drop)]
pub struct Lapsed<'s>(pub &'s AbstractPool);

impl Seeks<Exchange> for Lapsed<'_> {
    ghost test = { λ sought. spec.has_lapsed sought.0.now };

    fn passes(&self, _number: u64, e: &Exchange) -> bool {
        let s = self.0;
        is_waiting(&e.status)
            && e.ask.probe
            && !any_fresh_h2(s.latest, alternatives(s, &e.ask.key, &e.ask.request.origin))
    }
}

/// The connections that the exchange may use.
#[derive(Drop)]
pub struct Usable<'s> {
    pub s: &'s AbstractPool,
    pub e: &'s Exchange,
}

impl Seeks<Connection> for Usable<'_> {
    ghost test = { λ sought. spec.can_use sought.s.now sought.e.now };

    fn passes(&self, _number: u64, c: &Connection) -> bool {
        is_usable(self.s, self.e, c)
    }
}

/// Whether the exchange has a usable connection.
fn any_usable(s: &AbstractPool, e: &Exchange) -> bool
    ensures { result ≡ list_any (ways.is_usable s.now e.now) s.now.connections }
{
    s.connections.as_slice().iter().any(|c| is_usable(s, e, c))
}

/// The eligible exchanges that have a usable connection, ranked by their urgency.
#[derive(Drop)]
pub struct Startable<'s>(pub &'s AbstractPool);

impl Seeks<Exchange> for Startable<'_> {
    ghost test = { λ sought. spec.can_start sought.0.now };

    fn passes(&self, _number: u64, e: &Exchange) -> bool {
        eligible(self.0, e) && any_usable(self.0, e)
    }
}

impl Ranks<Exchange> for Startable<'_> {
    ghost key = { λ _. spec.urgency_of };

    fn key_of(&self, e: &Exchange) -> u64 {
        u64::from(e.ask.urgency)
    }
}

/// The eligible exchanges that may have a new connection, ranked by their urgency.
#[derive(Drop)]
pub struct Openable<'s>(pub &'s AbstractPool);

impl Seeks<Exchange> for Openable<'_> {
    ghost test = { λ sought. spec.can_open sought.0.now };

    fn passes(&self, number: u64, e: &Exchange) -> bool {
        eligible(self.0, e) && has_room(self.0, number, e)
    }
}

impl Ranks<Exchange> for Openable<'_> {
    ghost key = { λ _. spec.urgency_of };

    fn key_of(&self, e: &Exchange) -> u64 {
        u64::from(e.ask.urgency)
    }
}

/// The exchanges that wait for the total alone.
#[derive(Drop)]
pub struct HeldBack<'s>(pub &'s AbstractPool);

impl Seeks<Exchange> for HeldBack<'_> {
    ghost test = { λ sought. spec.is_held_back sought.0.now };

    fn passes(&self, number: u64, e: &Exchange) -> bool {
        eligible(self.0, e) && has_room_but_total(self.0, number, e)
    }
}

/// The connections that are open and carry nothing, ranked by how long.
#[derive(Drop)]
pub struct Idle;

impl Seeks<Connection> for Idle {
    ghost test = { λ _. spec.is_idle };

    fn passes(&self, _number: u64, c: &Connection) -> bool {
        is_open(c.phase) && is_nil(c.live.as_slice())
    }
}

impl Ranks<Connection> for Idle {
    ghost key = { λ _. spec.idle_since_of };

    fn key_of(&self, c: &Connection) -> u64 {
        c.idle_since.0
    }
}
