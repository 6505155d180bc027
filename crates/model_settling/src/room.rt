// Which exchange may have a lease, and which a new connection.
ghost use Rattle.std.specs.Prelude.{◌≡◌, min};
ghost use Rattle.std.specs.List.{list_all, list_any};
ghost use Rattle.partition_keys.specs.Equality as equality;
ghost use Rattle.model_settling.specs.Room as spec;
ghost use Rattle.model_authority.specs.Ways as ways;

use crate::counts::{
    background_leases, count_in_group, count_total, in_group, is_opening_in, openings_of,
};
use model_authority::{
    GroupParts, group_parts, has_ended, is_h2, is_open, is_waiting, parts_of_group, same_group,
    speaks_h2,
};
use model_values::{AbstractPool, Connection, Exchange, MOST_CONNECTIONS, ProtoRow};
use net_base::{ExchangeNo, Via};

// ---- eligible

/// Whether the exchange is in the background or has ended.
fn holds_nothing_back(e: &Exchange) -> bool
    ensures { result ≡ spec.holds_nothing_back e.now }
{
    e.ask.background || has_ended(&e.status)
}

/// Whether each of these exchanges is in the background or has ended.
fn all_hold_nothing_back(list: &[Exchange]) -> bool
    ensures { result ≡ list_all spec.holds_nothing_back list.now }
{
    list.iter().all(holds_nothing_back)
}

/// Whether an exchange in the background may have a lease.
#[tactic(auto, unfolding(crate::specs::Room::may_background_start))]
fn may_background_start(s: &AbstractPool) -> bool
    ensures { result ≡ spec.may_background_start s.now }
{
    all_hold_nothing_back(s.exchanges.as_slice())
        || background_leases(s) < s.config.background as usize
}

/// Whether the exchange waits, and isn't held back in the background.
#[tactic(auto, unfolding(crate::specs::Room::is_eligible))]
pub fn eligible(s: &AbstractPool, e: &Exchange) -> bool
    ensures { result ≡ spec.is_eligible s.now e.now }
{
    is_waiting(&e.status) && (!e.ask.background || may_background_start(s))
}

// ---- room

/// Whether the target is an HTTP/2 alternative.
fn is_h2_via(via: Via) -> bool
    ensures { result ≡ spec.is_h2_via via }
{
    match via {
        Via::Direct => false,
        Via::Alternative(proto) => is_h2(proto),
    }
}

/// Whether the row says that the group's last connection spoke HTTP/2.
fn is_last_h2(g: &GroupParts, row: &ProtoRow) -> bool
    ensures { result ≡ spec.is_last_h2 g.now row.now }
{
    same_group(&parts_of_group(&row.group), g) && is_h2(row.proto)
}

/// Whether some row says that the group's last connection spoke HTTP/2.
fn any_last_h2(g: &GroupParts, rows: &[ProtoRow]) -> bool
    ensures { result ≡ list_any (spec.is_last_h2 g.now) rows.now }
{
    rows.iter().any(|row| is_last_h2(g, row))
}

/// Whether the group goes to an HTTP/2 alternative, or its last connection spoke HTTP/2.
#[tactic(auto, unfolding(crate::specs::Room::expects_h2))]
pub fn expects_h2(s: &AbstractPool, g: &GroupParts) -> bool
    ensures { result ≡ spec.expects_h2 s.now g.now }
{
    is_h2_via(g.target.via) || any_last_h2(g, s.protos.as_slice())
}

/// Whether the connection is open, speaks HTTP/2 and has this group.
fn is_open_h2_in(g: &GroupParts, c: &Connection) -> bool
    ensures { result ≡ spec.is_open_h2_in g.now c.now }
{
    is_open(c.phase) && speaks_h2(c) && in_group(g, c)
}

/// Whether an HTTP/2 connection of the group is open.
#[tactic(auto, unfolding(crate::specs::Room::has_open_h2))]
pub fn has_open_h2(s: &AbstractPool, g: &GroupParts) -> bool
    ensures { result ≡ spec.has_open_h2 s.now g.now }
{
    s.connections.as_slice().iter().any(|c| is_open_h2_in(g, c))
}

/// Whether the connection was wanted for the exchange of this number.
fn is_number(number: u64, wanted_for: Option<ExchangeNo>) -> bool
    ensures { result ≡ spec.is_number number wanted_for }
{
    match wanted_for {
        None => false,
        Some(e) => e.0 == number,
    }
}

/// Whether the connection is an opening of the group for the exchange of this number.
fn is_opening_for(number: u64, g: &GroupParts, c: &Connection) -> bool
    ensures { result ≡ spec.is_opening_for number g.now c.now }
{
    is_number(number, c.wanted_for) && is_opening_in(g, c)
}

/// Whether an opening of the group is for the exchange of this number.
#[tactic(auto, unfolding(crate::specs::Room::has_opening_for))]
pub fn has_opening_for(s: &AbstractPool, number: u64, g: &GroupParts) -> bool
    ensures { result ≡ spec.has_opening_for s.now number g.now }
{
    s.connections
        .as_slice()
        .iter()
        .any(|c| is_opening_for(number, g, c))
}

/// Whether the exchange has this group.
pub fn has_group(s: &AbstractPool, e: &Exchange, g: &GroupParts) -> bool
    ensures { result ≡ equality.same_group (ways.group_of s.now e.now) g.now }
{
    same_group(&group_parts(s, e), g)
}

/// Whether the exchange is eligible and has this group.
fn is_eligible_in(s: &AbstractPool, g: &GroupParts, e: &Exchange) -> bool
    ensures { result ≡ spec.is_eligible_in s.now g.now e.now }
{
    eligible(s, e) && has_group(s, e, g)
}

/// How many exchanges of a group are eligible.
#[tactic(auto, unfolding(crate::specs::Room::eligible_in))]
pub fn eligible_in(s: &AbstractPool, g: &GroupParts) -> usize
    ensures { result ≡ spec.eligible_in s.now g.now }
{
    s.exchanges
        .as_slice()
        .iter()
        .filter(|e| is_eligible_in(s, g, e))
        .count()
}

/// How many openings the group may have.
#[tactic(auto, unfolding(crate::specs::Room::openings_wanted))]
pub fn openings_wanted(s: &AbstractPool, g: &GroupParts) -> usize
    ensures { result ≡ spec.openings_wanted s.now g.now }
{
    if expects_h2(s, g) {
        1
    } else {
        eligible_in(s, g)
    }
}

/// Whether one more connection may be made at all.
pub fn has_numbers(s: &AbstractPool) -> bool
    ensures { result ≡ spec.has_numbers s.now }
{
    s.connections.len() < MOST_CONNECTIONS
}

/// Whether there are as many connections as there may be in all.
pub fn is_total_full(s: &AbstractPool) -> bool
    ensures { result ≡ spec.is_total_full s.now }
{
    s.config.total as usize <= count_total(s)
}

/// Whether the group allows the exchange of this number a new connection.
#[tactic(auto, unfolding(crate::specs::Room::has_room_in))]
fn has_room_in(s: &AbstractPool, number: u64, g: &GroupParts) -> bool
    ensures { result ≡ spec.has_room_in s.now number g.now }
{
    count_in_group(s, g) < s.config.per_group as usize
        && !has_open_h2(s, g)
        && !has_opening_for(s, number, g)
        && openings_of(s, g) < openings_wanted(s, g)
}

/// Whether the exchange of this number might have a new connection were the total not full.
#[tactic(auto, unfolding(crate::specs::Room::has_room_but_total))]
pub fn has_room_but_total(s: &AbstractPool, number: u64, e: &Exchange) -> bool
    ensures { result ≡ spec.has_room_but_total s.now number e.now }
{
    has_numbers(s) && has_room_in(s, number, &group_parts(s, e))
}

/// Whether the exchange of this number may have a new connection.
#[tactic(auto, unfolding(crate::specs::Room::has_room))]
pub fn has_room(s: &AbstractPool, number: u64, e: &Exchange) -> bool
    ensures { result ≡ spec.has_room s.now number e.now }
{
    !is_total_full(s) && has_room_but_total(s, number, e)
}

// ---- opening ahead

/// How many connections of a group there is room for.
#[tactic(auto, unfolding(crate::specs::Room::room_left))]
fn room_left(s: &AbstractPool, g: &GroupParts) -> usize
    ensures { result ≡ spec.room_left s.now g.now }
{
    let in_all = (s.config.total as usize).saturating_sub(count_total(s));
    let in_group = (s.config.per_group as usize).saturating_sub(count_in_group(s, g));
    let numbers = MOST_CONNECTIONS.saturating_sub(s.connections.len());
    in_all.min(in_group).min(numbers)
}

/// How many are asked for, or how many there is room for where that is less.
fn at_most(count: u32, room: usize) -> u32
    ensures { result ≡ min count room }
{
    if (count as usize) <= room {
        count
    } else {
        room as u32
    }
}

/// How many are opened ahead: none beside an open HTTP/2 connection, at most one where HTTP/2 is expected.
fn plan_of(count: u32, room: usize, expects: bool, openings: usize, open_h2: bool) -> u32
    ensures { result ≡ spec.plan_of count room expects openings open_h2 }
{
    if open_h2 {
        0
    } else if expects {
        at_most(at_most(count, room), 1usize.saturating_sub(openings))
    } else {
        at_most(count, room)
    }
}

/// How many of the connections asked for are opened ahead.
#[tactic(auto, unfolding(crate::specs::Room::planned))]
pub fn planned(s: &AbstractPool, g: &GroupParts, count: u32) -> u32
    ensures { result ≡ spec.planned s.now g.now count }
{
    plan_of(
        count,
        room_left(s, g),
        expects_h2(s, g),
        openings_of(s, g),
        has_open_h2(s, g),
    )
}
