// Which target an exchange has, and which connection it may use by which right.
ghost use Rattle.std.specs.Prelude.{◌≡◌, ◌↔◌, IsTrue, IfOk, find};
ghost use Rattle.std.specs.List.{list_any};
ghost use Rattle.std.specs.Option.{option_copied};
ghost use Rattle.std.specs.Str.{bytes_eq};
ghost use Rattle.net_base.specs.Equality as base;
ghost use Rattle.model_authority.specs.Statuses as statuses;
ghost use Rattle.model_authority.specs.Ways as spec;

use crate::keys::{
    GroupParts, TargetParts, build_target, parts_of_target, same_bool, same_key, same_octets,
    same_origin, same_proto, same_target,
};
use crate::statuses::{is_h2, is_open, speaks_h2};
use model_values::{AbstractPool, AltRow, Config, Connection, Exchange, HostRow, Way};
use net_base::{Identity, Moment, NoMem, Octets, Origin, Scheme, Target, Via};
use partition_keys::{Alternative, PartitionKey, is_fresh};
use peer_identity::covers;
use std::alloc::Global;

// ---- targets

/// Whether it is https.
pub fn is_https(scheme: Scheme) -> bool
    ensures { result ≡ spec.is_https scheme }
{
    scheme == Scheme::Https
}

/// The parts of an origin's own target.
pub fn origin_parts(o: &Origin) -> TargetParts
    ensures { result ≡ spec.origin_target o.now }
{
    TargetParts {
        host: &o.host,
        port: o.port,
        secure: is_https(o.scheme),
        via: Via::Direct,
    }
}

/// The parts of an alternative's target.
pub fn alternative_parts(a: &Alternative) -> TargetParts
    ensures { result ≡ spec.alternative_target a.now }
{
    TargetParts {
        host: &a.host,
        port: a.port,
        secure: true,
        via: Via::Alternative(a.proto),
    }
}

/// Whether the row has the alternatives of this origin in this partition.
pub fn is_row_of(key: &PartitionKey, origin: &Origin, row: &AltRow) -> bool
    ensures { result ≡ spec.is_row_of key.now origin.now row.now }
{
    same_key(&row.key, key) && same_origin(&row.origin, origin)
}

/// The row of this origin in this partition.
fn alternative_row<'a>(
    rows: &'a [AltRow],
    key: &PartitionKey,
    origin: &Origin,
) -> Option<&'a AltRow>
    ensures { option_copied result ≡ find (spec.is_row_of key.now origin.now) rows.now }
{
    rows.iter().find(|row| is_row_of(key, origin, row))
}

/// The alternatives of an origin in a partition, in the order in which the server listed them.
#[tactic(auto, unfolding(crate::specs::Ways::alternatives_of))]
pub fn alternatives<'a>(
    s: &'a AbstractPool,
    key: &PartitionKey,
    origin: &Origin,
) -> &'a [Alternative]
    ensures { result.now ≡ spec.alternatives_of s.now key.now origin.now }
{
    match alternative_row(s.alternatives.as_slice(), key, origin) {
        Some(row) => row.list.as_slice(),
        None => &[],
    }
}

/// Whether an http exchange may go over the alternative (RFC 8164, sections 2 and 2.1).
fn is_opportune(m: Moment, probe: bool, a: &Alternative) -> bool
    ensures { result ≡ spec.is_opportune m probe a.now }
{
    is_h2(a.proto) && (m.0 < a.proven_until.0 || probe)
}

/// Whether an exchange of this origin may go over the alternative.
fn may_take(m: Moment, origin: &Origin, probe: bool, a: &Alternative) -> bool
    ensures { result ≡ spec.may_take m origin.now probe a.now }
{
    is_fresh(a, m) && (is_https(origin.scheme) || is_opportune(m, probe, a))
}

/// The first of these alternatives that an exchange of this origin may go over.
fn first_taken<'a>(
    m: Moment,
    origin: &Origin,
    probe: bool,
    list: &'a [Alternative],
) -> Option<&'a Alternative>
    ensures { option_copied result ≡ find (spec.may_take m origin.now probe) list.now }
{
    list.iter().find(|a| may_take(m, origin, probe, a))
}

/// The first alternative, in the server's order, that an exchange of this origin may go over.
#[tactic(auto, unfolding(crate::specs::Ways::chosen_alternative))]
pub fn chosen<'a>(
    s: &'a AbstractPool,
    key: &PartitionKey,
    origin: &Origin,
    probe: bool,
) -> Option<&'a Alternative>
    ensures { option_copied result ≡ spec.chosen_alternative s.now key.now origin.now probe }
{
    first_taken(s.latest, origin, probe, alternatives(s, key, origin))
}

/// The parts of the target of this origin's exchanges (RFC 7838, section 2.4).
#[tactic(auto, unfolding(crate::specs::Ways::target_for))]
pub fn target_parts_for<'a>(
    s: &'a AbstractPool,
    key: &PartitionKey,
    origin: &'a Origin,
    probe: bool,
) -> TargetParts<'a>
    ensures { result ≡ spec.target_for s.now key.now origin.now probe }
{
    match chosen(s, key, origin, probe) {
        None => origin_parts(origin),
        Some(a) => alternative_parts(a),
    }
}

/// The parts of the exchange's target.
#[tactic(auto, unfolding(crate::specs::Ways::target_of))]
pub fn target_parts<'a>(s: &'a AbstractPool, e: &'a Exchange) -> TargetParts<'a>
    ensures { result ≡ spec.target_of s.now e.now }
{
    let origin = &e.ask.request.origin;
    if e.direct_only {
        origin_parts(origin)
    } else {
        target_parts_for(s, &e.ask.key, origin, e.ask.probe)
    }
}

/// The parts of the exchange's group.
#[tactic(auto, unfolding(crate::specs::Ways::group_of))]
pub fn group_parts<'a>(s: &'a AbstractPool, e: &'a Exchange) -> GroupParts<'a>
    ensures { result ≡ spec.group_of s.now e.now }
{
    GroupParts {
        key: &e.ask.key,
        credentials: e.ask.credentials,
        origin: &e.ask.request.origin,
        target: target_parts(s, e),
    }
}

/// Where this origin's exchanges are to go (RFC 7838, section 2.4).
pub fn target_for(
    alloc: Global,
    s: &AbstractPool,
    key: &PartitionKey,
    origin: &Origin,
    probe: bool,
) -> Result<Target, NoMem>
    ensures { IfOk result (λ t. t ≡ spec.target_for s.now key.now origin.now probe) }
{
    build_target(alloc, &target_parts_for(s, key, origin, probe))
}

/// Where the exchange is to go.
pub fn target(alloc: Global, s: &AbstractPool, e: &Exchange) -> Result<Target, NoMem>
    ensures { IfOk result (λ t. t ≡ spec.target_of s.now e.now) }
{
    build_target(alloc, &target_parts(s, e))
}

/// Whether the exchange is to go there.
pub fn has_target(s: &AbstractPool, e: &Exchange, t: &Target) -> bool
    ensures { IsTrue result ↔ (spec.target_of s.now e.now ≡ t.now) }
{
    same_target(&target_parts(s, e), &parts_of_target(t))
}

// ---- ways

/// Whether the connection is secured, and its other side is the authority for the host (RFC 9110, section 4.3.4).
#[tactic(auto, unfolding(crate::specs::Ways::is_secured_for))]
pub fn secured_for(id: &Identity, host: &Octets) -> bool
    ensures { result ≡ spec.is_secured_for host.now id.now }
{
    id.secure && covers(id, host.as_slice())
}

/// Whether the partition keys and the credentials are equal (Fetch Standard, connections).
#[tactic(auto, unfolding(crate::specs::Ways::shares_partition))]
pub fn shares_partition(e: &Exchange, c: &Connection) -> bool
    ensures { result ≡ spec.shares_partition e.now c.now }
{
    same_key(&c.group.key, &e.ask.key) && same_bool(c.group.credentials, e.ask.credentials)
}

/// Whether the identity was shown, is secured, and is the authority for the host.
fn shows_secured(identity: &Option<Identity>, host: &Octets) -> bool
    ensures { result ≡ statuses.shows (spec.is_secured_for host.now) identity.now }
{
    match identity {
        Some(id) => secured_for(id, host),
        None => false,
    }
}

/// Whether the connection goes to the exchange's origin itself, and may (RFC 9110, section 4.3).
#[tactic(auto, unfolding(crate::specs::Ways::is_direct))]
pub fn is_direct(e: &Exchange, c: &Connection) -> bool
    ensures { result ≡ spec.is_direct e.now c.now }
{
    let origin = &e.ask.request.origin;
    same_target(&parts_of_target(&c.group.target), &origin_parts(origin))
        && (!is_https(origin.scheme) || shows_secured(&c.identity, &origin.host))
}

/// Whether the identity was shown, speaks the alternative's protocol, and is the authority for the host.
fn shows_strong(identity: &Option<Identity>, a: &Alternative, host: &Octets) -> bool
    ensures { result ≡ statuses.shows (spec.is_strong_for a.now host.now) identity.now }
{
    match identity {
        Some(id) => same_proto(id.proto, a.proto) && secured_for(id, host),
        None => false,
    }
}

/// Whether the origins let the exchange share the alternative's connection (RFC 8164, section 2.2).
fn may_share_alternative(m: Moment, e: &Exchange, c: &Connection, a: &Alternative) -> bool
    ensures { result ≡ spec.may_share_alternative m e.now c.now a.now }
{
    let origin = &e.ask.request.origin;
    (is_https(c.group.origin.scheme) && is_https(origin.scheme))
        || (!is_https(origin.scheme)
            && same_origin(&c.group.origin, origin)
            && is_opportune(m, e.ask.probe, a))
}

/// Whether the connection goes to this alternative, over which the exchange may go.
fn goes_over(m: Moment, e: &Exchange, c: &Connection, a: &Alternative) -> bool
    ensures { result ≡ spec.goes_over m e.now c.now a.now }
{
    is_fresh(a, m)
        && same_target(&parts_of_target(&c.group.target), &alternative_parts(a))
        && shows_strong(&c.identity, a, &e.ask.request.origin.host)
        && may_share_alternative(m, e, c, a)
}

/// Whether the connection goes to one of these alternatives, over which the exchange may go.
fn any_goes_over(list: &[Alternative], m: Moment, e: &Exchange, c: &Connection) -> bool
    ensures { result ≡ list_any (spec.goes_over m e.now c.now) list.now }
{
    list.iter().any(|a| goes_over(m, e, c, a))
}

/// Whether the connection goes to a fresh alternative of the exchange's origin in its partition (RFC 7838, section
/// 2.4).
#[tactic(auto, unfolding(crate::specs::Ways::is_alternative))]
pub fn is_alternative(s: &AbstractPool, e: &Exchange, c: &Connection) -> bool
    ensures { result ≡ spec.is_alternative s.now e.now c.now }
{
    let list = alternatives(s, &e.ask.key, &e.ask.request.origin);
    any_goes_over(list, s.latest, e, c)
}

/// Whether the row has the addresses of this host in this partition.
pub fn is_host_row_of(key: &PartitionKey, host: &Octets, row: &HostRow) -> bool
    ensures { result ≡ spec.is_host_row_of key.now host.now row.now }
{
    same_key(&row.key, key) && same_octets(&row.host, host)
}

/// The row of this host in this partition.
fn host_row<'a>(rows: &'a [HostRow], key: &PartitionKey, host: &Octets) -> Option<&'a HostRow>
    ensures { option_copied result ≡ find (spec.is_host_row_of key.now host.now) rows.now }
{
    rows.iter().find(|row| is_host_row_of(key, host, row))
}

/// The addresses that were noted for a host in a partition.
#[tactic(auto, unfolding(crate::specs::Ways::addresses_of))]
pub fn addresses<'a>(s: &'a AbstractPool, key: &PartitionKey, host: &Octets) -> &'a [[u8; 16]]
    ensures { result.now ≡ spec.addresses_of s.now key.now host.now }
{
    match host_row(s.addresses.as_slice(), key, host) {
        Some(row) => row.list.as_slice(),
        None => &[],
    }
}

/// Whether the address is one of these.
fn has_address(list: &[[u8; 16]], address: &[u8; 16]) -> bool
    ensures { result ≡ list_any (λ a. bytes_eq a address.now) list.now }
{
    list.iter().any(|a| *a == *address)
}

/// Whether the identity may serve the exchange's origin at one of its addresses (RFC 9113, section 9.1.1; RFC 9110,
/// section 4.3.3).
fn may_serve(s: &AbstractPool, e: &Exchange, id: &Identity) -> bool
    ensures { result ≡ spec.may_serve s.now e.now id.now }
{
    let host = &e.ask.request.origin.host;
    is_h2(id.proto)
        && secured_for(id, host)
        && has_address(addresses(s, &e.ask.key, host), &id.address)
}

/// Whether the identity was shown, and may serve the exchange's origin.
fn shows_server(s: &AbstractPool, e: &Exchange, identity: &Option<Identity>) -> bool
    ensures { result ≡ statuses.shows (spec.may_serve s.now e.now) identity.now }
{
    match identity {
        Some(id) => may_serve(s, e, id),
        None => false,
    }
}

/// Whether the origin is one of these.
fn is_excluded(list: &[Origin], origin: &Origin) -> bool
    ensures { result ≡ list_any (λ o. base.same_origin o origin.now) list.now }
{
    list.iter().any(|o| same_origin(o, origin))
}

/// Whether the exchange may share a connection that was opened for an https origin (RFC 9113, section 9.1.1; RFC 9110,
/// section 4.3.3).
#[tactic(auto, unfolding(crate::specs::Ways::is_coalesced))]
pub fn is_coalesced(s: &AbstractPool, e: &Exchange, c: &Connection) -> bool
    ensures { result ≡ spec.is_coalesced s.now e.now c.now }
{
    let origin = &e.ask.request.origin;
    is_https(origin.scheme)
        && is_https(c.group.origin.scheme)
        && c.group.target.port == origin.port
        && shows_server(s, e, &c.identity)
        && !is_excluded(c.excluded.as_slice(), origin)
}

/// Whether the exchange is no probe, and the connection goes to its origin itself.
fn may_go_directly(e: &Exchange, c: &Connection) -> bool
    ensures { result ≡ spec.may_go_directly e.now c.now }
{
    !e.ask.probe && is_direct(e, c)
}

/// Whether the exchange takes alternatives, and the connection goes to one.
fn may_go_by_alternative(s: &AbstractPool, e: &Exchange, c: &Connection) -> bool
    ensures { result ≡ spec.may_go_by_alternative s.now e.now c.now }
{
    !e.direct_only && is_alternative(s, e, c)
}

/// Whether the exchange is no probe and takes more than its origin itself, and may share the connection.
fn may_coalesce(s: &AbstractPool, e: &Exchange, c: &Connection) -> bool
    ensures { result ≡ spec.may_coalesce s.now e.now c.now }
{
    !e.ask.probe && !e.direct_only && is_coalesced(s, e, c)
}

/// Whether the exchange may use the connection in some way.
#[tactic(auto, unfolding(crate::specs::Ways::has_way))]
pub fn has_way(s: &AbstractPool, e: &Exchange, c: &Connection) -> bool
    ensures { result ≡ spec.has_way s.now e.now c.now }
{
    shares_partition(e, c)
        && (may_go_directly(e, c) || may_go_by_alternative(s, e, c) || may_coalesce(s, e, c))
}

/// The way in which the exchange may use the connection: the first that holds.
#[tactic(auto, unfolding(crate::specs::Ways::way_of))]
pub fn way(s: &AbstractPool, e: &Exchange, c: &Connection) -> Option<Way>
    ensures { result ≡ spec.way_of s.now e.now c.now }
{
    if !shares_partition(e, c) {
        return None;
    }
    if may_go_directly(e, c) {
        return Some(Way::Direct);
    }
    if may_go_by_alternative(s, e, c) {
        return Some(Way::Alternative);
    }
    if may_coalesce(s, e, c) {
        return Some(Way::Coalesced);
    }
    None
}

// ---- capacity

/// Whether the connection may carry one exchange more (RFC 9113, section 5.1.2).
fn has_free_place(config: &Config, c: &Connection) -> bool
    ensures { result ≡ spec.has_free_place config.now c.now }
{
    if speaks_h2(c) {
        c.live.len() < config.streams.min(c.peer_limit) as usize
    } else {
        c.live.len() == 0
    }
}

/// Whether the connection may carry one exchange more, and has a number for its stream.
#[tactic(auto, unfolding(crate::specs::Ways::has_capacity))]
pub fn has_capacity(config: &Config, c: &Connection) -> bool
    ensures { result ≡ spec.has_capacity config.now c.now }
{
    c.next_stream <= u64::from(config.last_stream) && has_free_place(config, c)
}

/// Whether the connection is open, there is capacity, and some way holds.
#[tactic(auto, unfolding(crate::specs::Ways::is_usable))]
pub fn is_usable(s: &AbstractPool, e: &Exchange, c: &Connection) -> bool
    ensures { result ≡ spec.is_usable s.now e.now c.now }
{
    is_open(c.phase) && has_capacity(&s.config, c) && has_way(s, e, c)
}
