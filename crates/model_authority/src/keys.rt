// Targets and groups by their parts, which take no memory.
ghost use Rattle.std.specs.Prelude.{◌≡◌, ◌↔◌, IsTrue, IfOk};
ghost use Rattle.std.specs.Str.{bytes_eq};
ghost use Rattle.net_base.specs.Equality as base;
ghost use Rattle.partition_keys.specs.Equality as spec;

use net_base::{NoMem, Octets, Origin, PlainValue, Proto, Scheme, Target, Via};
use partition_keys::{GroupKey, PartitionKey, Site};
use std::alloc::Global;
use std::marker::Model;

/// A target by its parts. Contracts see it as the target.
#[derive(Drop)]
pub struct TargetParts<'a> {
    pub host: &'a Octets,
    pub port: u16,
    pub secure: bool,
    pub via: Via,
}

impl<'a> Model for TargetParts<'a> {
    ghost use Rattle.net_base.specs.declared.target.Target.{Target};

    ghost Value = { Target };

    ghost view = { λ t. record { host = t.host.now; port = t.port; secure = t.secure; via = t.via } };
}

/// A group by its parts. Contracts see it as the group's key.
#[derive(Drop)]
pub struct GroupParts<'a> {
    pub key: &'a PartitionKey,
    pub credentials: bool,
    pub origin: &'a Origin,
    pub target: TargetParts<'a>,
}

impl<'a> Model for GroupParts<'a> {
    ghost use Rattle.partition_keys.specs.declared.group.GroupKey.{GroupKey};

    ghost Value = { GroupKey };

    ghost view = { λ g. record { key = g.key.now; credentials = g.credentials; origin = g.origin.now; target = g.target } };
}

/// The parts of a target.
pub fn parts_of_target(t: &Target) -> TargetParts
    ensures { result ≡ t.now }
{
    TargetParts {
        host: &t.host,
        port: t.port,
        secure: t.secure,
        via: t.via,
    }
}

/// The parts of a group's key.
pub fn parts_of_group(g: &GroupKey) -> GroupParts
    ensures { result ≡ g.now }
{
    GroupParts {
        key: &g.key,
        credentials: g.credentials,
        origin: &g.origin,
        target: parts_of_target(&g.target),
    }
}

/// A target made of the parts.
pub fn build_target(alloc: Global, t: &TargetParts) -> Result<Target, NoMem>
    ensures { IfOk result (λ made. made ≡ t.now) }
{
    Ok(Target {
        host: t.host.copy(alloc)?,
        port: t.port,
        secure: t.secure,
        via: t.via,
    })
}

/// A group's key made of the parts.
pub fn build_group(alloc: Global, g: &GroupParts) -> Result<GroupKey, NoMem>
    ensures { IfOk result (λ made. made ≡ g.now) }
{
    Ok(GroupKey {
        key: g.key.copy(alloc)?,
        credentials: g.credentials,
        origin: g.origin.copy(alloc)?,
        target: build_target(alloc, &g.target)?,
    })
}

/// Whether the octets are equal.
pub fn same_octets(a: &Octets, b: &Octets) -> bool
    ensures test { result ≡ bytes_eq a.now b.now }
    ensures fact { IsTrue result ↔ (a.now ≡ b.now) }
{
    a.as_slice() == b.as_slice()
}

/// Whether the schemes are equal.
fn same_scheme(a: Scheme, b: Scheme) -> bool
    ensures { result ≡ base.same_scheme a b }
{
    a == b
}

/// Whether the protocols are equal.
pub fn same_proto(a: Proto, b: Proto) -> bool
    ensures { result ≡ base.same_proto a b }
{
    a == b
}

/// Whether the targets were found in the same way.
fn same_via(a: Via, b: Via) -> bool
    ensures test { result ≡ base.same_via a b }
    ensures fact { IsTrue result ↔ (a ≡ b) }
{
    a == b
}

/// Whether the flags are equal.
pub fn same_bool(a: bool, b: bool) -> bool
    ensures test { result ≡ base.same_bool a b }
    ensures fact { IsTrue result ↔ (a ≡ b) }
{
    a == b
}

/// Whether the origins are equal (RFC 6454, section 5).
pub fn same_origin(a: &Origin, b: &Origin) -> bool
    ensures { result ≡ base.same_origin a.now b.now }
{
    same_scheme(a.scheme, b.scheme) && same_octets(&a.host, &b.host) && a.port == b.port
}

/// Whether the sites are equal (HTML Standard, section 7.1.1).
fn same_site(a: &Site, b: &Site) -> bool
    ensures { result ≡ spec.same_site a.now b.now }
{
    match (a, b) {
        (Site::Tuple(s, h), Site::Tuple(t, g)) => same_scheme(*s, *t) && same_octets(h, g),
        (Site::Tuple(_, _), Site::Opaque(_)) => false,
        (Site::Opaque(_), Site::Tuple(_, _)) => false,
        (Site::Opaque(n), Site::Opaque(m)) => *n == *m,
    }
}

/// Whether the second parts of two partition keys are equal.
fn same_second(a: &Option<Octets>, b: &Option<Octets>) -> bool
    ensures { result ≡ spec.same_second a.now b.now }
{
    match (a, b) {
        (None, None) => true,
        (None, Some(_)) => false,
        (Some(_), None) => false,
        (Some(a), Some(b)) => same_octets(a, b),
    }
}

/// Whether the partition keys are equal (Fetch Standard, network partition keys).
pub fn same_key(a: &PartitionKey, b: &PartitionKey) -> bool
    ensures { result ≡ spec.same_key a.now b.now }
{
    same_site(&a.site, &b.site) && same_second(&a.second, &b.second)
}

/// Whether the targets are equal.
pub fn same_target(a: &TargetParts, b: &TargetParts) -> bool
    ensures test { result ≡ base.same_target a.now b.now }
    ensures fact { IsTrue result ↔ (a.now ≡ b.now) }
{
    same_octets(a.host, b.host)
        && a.port == b.port
        && same_bool(a.secure, b.secure)
        && same_via(a.via, b.via)
}

/// Whether the groups are equal.
pub fn same_group(a: &GroupParts, b: &GroupParts) -> bool
    ensures { result ≡ spec.same_group a.now b.now }
{
    same_key(a.key, b.key)
        && same_bool(a.credentials, b.credentials)
        && same_origin(a.origin, b.origin)
        && same_target(&a.target, &b.target)
}
