// Alternative services.
ghost use Rattle.std.specs.Prelude.{◌≡◌};
ghost use Rattle.partition_keys.specs.Freshness as spec;

use net_base::{Listed, Moment, NoMem, Octets, PlainValue, Proto};
use std::alloc::Global;

/// An alternative service of an origin (RFC 7838, section 2): its protocol, host and port, how long it may be used
/// (section 3.1, `ma` and `persist`), until when it counts as broken (section 2.4), and until when the origin has said
/// that an `http` exchange may use it (RFC 8164, section 2.3).
#[derive(Debug, Drop)]
pub struct Alternative {
    pub proto: Proto,
    pub host: Octets,
    pub port: u16,
    pub expires: Moment,
    pub persist: bool,
    pub broken_until: Moment,
    pub proven_until: Moment,
}

/// Alternatives, in the order in which the server listed them.
pub type Alternatives = Listed<Alternative>;

impl PlainValue for Alternative {
    fn copy(&self, alloc: Global) -> Result<Alternative, NoMem> {
        Ok(Alternative {
            proto: self.proto,
            host: self.host.copy(alloc)?,
            port: self.port,
            expires: self.expires,
            persist: self.persist,
            broken_until: self.broken_until,
            proven_until: self.proven_until,
        })
    }

    fn same(&self, other: &Alternative) -> bool {
        self.proto == other.proto
            && self.host.same(&other.host)
            && self.port == other.port
            && self.expires == other.expires
            && self.persist == other.persist
            && self.broken_until == other.broken_until
            && self.proven_until == other.proven_until
    }
}

/// Whether an alternative may be used at a moment: before it expires (RFC 7838, section 2.2), and not while it counts as
/// broken (section 2.4).
pub fn is_fresh(a: &Alternative, m: Moment) -> bool
    ensures { result ≡ spec.is_fresh a.now m }
{
    m.0 < a.expires.0 && a.broken_until.0 <= m.0
}

/// What an Alt-Svc field or an ALTSVC frame says of an origin's alternatives (RFC 7838, sections 3 and 4).
#[derive(Debug, Drop)]
pub enum AltUpdate {
    /// Nothing.
    None,
    /// The origin has no alternatives any more.
    Clear,
    /// These are the origin's alternatives, in place of those before.
    Set(Alternatives),
}

impl PlainValue for AltUpdate {
    fn copy(&self, alloc: Global) -> Result<AltUpdate, NoMem> {
        match self {
            AltUpdate::None => Ok(AltUpdate::None),
            AltUpdate::Clear => Ok(AltUpdate::Clear),
            AltUpdate::Set(list) => Ok(AltUpdate::Set(list.copy(alloc)?)),
        }
    }

    fn same(&self, other: &AltUpdate) -> bool {
        match (self, other) {
            (AltUpdate::None, AltUpdate::None) => true,
            (AltUpdate::Clear, AltUpdate::Clear) => true,
            (AltUpdate::Set(a), AltUpdate::Set(b)) => a.same(b),
            _ => false,
        }
    }
}

/// The answer to a probe, which asks an alternative for `/.well-known/http-opportunistic` (RFC 8164, section 2.3): what
/// it proves.
#[derive(Clone, Copy, Debug, PartialEq, Eq)]
pub enum Proof {
    /// Nothing, since the exchange was no probe.
    NotAsked,
    /// Nothing, since a condition failed.
    NotValid(Why),
    /// The origin's `http` exchanges may use the alternative up to this moment.
    Until(Moment),
}

/// The answer to a probe proves nothing (RFC 8164, section 2.3): the first condition that failed.
#[derive(Clone, Copy, Debug, PartialEq, Eq)]
pub enum Why {
    /// The status isn't 200.
    Status,
    /// The media type isn't `application/json`.
    Media,
    /// The body is no JSON.
    NotJson,
    /// The JSON is no array.
    NotArray,
    /// The array doesn't have the origin.
    Absent,
    /// The answer's lifetime is over.
    Stale,
}

impl PlainValue for Proof {
    fn copy(&self, _alloc: Global) -> Result<Proof, NoMem> {
        Ok(*self)
    }

    fn same(&self, other: &Proof) -> bool {
        *self == *other
    }
}
