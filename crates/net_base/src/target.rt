// Where a connection leads.

use plain_values::{NoMem, Octets, PlainValue};
use std::alloc::Global;

/// The protocol that is spoken on a connection: HTTP/1.1 (RFC 9112) or HTTP/2 (RFC 9113).
#[derive(Clone, Copy, Debug, PartialEq, Eq)]
pub enum Proto {
    H1,
    H2,
}

impl PlainValue for Proto {
    fn copy(&self, _alloc: Global) -> Result<Proto, NoMem> {
        Ok(*self)
    }

    fn same(&self, other: &Proto) -> bool {
        *self == *other
    }
}

/// How a target was found: it is the origin itself, or an alternative service of it (RFC 7838).
#[derive(Clone, Copy, Debug, PartialEq, Eq)]
pub enum Via {
    Direct,
    Alternative(Proto),
}

impl PlainValue for Via {
    fn copy(&self, _alloc: Global) -> Result<Via, NoMem> {
        Ok(*self)
    }

    fn same(&self, other: &Via) -> bool {
        *self == *other
    }
}

/// Where a connection leads: a host and a port, whether it is to be secured, and by which way it was found.
#[derive(Debug, Drop)]
pub struct Target {
    pub host: Octets,
    pub port: u16,
    pub secure: bool,
    pub via: Via,
}

impl PlainValue for Target {
    fn copy(&self, alloc: Global) -> Result<Target, NoMem> {
        Ok(Target {
            host: self.host.copy(alloc)?,
            port: self.port,
            secure: self.secure,
            via: self.via,
        })
    }

    fn same(&self, other: &Target) -> bool {
        self.host.same(&other.host)
            && self.port == other.port
            && self.secure == other.secure
            && self.via == other.via
    }
}
