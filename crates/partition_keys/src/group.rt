// Keys that are made of a partition key and more.

use crate::key::PartitionKey;
use net_base::{NoMem, Origin, PlainValue, Target};
use std::alloc::Global;

/// What the exchanges of one group have in common, and the connections that are opened for them.
#[derive(Debug, Drop)]
pub struct GroupKey {
    pub key: PartitionKey,
    /// Whether the group's exchanges carry credentials (Fetch Standard, section 2.6, connections).
    pub credentials: bool,
    pub origin: Origin,
    pub target: Target,
}

impl PlainValue for GroupKey {
    fn copy(&self, alloc: Global) -> Result<GroupKey, NoMem> {
        Ok(GroupKey {
            key: self.key.copy(alloc)?,
            credentials: self.credentials,
            origin: self.origin.copy(alloc)?,
            target: self.target.copy(alloc)?,
        })
    }

    fn same(&self, other: &GroupKey) -> bool {
        self.key.same(&other.key)
            && self.credentials == other.credentials
            && self.origin.same(&other.origin)
            && self.target.same(&other.target)
    }
}

/// The key of an origin's alternatives: they hold in one partition alone.
#[derive(Debug, Drop)]
pub struct AltKey {
    pub key: PartitionKey,
    pub origin: Origin,
}

impl PlainValue for AltKey {
    fn copy(&self, alloc: Global) -> Result<AltKey, NoMem> {
        Ok(AltKey {
            key: self.key.copy(alloc)?,
            origin: self.origin.copy(alloc)?,
        })
    }

    fn same(&self, other: &AltKey) -> bool {
        self.key.same(&other.key) && self.origin.same(&other.origin)
    }
}

/// What a connection has in common with an exchange that may share it (RFC 9113, section 9.1.1): the partition, the
/// credentials, the address and the port.
#[derive(Debug, Drop)]
pub struct CoalesceKey {
    pub key: PartitionKey,
    pub credentials: bool,
    pub address: [u8; 16],
    pub port: u16,
}

impl PlainValue for CoalesceKey {
    fn copy(&self, alloc: Global) -> Result<CoalesceKey, NoMem> {
        Ok(CoalesceKey {
            key: self.key.copy(alloc)?,
            credentials: self.credentials,
            address: self.address,
            port: self.port,
        })
    }

    fn same(&self, other: &CoalesceKey) -> bool {
        self.key.same(&other.key)
            && self.credentials == other.credentials
            && self.address == other.address
            && self.port == other.port
    }
}
