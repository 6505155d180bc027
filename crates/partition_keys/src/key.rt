// Partition keys.

use crate::site::Site;
use net_base::{NoMem, Octets, PlainValue};
use std::alloc::Global;

/// A network partition key (Fetch Standard, section 2.7): the site of the top-level page, and a second part that is
/// nothing so far.
#[derive(Debug, Drop)]
pub struct PartitionKey {
    pub site: Site,
    pub second: Option<Octets>,
}

impl PlainValue for PartitionKey {
    fn copy(&self, alloc: Global) -> Result<PartitionKey, NoMem> {
        Ok(PartitionKey {
            site: self.site.copy(alloc)?,
            second: self.second.copy(alloc)?,
        })
    }

    fn same(&self, other: &PartitionKey) -> bool {
        self.site.same(&other.site) && self.second.same(&other.second)
    }
}
