// The numbers of a pool.

use net_base::{NoMem, PlainValue};
use std::alloc::Global;

/// The limits of a pool. All are this project's own.
#[derive(Clone, Copy, Debug, PartialEq, Eq)]
pub struct Config {
    /// How many connections of one group there may be that aren't gone.
    pub per_group: u32,
    /// How many connections there may be in all that aren't gone.
    pub total: u32,
    /// How many streams of one HTTP/2 connection may be live.
    pub streams: u32,
    /// How many background exchanges may have a lease while others have no end.
    pub background: u32,
    /// The greatest number of a stream.
    pub last_stream: u32,
    /// How many submissions are accepted.
    pub submissions: u64,
}

impl PlainValue for Config {
    fn copy(&self, _alloc: Global) -> Result<Config, NoMem> {
        Ok(*self)
    }

    fn same(&self, other: &Config) -> bool {
        *self == *other
    }
}
