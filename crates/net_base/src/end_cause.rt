// Why a connection ended.

use plain_values::{NoMem, PlainValue};
use std::alloc::Global;

/// Why a connection ended.
#[derive(Clone, Copy, Debug, PartialEq, Eq)]
pub enum EndCause {
    /// Its dial failed.
    DialFailed,
    /// The other side ended its side.
    End,
    /// A read or a write of its link failed.
    LinkFault,
    /// What was received breaks the protocol. The code is that of RFC 9113, section 7, or this project's own from
    /// 256 on; the place is the offset, in all octets received, of the first octet of what has the fault.
    Broken { code: u32, place: u64 },
    /// The pool ordered it closed.
    Done,
}

impl PlainValue for EndCause {
    fn copy(&self, _alloc: Global) -> Result<EndCause, NoMem> {
        Ok(*self)
    }

    fn same(&self, other: &EndCause) -> bool {
        *self == *other
    }
}
