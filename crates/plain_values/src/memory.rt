// Want of memory.
use std::alloc::AllocError;

/// There was not enough memory.
#[derive(Clone, Copy, Debug, PartialEq, Eq)]
pub struct NoMem;

impl From<AllocError> for NoMem {
    fn from(_: AllocError) -> NoMem {
        NoMem
    }
}
