// Values that can be copied whole and compared.
ghost use Rattle.std.specs.Prelude.{◌≡◌, ◌↔◌, IsTrue, IfOk};

use crate::memory::NoMem;
use std::alloc::Global;

/// A value that can be copied whole, which takes memory, and compared part by part, which takes none.
pub trait PlainValue: Sized + Drop {
    /// A copy. `NoMem` where there is no memory for it.
    fn copy(&self, alloc: Global) -> Result<Self, NoMem>
        ensures { IfOk result (λ it. it ≡ self.now) };

    /// Whether the two are equal in all their parts.
    fn same(&self, other: &Self) -> bool
        ensures { IsTrue result ↔ (self.now ≡ other.now) };
}

impl PlainValue for u64 {
    fn copy(&self, _alloc: Global) -> Result<u64, NoMem> {
        Ok(*self)
    }

    fn same(&self, other: &u64) -> bool {
        *self == *other
    }
}

impl PlainValue for [u8; 16] {
    fn copy(&self, _alloc: Global) -> Result<[u8; 16], NoMem> {
        Ok(*self)
    }

    fn same(&self, other: &[u8; 16]) -> bool {
        *self == *other
    }
}

impl<T: PlainValue> PlainValue for Option<T> {
    fn copy(&self, alloc: Global) -> Result<Option<T>, NoMem> {
        match self {
            None => Ok(None),
            Some(item) => Ok(Some(item.copy(alloc)?)),
        }
    }

    fn same(&self, other: &Option<T>) -> bool {
        match (self, other) {
            (None, None) => true,
            (Some(a), Some(b)) => a.same(b),
            _ => false,
        }
    }
}
