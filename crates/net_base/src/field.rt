// Fields of a head or of trailers.

use plain_values::{Listed, NoMem, Octets, PlainValue};
use std::alloc::Global;

/// A field line: its name and its value (RFC 9110, section 5).
#[derive(Debug, Drop)]
pub struct Field {
    pub name: Octets,
    pub value: Octets,
}

/// Fields, in order.
pub type Fields = Listed<Field>;

impl PlainValue for Field {
    fn copy(&self, alloc: Global) -> Result<Field, NoMem> {
        Ok(Field {
            name: self.name.copy(alloc)?,
            value: self.value.copy(alloc)?,
        })
    }

    fn same(&self, other: &Field) -> bool {
        self.name.same(&other.name) && self.value.same(&other.value)
    }
}
