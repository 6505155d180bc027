// A final response.

use crate::field::Fields;
use plain_values::{NoMem, Octets, PlainValue};
use std::alloc::Global;

/// A final response (RFC 9110, section 15): its status, its fields with names in lower case, its whole body as it
/// was received, and its trailers.
#[derive(Debug, Drop)]
pub struct Response {
    pub status: u16,
    pub fields: Fields,
    pub body: Octets,
    pub trailers: Fields,
}

impl PlainValue for Response {
    fn copy(&self, alloc: Global) -> Result<Response, NoMem> {
        Ok(Response {
            status: self.status,
            fields: self.fields.copy(alloc)?,
            body: self.body.copy(alloc)?,
            trailers: self.trailers.copy(alloc)?,
        })
    }

    fn same(&self, other: &Response) -> bool {
        self.status == other.status
            && self.fields.same(&other.fields)
            && self.body.same(&other.body)
            && self.trailers.same(&other.trailers)
    }
}
