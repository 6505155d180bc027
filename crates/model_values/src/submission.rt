// What a caller submits.

use net_base::{Moment, NoMem, PlainValue, Request};
use partition_keys::PartitionKey;
use std::alloc::Global;

/// An exchange as its caller asks for it: one request, and how it is to be carried.
#[derive(Debug, Drop)]
pub struct Submission {
    pub key: PartitionKey,
    /// Whether the request carries credentials (Fetch Standard, section 2.6, connections).
    pub credentials: bool,
    pub request: Request,
    /// From 0, the most urgent, to 7 (RFC 9218, section 4.1).
    pub urgency: u8,
    /// Whether it may be held back while others have no end.
    pub background: bool,
    /// The moment at which it ends where it has no end before.
    pub deadline: Option<Moment>,
    /// Whether it asks an alternative for the http-opportunistic resource (RFC 8164, section 2.3).
    pub probe: bool,
}

impl PlainValue for Submission {
    fn copy(&self, alloc: Global) -> Result<Submission, NoMem> {
        Ok(Submission {
            key: self.key.copy(alloc)?,
            credentials: self.credentials,
            request: self.request.copy(alloc)?,
            urgency: self.urgency,
            background: self.background,
            deadline: self.deadline,
            probe: self.probe,
        })
    }

    fn same(&self, other: &Submission) -> bool {
        self.key.same(&other.key)
            && self.credentials == other.credentials
            && self.request.same(&other.request)
            && self.urgency == other.urgency
            && self.background == other.background
            && self.deadline.same(&other.deadline)
            && self.probe == other.probe
    }
}
