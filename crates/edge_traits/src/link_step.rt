// The script of a link.

use net_base::{Listed, NoMem, Octets, PlainValue};
use std::alloc::Global;

/// A step of a link's script, which a read takes.
#[derive(Debug, Drop)]
pub enum LinkStep {
    /// These octets are given, in as many reads as it takes. None of them at all count as an end.
    Give(Octets),
    /// Nothing is there for one read.
    Quiet,
    /// The other side ends, for good.
    End,
    /// One read fails.
    Fail,
}

/// A script: a read takes the next step, or what is left of a `Give`.
pub type LinkSteps = Listed<LinkStep>;

/// Numbers of calls, counted from 1.
pub type CallNos = Listed<u64>;

impl PlainValue for LinkStep {
    fn copy(&self, alloc: Global) -> Result<LinkStep, NoMem> {
        match self {
            LinkStep::Give(octets) => Ok(LinkStep::Give(octets.copy(alloc)?)),
            LinkStep::Quiet => Ok(LinkStep::Quiet),
            LinkStep::End => Ok(LinkStep::End),
            LinkStep::Fail => Ok(LinkStep::Fail),
        }
    }

    fn same(&self, other: &LinkStep) -> bool {
        match (self, other) {
            (LinkStep::Give(a), LinkStep::Give(b)) => a.same(b),
            (LinkStep::Quiet, LinkStep::Quiet) => true,
            (LinkStep::End, LinkStep::End) => true,
            (LinkStep::Fail, LinkStep::Fail) => true,
            _ => false,
        }
    }
}
