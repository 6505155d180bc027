// What a channel is to do.

use crate::submission::Submission;
use net_base::{Addresses, Listed, Moment, NoMem, Octets, Origin, PlainValue};
use partition_keys::PartitionKey;
use std::alloc::Global;

/// A step of a channel's script. `of` is the number of an earlier submission of this channel, counted from 1.
#[derive(Debug, Drop)]
pub enum ScriptCall {
    Submit(Submission),
    Cancel {
        of: u32,
    },
    Reprioritise {
        of: u32,
        urgency: u8,
    },
    Preconnect {
        key: PartitionKey,
        credentials: bool,
        origin: Origin,
        count: u32,
    },
    Resolved {
        key: PartitionKey,
        host: Octets,
        addresses: Addresses,
    },
    NetworkChanged,
    /// To go on where that exchange has ended.
    Wait {
        of: u32,
    },
    /// To go on at this moment.
    Until {
        moment: Moment,
    },
}

/// A channel's script.
pub type ScriptCalls = Listed<ScriptCall>;

/// The scripts of all channels.
pub type Scripts = Listed<ScriptCalls>;

impl PlainValue for ScriptCall {
    fn copy(&self, alloc: Global) -> Result<ScriptCall, NoMem> {
        match self {
            ScriptCall::Submit(ask) => Ok(ScriptCall::Submit(ask.copy(alloc)?)),
            ScriptCall::Cancel { of } => Ok(ScriptCall::Cancel { of: *of }),
            ScriptCall::Reprioritise { of, urgency } => Ok(ScriptCall::Reprioritise {
                of: *of,
                urgency: *urgency,
            }),
            ScriptCall::Preconnect {
                key,
                credentials,
                origin,
                count,
            } => Ok(ScriptCall::Preconnect {
                key: key.copy(alloc)?,
                credentials: *credentials,
                origin: origin.copy(alloc)?,
                count: *count,
            }),
            ScriptCall::Resolved {
                key,
                host,
                addresses,
            } => Ok(ScriptCall::Resolved {
                key: key.copy(alloc)?,
                host: host.copy(alloc)?,
                addresses: addresses.copy(alloc)?,
            }),
            ScriptCall::NetworkChanged => Ok(ScriptCall::NetworkChanged),
            ScriptCall::Wait { of } => Ok(ScriptCall::Wait { of: *of }),
            ScriptCall::Until { moment } => Ok(ScriptCall::Until { moment: *moment }),
        }
    }

    fn same(&self, other: &ScriptCall) -> bool {
        match (self, other) {
            (ScriptCall::Submit(a), ScriptCall::Submit(b)) => a.same(b),
            (ScriptCall::Cancel { of: a }, ScriptCall::Cancel { of: b }) => *a == *b,
            (
                ScriptCall::Reprioritise { of: a, urgency: u },
                ScriptCall::Reprioritise { of: b, urgency: v },
            ) => *a == *b && *u == *v,
            (
                ScriptCall::Preconnect {
                    key: k,
                    credentials: c,
                    origin: o,
                    count: n,
                },
                ScriptCall::Preconnect {
                    key: l,
                    credentials: d,
                    origin: p,
                    count: m,
                },
            ) => k.same(l) && *c == *d && o.same(p) && *n == *m,
            (
                ScriptCall::Resolved {
                    key: k,
                    host: h,
                    addresses: a,
                },
                ScriptCall::Resolved {
                    key: l,
                    host: g,
                    addresses: b,
                },
            ) => k.same(l) && h.same(g) && a.same(b),
            (ScriptCall::NetworkChanged, ScriptCall::NetworkChanged) => true,
            (ScriptCall::Wait { of: a }, ScriptCall::Wait { of: b }) => *a == *b,
            (ScriptCall::Until { moment: a }, ScriptCall::Until { moment: b }) => *a == *b,
            _ => false,
        }
    }
}
