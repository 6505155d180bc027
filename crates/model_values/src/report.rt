// What a worker reports of its connection.

use net_base::{Identity, NoMem, Origin, PlainValue, Response, StreamNo};
use partition_keys::{AltUpdate, Proof};
use std::alloc::Global;

/// What a worker reports of its connection.
#[derive(Debug, Drop)]
pub enum Report {
    /// The dial came up, and the other side has shown this identity.
    Opened(Identity),
    /// The peer allows this many live streams (RFC 9113, section 6.5.2, SETTINGS_MAX_CONCURRENT_STREAMS).
    Limit(u32),
    /// A final response is whole.
    Answered {
        stream: StreamNo,
        response: Response,
        /// Whether the connection may carry another exchange (RFC 9112, section 9.3).
        keep: bool,
        /// What its Alt-Svc fields say (RFC 7838, section 3).
        alt: AltUpdate,
        /// What it proves, where it answers a probe (RFC 8164, section 2.3).
        proof: Proof,
    },
    /// The peer refused the stream, so it did nothing for it (RFC 9113, section 8.7, REFUSED_STREAM).
    Refused(StreamNo),
    /// The peer reset the stream with this code (RFC 9113, section 6.4).
    Reset(StreamNo, u32),
    /// The answer is longer than what is kept.
    TooLarge(StreamNo),
    /// The stream that was to be reset is closed.
    StreamClosed(StreamNo),
    /// The peer goes away, and did nothing for streams above this one (RFC 9113, section 6.8).
    Goaway(StreamNo),
    /// An ALTSVC frame for an origin (RFC 7838, section 4).
    AltSeen {
        origin: Origin,
        alt: AltUpdate,
    },
}

impl PlainValue for Report {
    fn copy(&self, alloc: Global) -> Result<Report, NoMem> {
        match self {
            Report::Opened(identity) => Ok(Report::Opened(identity.copy(alloc)?)),
            Report::Limit(n) => Ok(Report::Limit(*n)),
            Report::Answered {
                stream,
                response,
                keep,
                alt,
                proof,
            } => Ok(Report::Answered {
                stream: *stream,
                response: response.copy(alloc)?,
                keep: *keep,
                alt: alt.copy(alloc)?,
                proof: *proof,
            }),
            Report::Refused(stream) => Ok(Report::Refused(*stream)),
            Report::Reset(stream, code) => Ok(Report::Reset(*stream, *code)),
            Report::TooLarge(stream) => Ok(Report::TooLarge(*stream)),
            Report::StreamClosed(stream) => Ok(Report::StreamClosed(*stream)),
            Report::Goaway(last) => Ok(Report::Goaway(*last)),
            Report::AltSeen { origin, alt } => Ok(Report::AltSeen {
                origin: origin.copy(alloc)?,
                alt: alt.copy(alloc)?,
            }),
        }
    }

    fn same(&self, other: &Report) -> bool {
        match (self, other) {
            (Report::Opened(a), Report::Opened(b)) => a.same(b),
            (Report::Limit(a), Report::Limit(b)) => *a == *b,
            (
                Report::Answered {
                    stream: s,
                    response: r,
                    keep: k,
                    alt: a,
                    proof: p,
                },
                Report::Answered {
                    stream: t,
                    response: q,
                    keep: l,
                    alt: b,
                    proof: o,
                },
            ) => *s == *t && r.same(q) && *k == *l && a.same(b) && *p == *o,
            (Report::Refused(a), Report::Refused(b)) => *a == *b,
            (Report::Reset(a, c), Report::Reset(b, d)) => *a == *b && *c == *d,
            (Report::TooLarge(a), Report::TooLarge(b)) => *a == *b,
            (Report::StreamClosed(a), Report::StreamClosed(b)) => *a == *b,
            (Report::Goaway(a), Report::Goaway(b)) => *a == *b,
            (Report::AltSeen { origin: o, alt: a }, Report::AltSeen { origin: p, alt: b }) =>
                o.same(p) && a.same(b),
            _ => false,
        }
    }
}
