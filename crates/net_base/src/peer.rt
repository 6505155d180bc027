// The book of scripted peers.

use crate::field::Fields;
use crate::identity::Names;
use crate::numbers::{ConnNo, StreamNo};
use crate::target::Proto;
use plain_values::{Listed, NoMem, Octets, PlainValue};
use std::alloc::Global;

/// A scripted peer: where it is reached, what it shows of itself, what it answers and how it misbehaves.
#[derive(Debug, Drop)]
pub struct Peer {
    pub host: Octets,
    pub port: u16,
    pub secure: bool,
    pub proto: Proto,
    pub names: Names,
    pub address: [u8; 16],
    pub answers: Answers,
    pub acts: PeerActs,
}

/// Scripted peers. The first one that a target fits is the one that is dialed.
pub type PeerBook = Listed<Peer>;

/// A scripted answer: to which path (`*` for any) and authority (`None` for any) it is given, and what it says.
#[derive(Debug, Drop)]
pub struct Answer {
    pub path: Octets,
    pub authority: Option<Octets>,
    pub status: u16,
    pub body: AnswerBody,
    pub fields: Fields,
}

/// Answers. The first one that a request fits is given.
pub type Answers = Listed<Answer>;

/// The body of a scripted answer: its octets, or a number of octets `x`.
#[derive(Debug, Drop)]
pub enum AnswerBody {
    Text(Octets),
    Size(u32),
}

/// An act of a scripted peer, on one of its connections or, where `conn` is `None`, on each.
#[derive(Debug, Drop)]
pub struct PeerAct {
    pub conn: Option<ConnNo>,
    pub kind: ActKind,
}

/// Acts, in order.
pub type PeerActs = Listed<PeerAct>;

/// What a scripted peer does besides answering. Requests and their heads are counted from 1 on each connection.
#[derive(Debug, Drop)]
pub enum ActKind {
    /// The dial fails.
    NoDial,
    /// No answer is written before this many whole request heads were read.
    Hold { until: u32 },
    /// After this many whole requests the origin ends its side, without an answer to the last.
    Drop { after: u32 },
    /// HTTP/2: SETTINGS carries MAX_CONCURRENT_STREAMS.
    Limit { n: u32 },
    /// HTTP/2: after this many request heads a GOAWAY with this last stream is written.
    Goaway { after: u32, last: StreamNo },
    /// HTTP/2: this request head, or each one where it is 0, is answered by RST_STREAM with REFUSED_STREAM.
    Refuse { nth: u32 },
    /// HTTP/2: an ALTSVC frame with this value follows SETTINGS (RFC 7838, section 4).
    AltFrame { value: Octets },
}

impl PlainValue for Peer {
    fn copy(&self, alloc: Global) -> Result<Peer, NoMem> {
        Ok(Peer {
            host: self.host.copy(alloc)?,
            port: self.port,
            secure: self.secure,
            proto: self.proto,
            names: self.names.copy(alloc)?,
            address: self.address,
            answers: self.answers.copy(alloc)?,
            acts: self.acts.copy(alloc)?,
        })
    }

    fn same(&self, other: &Peer) -> bool {
        self.host.same(&other.host)
            && self.port == other.port
            && self.secure == other.secure
            && self.proto == other.proto
            && self.names.same(&other.names)
            && self.address == other.address
            && self.answers.same(&other.answers)
            && self.acts.same(&other.acts)
    }
}

impl PlainValue for Answer {
    fn copy(&self, alloc: Global) -> Result<Answer, NoMem> {
        Ok(Answer {
            path: self.path.copy(alloc)?,
            authority: self.authority.copy(alloc)?,
            status: self.status,
            body: self.body.copy(alloc)?,
            fields: self.fields.copy(alloc)?,
        })
    }

    fn same(&self, other: &Answer) -> bool {
        self.path.same(&other.path)
            && self.authority.same(&other.authority)
            && self.status == other.status
            && self.body.same(&other.body)
            && self.fields.same(&other.fields)
    }
}

impl PlainValue for AnswerBody {
    fn copy(&self, alloc: Global) -> Result<AnswerBody, NoMem> {
        match self {
            AnswerBody::Text(octets) => Ok(AnswerBody::Text(octets.copy(alloc)?)),
            AnswerBody::Size(n) => Ok(AnswerBody::Size(*n)),
        }
    }

    fn same(&self, other: &AnswerBody) -> bool {
        match (self, other) {
            (AnswerBody::Text(a), AnswerBody::Text(b)) => a.same(b),
            (AnswerBody::Size(a), AnswerBody::Size(b)) => *a == *b,
            _ => false,
        }
    }
}

impl PlainValue for PeerAct {
    fn copy(&self, alloc: Global) -> Result<PeerAct, NoMem> {
        Ok(PeerAct {
            conn: self.conn.copy(alloc)?,
            kind: self.kind.copy(alloc)?,
        })
    }

    fn same(&self, other: &PeerAct) -> bool {
        self.conn.same(&other.conn) && self.kind.same(&other.kind)
    }
}

impl PlainValue for ActKind {
    fn copy(&self, alloc: Global) -> Result<ActKind, NoMem> {
        match self {
            ActKind::NoDial => Ok(ActKind::NoDial),
            ActKind::Hold { until } => Ok(ActKind::Hold { until: *until }),
            ActKind::Drop { after } => Ok(ActKind::Drop { after: *after }),
            ActKind::Limit { n } => Ok(ActKind::Limit { n: *n }),
            ActKind::Goaway { after, last } => Ok(ActKind::Goaway {
                after: *after,
                last: *last,
            }),
            ActKind::Refuse { nth } => Ok(ActKind::Refuse { nth: *nth }),
            ActKind::AltFrame { value } => Ok(ActKind::AltFrame {
                value: value.copy(alloc)?,
            }),
        }
    }

    fn same(&self, other: &ActKind) -> bool {
        match (self, other) {
            (ActKind::NoDial, ActKind::NoDial) => true,
            (ActKind::Hold { until: a }, ActKind::Hold { until: b }) => *a == *b,
            (ActKind::Drop { after: a }, ActKind::Drop { after: b }) => *a == *b,
            (ActKind::Limit { n: a }, ActKind::Limit { n: b }) => *a == *b,
            (ActKind::Goaway { after: a, last: s }, ActKind::Goaway { after: b, last: t }) => *a
                == *b
                && s.0 == t.0,
            (ActKind::Refuse { nth: a }, ActKind::Refuse { nth: b }) => *a == *b,
            (ActKind::AltFrame { value: a }, ActKind::AltFrame { value: b }) => a.same(b),
            _ => false,
        }
    }
}
