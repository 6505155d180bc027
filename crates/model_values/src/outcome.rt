// How an exchange ends.

use net_base::{ConnNo, EndCause, Moment, NoMem, PlainValue, Response};
use std::alloc::Global;

/// How an exchange ends.
#[derive(Debug, Drop)]
pub enum Outcome {
    /// With a final response.
    Answered(Response),
    /// The dial of the connection that was opened for it failed.
    DialFault(ConnNo),
    /// The connection that was opened for it isn't secured by the origin's authority (RFC 9110, section 4.3.4).
    Identity(ConnNo),
    /// The peer reset its stream with this code (RFC 9113, section 6.4).
    Reset(u32),
    /// Its connection ended, and the request may not be tried again (RFC 9110, section 9.2.2).
    Lost(ConnNo, EndCause),
    /// It would have had to move a sixth time.
    TooManyMoves,
    /// Its answer is longer than what is kept.
    TooLarge,
    /// Its deadline, this moment, was reached.
    TimedOut(Moment),
    /// It is a probe that waited while its origin had no fresh HTTP/2 alternative.
    NoAlternative,
    /// Its caller cancelled it.
    Cancelled,
    /// The pool was shut down.
    PoolClosed,
}

impl PlainValue for Outcome {
    fn copy(&self, alloc: Global) -> Result<Outcome, NoMem> {
        match self {
            Outcome::Answered(response) => Ok(Outcome::Answered(response.copy(alloc)?)),
            Outcome::DialFault(conn) => Ok(Outcome::DialFault(*conn)),
            Outcome::Identity(conn) => Ok(Outcome::Identity(*conn)),
            Outcome::Reset(code) => Ok(Outcome::Reset(*code)),
            Outcome::Lost(conn, cause) => Ok(Outcome::Lost(*conn, *cause)),
            Outcome::TooManyMoves => Ok(Outcome::TooManyMoves),
            Outcome::TooLarge => Ok(Outcome::TooLarge),
            Outcome::TimedOut(deadline) => Ok(Outcome::TimedOut(*deadline)),
            Outcome::NoAlternative => Ok(Outcome::NoAlternative),
            Outcome::Cancelled => Ok(Outcome::Cancelled),
            Outcome::PoolClosed => Ok(Outcome::PoolClosed),
        }
    }

    fn same(&self, other: &Outcome) -> bool {
        match (self, other) {
            (Outcome::Answered(a), Outcome::Answered(b)) => a.same(b),
            (Outcome::DialFault(a), Outcome::DialFault(b)) => *a == *b,
            (Outcome::Identity(a), Outcome::Identity(b)) => *a == *b,
            (Outcome::Reset(a), Outcome::Reset(b)) => *a == *b,
            (Outcome::Lost(a, c), Outcome::Lost(b, d)) => *a == *b && *c == *d,
            (Outcome::TooManyMoves, Outcome::TooManyMoves) => true,
            (Outcome::TooLarge, Outcome::TooLarge) => true,
            (Outcome::TimedOut(a), Outcome::TimedOut(b)) => *a == *b,
            (Outcome::NoAlternative, Outcome::NoAlternative) => true,
            (Outcome::Cancelled, Outcome::Cancelled) => true,
            (Outcome::PoolClosed, Outcome::PoolClosed) => true,
            _ => false,
        }
    }
}
