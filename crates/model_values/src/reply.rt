// What the pool answers.

use crate::order::Orders;
use crate::outcome::Outcome;
use crate::ticket::ConnTicket;
use net_base::{ExchangeNo, NoMem, PlainValue, Target};
use std::alloc::Global;

/// What `submit` answers.
#[derive(Clone, Copy, Debug, PartialEq, Eq)]
pub enum SubmitReply {
    /// The pool was shut down by the entry at this place of the history, counted from 1.
    Closed(u64),
    /// A probe whose origin isn't http, or whose path isn't that of RFC 8164, section 2.3.
    BadProbe,
    /// As many submissions as the pool takes, this many, were accepted.
    SubmissionsFull(u64),
    /// The submission is the exchange of this number.
    Accepted(ExchangeNo),
}

/// What `look` answers.
#[derive(Debug, Drop)]
pub enum Look {
    /// The caller has no such exchange.
    Unknown,
    Ended(Outcome),
    /// It has no end in the history of this length.
    Pending(u64),
}

/// What `cancel` answers.
#[derive(Clone, Copy, Debug, PartialEq, Eq)]
pub enum CancelReply {
    /// The caller has no such exchange.
    Unknown,
    /// It had ended before.
    Ended,
    Cancelled,
}

/// What `reprioritise` answers.
#[derive(Clone, Copy, Debug, PartialEq, Eq)]
pub enum ChangeReply {
    /// The caller has no such exchange.
    Unknown,
    /// It had ended before.
    Ended,
    Changed,
}

/// What `preconnect` answers.
#[derive(Clone, Copy, Debug, PartialEq, Eq)]
pub enum PreconnectReply {
    /// The pool was shut down by the entry at this place of the history, counted from 1.
    Closed(u64),
    /// None is opened. There are this many connections that aren't gone, in all and in the group.
    NoRoom(u32, u32),
    /// This many connections are opened.
    Opening(u32),
}

/// What `resolved` answers.
#[derive(Clone, Copy, Debug, PartialEq, Eq)]
pub enum ResolvedReply {
    /// The pool was shut down by the entry at this place of the history, counted from 1.
    Closed(u64),
    /// This many addresses were given, which is more than 16.
    TooMany(u64),
    Noted,
}

/// What `shutdown` answers.
#[derive(Clone, Copy, Debug, PartialEq, Eq)]
pub enum ShutReply {
    /// The pool was shut down before, by the entry at this place of the history, counted from 1.
    Closed(u64),
    Noted,
}

/// What `seek` answers. A ticket can't be dropped: it is spent by `closed`.
#[derive(Debug)]
pub enum Seek {
    /// A connection, and where it is to be dialed.
    Dial(ConnTicket, Target),
    /// None is wanted, and the pool was shut down by the entry at this place of the history, counted from 1.
    Stop(u64),
    /// None is wanted in the history of this length.
    Nothing(u64),
}

/// What `orders` answers.
#[derive(Debug, Drop)]
pub enum OrdersReply {
    /// All orders that were pending.
    Orders(Orders),
    /// None is pending in the history of this length.
    Nothing(u64),
}

/// Want of memory of `closed`, which gives the ticket back.
#[derive(Debug)]
pub struct TicketKept(pub ConnTicket);

impl PlainValue for SubmitReply {
    fn copy(&self, _alloc: Global) -> Result<SubmitReply, NoMem> {
        Ok(*self)
    }

    fn same(&self, other: &SubmitReply) -> bool {
        *self == *other
    }
}

impl PlainValue for CancelReply {
    fn copy(&self, _alloc: Global) -> Result<CancelReply, NoMem> {
        Ok(*self)
    }

    fn same(&self, other: &CancelReply) -> bool {
        *self == *other
    }
}

impl PlainValue for ChangeReply {
    fn copy(&self, _alloc: Global) -> Result<ChangeReply, NoMem> {
        Ok(*self)
    }

    fn same(&self, other: &ChangeReply) -> bool {
        *self == *other
    }
}

impl PlainValue for PreconnectReply {
    fn copy(&self, _alloc: Global) -> Result<PreconnectReply, NoMem> {
        Ok(*self)
    }

    fn same(&self, other: &PreconnectReply) -> bool {
        *self == *other
    }
}

impl PlainValue for ResolvedReply {
    fn copy(&self, _alloc: Global) -> Result<ResolvedReply, NoMem> {
        Ok(*self)
    }

    fn same(&self, other: &ResolvedReply) -> bool {
        *self == *other
    }
}

impl PlainValue for ShutReply {
    fn copy(&self, _alloc: Global) -> Result<ShutReply, NoMem> {
        Ok(*self)
    }

    fn same(&self, other: &ShutReply) -> bool {
        *self == *other
    }
}
