// What a connection is told to do.

use net_base::{ExchangeNo, Listed, NoMem, PlainValue, Request, StreamNo};
use std::alloc::Global;

/// What a connection is told to do.
#[derive(Debug, Drop)]
pub enum Order {
    /// To send a request on a stream. The request is the submission's, dressed for the connection's target.
    Start {
        exchange: ExchangeNo,
        stream: StreamNo,
        request: Request,
        probe: bool,
    },
    /// To give up a stream (RFC 9113, section 6.4).
    Reset(StreamNo),
    /// To close.
    Close,
}

/// Orders, in the order in which they were given.
pub type Orders = Listed<Order>;

/// An order as the history has it: the request of a start is found by its exchange.
#[derive(Clone, Copy, Debug, PartialEq, Eq)]
pub enum OrderMark {
    Start {
        exchange: ExchangeNo,
        stream: StreamNo,
    },
    Reset(StreamNo),
    Close,
}

/// Order marks, in the order in which they were given.
pub type OrderMarks = Listed<OrderMark>;

impl PlainValue for Order {
    fn copy(&self, alloc: Global) -> Result<Order, NoMem> {
        match self {
            Order::Start {
                exchange,
                stream,
                request,
                probe,
            } => Ok(Order::Start {
                exchange: *exchange,
                stream: *stream,
                request: request.copy(alloc)?,
                probe: *probe,
            }),
            Order::Reset(stream) => Ok(Order::Reset(*stream)),
            Order::Close => Ok(Order::Close),
        }
    }

    fn same(&self, other: &Order) -> bool {
        match (self, other) {
            (
                Order::Start {
                    exchange: e,
                    stream: s,
                    request: r,
                    probe: p,
                },
                Order::Start {
                    exchange: f,
                    stream: t,
                    request: q,
                    probe: o,
                },
            ) => *e == *f && *s == *t && r.same(q) && *p == *o,
            (Order::Reset(s), Order::Reset(t)) => *s == *t,
            (Order::Close, Order::Close) => true,
            _ => false,
        }
    }
}

impl PlainValue for OrderMark {
    fn copy(&self, _alloc: Global) -> Result<OrderMark, NoMem> {
        Ok(*self)
    }

    fn same(&self, other: &OrderMark) -> bool {
        *self == *other
    }
}
