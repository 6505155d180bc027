// Calls of workers and the pool's own entries read back.
ghost use Rattle.std.specs.Prelude.{◌≡◌, ◌+◌, ◌<◌, ◌≤◌, map, length, drop, IfOk};
ghost use Rattle.journal_words.specs.Readers.{Gives};
ghost use Rattle.journal_lines.specs.LineReaders.{GivesMark};
ghost use Rattle.journal_lines.specs.LineReaders as spec;

use crate::read_calls::read_exchange;
use crate::read_reports::read_report;
use journal_words::{
    WordFault, read_cause, read_stream, read_streams, read_target, read_u32, read_u64, read_way,
};
use model_values::{Act, OrderMark, OrderMarks};
use net_base::ConnNo;
use std::alloc::Global;

/// The number of a connection.
fn read_conn(alloc: Global, word: &[u8]) -> Result<ConnNo, WordFault>
    ensures { Gives result (spec.conn word.now) }
{
    Ok(ConnNo(read_u32(alloc, word)?))
}

pub(crate) fn read_dial(alloc: Global, words: &[&[u8]]) -> Result<Act, WordFault>
    ensures { Gives result (spec.dial (map (λ w. w.now) words.now)) }
{
    let [_, _, conn, target @ ..] = words else {
        return Err(WordFault::Unreadable);
    };
    Ok(Act::Dial {
        conn: read_conn(alloc, conn)?,
        target: read_target(alloc, target)?,
    })
}

/// An order, and how many words it has.
#[derive(Drop)]
struct MarkAndWords {
    mark: OrderMark,
    words: usize,
}

fn read_start(alloc: Global, exchange: &[u8], stream: &[u8]) -> Result<OrderMark, WordFault>
    ensures { Gives result (spec.start exchange.now stream.now) }
{
    Ok(OrderMark::Start {
        exchange: read_exchange(alloc, exchange)?,
        stream: read_stream(alloc, stream)?,
    })
}

fn read_order_mark(alloc: Global, words: &[&[u8]]) -> Result<MarkAndWords, WordFault>
    ensures gives { GivesMark result (map (λ w. w.now) words.now) }
    ensures some { IfOk result (λ first. (0 < first.words) × (first.words ≤ length words.now)) }
{
    match words {
        [close, ..] if *close == b"close".as_slice() => Ok(MarkAndWords {
            mark: OrderMark::Close,
            words: 1,
        }),
        [reset, stream, ..] if *reset == b"reset".as_slice() => Ok(MarkAndWords {
            mark: OrderMark::Reset(read_stream(alloc, stream)?),
            words: 2,
        }),
        [start, exchange, stream, ..] if *start == b"start".as_slice() => Ok(MarkAndWords {
            mark: read_start(alloc, exchange, stream)?,
            words: 3,
        }),
        _ => Err(WordFault::Unreadable),
    }
}

/// The words behind so many.
fn behind<'a, 'w>(words: &'a [&'w [u8]], n: usize) -> &'a [&'w [u8]]
    requires { n ≤ length words.now }
    ensures { result.now ≡ drop n words.now }
{
    words.split_at(n).1
}

/// The order behind so many words.
fn mark_behind(alloc: Global, words: &[&[u8]], n: usize) -> Result<MarkAndWords, WordFault>
    requires { n ≤ length words.now }
    ensures gives { GivesMark result (drop n (map (λ w. w.now) words.now)) }
    ensures some { IfOk result (λ first. (0 < first.words) × (n + first.words ≤ length words.now)) }
{
    read_order_mark(alloc, behind(words, n))
}

#[tactic(auto, using(crate::proofs::OrderLoop::read_none, crate::proofs::OrderLoop::read_more, crate::proofs::OrderLoop::read_stop, crate::proofs::OrderLoop::read_done))]
fn read_order_marks(alloc: Global, words: &[&[u8]]) -> Result<OrderMarks, WordFault>
    ensures { Gives result (spec.order_marks (map (λ w. w.now) words.now)) }
{
    let mut marks = OrderMarks::new();
    let mut at = 0;
    while at < words.len() {
        match mark_behind(alloc, words, at) {
            Ok(first) => {
                marks.push(alloc, first.mark)?;
                at += first.words;
            }
            Err(fault) => return Err(fault),
        }
    }
    Ok(marks)
}

pub(crate) fn read_orders(alloc: Global, words: &[&[u8]]) -> Result<Act, WordFault>
    ensures { Gives result (spec.orders (map (λ w. w.now) words.now)) }
{
    let [conn, sent, _, orders @ ..] = words else {
        return Err(WordFault::Unreadable);
    };
    Ok(Act::Orders {
        conn: read_conn(alloc, conn)?,
        sent: read_u64(alloc, sent)?,
        orders: read_order_marks(alloc, orders)?,
    })
}

pub(crate) fn read_closed(alloc: Global, words: &[&[u8]]) -> Result<Act, WordFault>
    ensures { Gives result (spec.closed (map (λ w. w.now) words.now)) }
{
    let [conn, sent, cause, heard] = words else {
        return Err(WordFault::Unreadable);
    };
    Ok(Act::Closed {
        conn: read_conn(alloc, conn)?,
        sent: read_u64(alloc, sent)?,
        cause: read_cause(alloc, cause)?,
        heard: read_streams(alloc, heard)?,
    })
}

/// A report by its name.
pub(crate) fn read_reported(alloc: Global, name: &[u8], words: &[&[u8]]) -> Result<Act, WordFault>
    ensures { Gives result (spec.reported name.now (map (λ w. w.now) words.now)) }
{
    let [conn, sent, report @ ..] = words else {
        return Err(WordFault::Unreadable);
    };
    Ok(Act::Reported {
        conn: read_conn(alloc, conn)?,
        sent: read_u64(alloc, sent)?,
        report: read_report(alloc, name, report)?,
    })
}

pub(crate) fn read_expire(alloc: Global, words: &[&[u8]]) -> Result<Act, WordFault>
    ensures { Gives result (spec.expire (map (λ w. w.now) words.now)) }
{
    match words {
        [exchange] => Ok(Act::Expire(read_exchange(alloc, exchange)?)),
        _ => Err(WordFault::Unreadable),
    }
}

pub(crate) fn read_lapse(alloc: Global, words: &[&[u8]]) -> Result<Act, WordFault>
    ensures { Gives result (spec.lapse (map (λ w. w.now) words.now)) }
{
    match words {
        [exchange] => Ok(Act::Lapse(read_exchange(alloc, exchange)?)),
        _ => Err(WordFault::Unreadable),
    }
}

pub(crate) fn read_assign(alloc: Global, words: &[&[u8]]) -> Result<Act, WordFault>
    ensures { Gives result (spec.assign (map (λ w. w.now) words.now)) }
{
    let [exchange, conn, stream, way] = words else {
        return Err(WordFault::Unreadable);
    };
    Ok(Act::Assign {
        exchange: read_exchange(alloc, exchange)?,
        conn: read_conn(alloc, conn)?,
        stream: read_stream(alloc, stream)?,
        way: read_way(way)?,
    })
}

pub(crate) fn read_want(alloc: Global, words: &[&[u8]]) -> Result<Act, WordFault>
    ensures { Gives result (spec.want (map (λ w. w.now) words.now)) }
{
    let [exchange, conn, target @ ..] = words else {
        return Err(WordFault::Unreadable);
    };
    Ok(Act::Want {
        exchange: read_exchange(alloc, exchange)?,
        conn: read_conn(alloc, conn)?,
        target: read_target(alloc, target)?,
    })
}

pub(crate) fn read_evict(alloc: Global, words: &[&[u8]]) -> Result<Act, WordFault>
    ensures { Gives result (spec.evict (map (λ w. w.now) words.now)) }
{
    match words {
        [conn] => Ok(Act::Evict(read_conn(alloc, conn)?)),
        _ => Err(WordFault::Unreadable),
    }
}
