// The calls of a worker, made again. Each stands behind a test whether the caller may make it.
ghost use Rattle.std.specs.Prelude.{◌≢◌};

use crate::calls::Unmade;
use crate::tickets::Tickets;
use dispatch_core::Pool;
use model_values::{ConnTicket, Entry, Report, Seek, TicketKept};
use net_base::{ConnNo, EndCause, PlainValue, StreamList};
use std::alloc::Global;

/// Seeks again. A ticket that the pool gives is kept, for whichever connection it is.
pub(crate) fn seek_again(
    alloc: Global,
    pool: &mut Pool,
    tickets: &mut Tickets,
    e: &Entry,
) -> Result<(), Unmade>
    requires { e.now.who.0 ≢ 0 }
{
    match pool.seek(alloc, e.who, e.moment)? {
        Seek::Dial(ticket, _) => Ok(tickets.keep(e.who, ticket)?),
        Seek::Stop(_) | Seek::Nothing(_) => Ok(()),
    }
}

/// Takes the orders of a connection again. They are those that are pending now.
pub(crate) fn take_orders_again(
    alloc: Global,
    pool: &mut Pool,
    tickets: &Tickets,
    e: &Entry,
    conn: ConnNo,
    sent: u64,
) -> Result<(), Unmade>
    requires { e.now.who.0 ≢ 0 }
{
    let Some(ticket) = tickets.of(e.who, conn) else {
        return Err(Unmade::Condition);
    };
    if !pool.may_work(alloc, e.who, ticket.no(), sent)? {
        return Err(Unmade::Condition);
    }
    pool.orders(alloc, e.who, e.moment, ticket, sent)?;
    Ok(())
}

pub(crate) fn report_again(
    alloc: Global,
    pool: &mut Pool,
    tickets: &Tickets,
    e: &Entry,
    conn: ConnNo,
    sent: u64,
    report: &Report,
) -> Result<(), Unmade>
    requires { e.now.who.0 ≢ 0 }
{
    let Some(ticket) = tickets.of(e.who, conn) else {
        return Err(Unmade::Condition);
    };
    let report = report.copy(alloc)?;
    if !pool.may_report(alloc, e.who, ticket.no(), sent, &report)? {
        return Err(Unmade::Condition);
    }
    Ok(pool.report(alloc, e.who, e.moment, ticket, sent, report)?)
}

pub(crate) fn close_again(
    alloc: Global,
    pool: &mut Pool,
    tickets: &mut Tickets,
    e: &Entry,
    conn: ConnNo,
    sent: u64,
    cause: EndCause,
    heard: &StreamList,
) -> Result<(), Unmade>
    requires { e.now.who.0 ≢ 0 }
{
    let heard = heard.copy(alloc)?;
    let Some(ticket) = tickets.take(e.who, conn) else {
        return Err(Unmade::Condition);
    };
    match pool.may_close(alloc, e.who, ticket.no(), sent, cause) {
        Ok(true) => match pool.closed(alloc, e.who, e.moment, ticket, sent, cause, heard) {
            Ok(()) => Ok(()),
            Err(TicketKept(ticket)) => without_call(ticket, Unmade::NoMem),
        },
        Ok(false) => without_call(ticket, Unmade::Condition),
        Err(_) => without_call(ticket, Unmade::NoMem),
    }
}

/// Spends a ticket, as its connection isn't given up.
fn without_call(ticket: ConnTicket, why: Unmade) -> Result<(), Unmade> {
    ticket.spend();
    Err(why)
}
