// The calls of a journal, made again on a pool.

use crate::channel_calls::call_as_channel;
use crate::tickets::Tickets;
use crate::worker_calls::{close_again, report_again, seek_again, take_orders_again};
use dispatch_core::Pool;
use model_values::{Act, Entry};
use net_base::NoMem;
use std::alloc::Global;

/// Why calls stopped being made.
#[derive(Clone, Copy, Debug, PartialEq, Eq)]
pub(crate) enum Halt {
    NoMem,
    /// The entry with this number, counted from 1, is of a call whose condition doesn't hold.
    BadCall(u64),
}

/// Why a call wasn't made.
#[derive(Clone, Copy, Debug, PartialEq, Eq)]
pub(crate) enum Unmade {
    NoMem,
    /// Its condition doesn't hold.
    Condition,
}

impl From<NoMem> for Unmade {
    fn from(_: NoMem) -> Unmade {
        Unmade::NoMem
    }
}

/// Makes the calls of these entries again, in order.
pub(crate) fn call_again(alloc: Global, pool: &mut Pool, entries: &[Entry]) -> Result<(), Halt> {
    let mut tickets = Tickets::new(alloc);
    let end = call_each(alloc, pool, &mut tickets, entries);
    tickets.spend();
    end
}

fn call_each(
    alloc: Global,
    pool: &mut Pool,
    tickets: &mut Tickets,
    entries: &[Entry],
) -> Result<(), Halt> {
    let mut place = 1u64;
    for e in entries {
        match call(alloc, pool, tickets, e) {
            Ok(()) => place += 1,
            Err(Unmade::NoMem) => return Err(Halt::NoMem),
            Err(Unmade::Condition) => return Err(Halt::BadCall(place)),
        }
    }
    Ok(())
}

/// Makes the call of an entry again. What the pool did by itself is passed over.
fn call(alloc: Global, pool: &mut Pool, tickets: &mut Tickets, e: &Entry) -> Result<(), Unmade> {
    if e.who.0 == 0 {
        return Ok(());
    }
    match &e.act {
        Act::Dial { .. } => seek_again(alloc, pool, tickets, e),
        Act::Orders { conn, sent, .. } => {
            take_orders_again(alloc, pool, tickets, e, *conn, *sent)
        }
        Act::Reported { conn, sent, report } => {
            report_again(alloc, pool, tickets, e, *conn, *sent, report)
        }
        Act::Closed {
            conn,
            sent,
            cause,
            heard,
        } => close_again(alloc, pool, tickets, e, *conn, *sent, *cause, heard),
        _ => call_as_channel(alloc, pool, e),
    }
}
