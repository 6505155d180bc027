// Whole courses of calls.
ghost use Rattle.std.specs.Prelude.{◌≡◌, IfOk, None};

use super::*;

fn is_answered(looked: &Look) -> bool {
    match looked {
        Look::Ended(how) => how.same(&Outcome::Answered(plain_answer())),
        _ => false,
    }
}

fn has_timed_out(looked: &Look) -> bool {
    match looked {
        Look::Ended(how) => matches!(how, Outcome::TimedOut(_)),
        _ => false,
    }
}

fn is_pending(looked: &Look, entries: u64) -> bool {
    match looked {
        Look::Pending(n) => *n == entries,
        _ => false,
    }
}

/// Whether the one order is to close.
fn is_close(reply: &OrdersReply) -> bool {
    match reply {
        OrdersReply::Orders(list) => list.len() == 1 && matches!(list.get(0), Some(Order::Close)),
        OrdersReply::Nothing(_) => false,
    }
}

/// A GET is submitted, and is pending.
fn ask_by<P: PoolPort>(
    port: &mut P,
    alloc: Global,
    asked: Submission,
    rt: &impl Abort,
) -> Result<(), NoMem>
    requires urgency { asked.urgency ≡ 3 }
    requires key { asked.key.second ≡ None }
{
    let reply = port.submit(alloc, Moment(0), asked)?;
    assert_eq!(rt; reply, SubmitReply::Accepted(ExchangeNo(1)));
    let looked = port.look(alloc, Moment(0), ExchangeNo(1))?;
    assert!(rt; is_pending(&looked, 2));
    Ok(())
}

/// From the opening of the connection to the answer.
fn work_by(
    port: &mut DirectPort<'_>,
    alloc: Global,
    conn: &ConnTicket,
    rt: &impl Abort,
) -> Result<(), NoMem> {
    open_by(port, alloc, Moment(0), conn)?;
    let stream = start_by(port, alloc, Moment(10), conn)?;
    assert_eq!(rt; stream, StreamNo(1));
    answer_by(port, alloc, Moment(20), conn, stream)?;
    let looked = port.look(alloc, Moment(20), ExchangeNo(1))?;
    assert!(rt; is_answered(&looked));
    Ok(())
}

/// From the shutdown to the last order.
fn stop_work_by(
    port: &mut DirectPort<'_>,
    alloc: Global,
    conn: &ConnTicket,
    rt: &impl Abort,
) -> Result<(), NoMem> {
    let key = page(alloc)?;
    let at = origin(alloc, b"b.test")?;
    let opened = port.preconnect(alloc, Moment(30), key, true, at, 2)?;
    assert_eq!(rt; opened, PreconnectReply::Opening(2));
    let cancelled = port.cancel(alloc, Moment(40), ExchangeNo(1))?;
    assert_eq!(rt; cancelled, CancelReply::Ended);
    let shut = port.shutdown(alloc, Moment(50))?;
    assert_eq!(rt; shut, ShutReply::Noted);
    let stopped = stop_by(port, alloc, Moment(50))?;
    assert_eq!(rt; stopped, 13);
    let told = order_by(port, alloc, Moment(50), conn, 32)?;
    assert!(rt; is_close(&told));
    Ok(())
}

/// All that the connection's worker does before it ends.
fn carry_by(
    port: &mut DirectPort<'_>,
    alloc: Global,
    conn: &ConnTicket,
    rt: &impl Abort,
) -> Result<(), NoMem> {
    work_by(port, alloc, conn, rt)?;
    stop_work_by(port, alloc, conn, rt)
}

/// The calls before a connection is dialed.
fn begin_by<P: PoolPort>(port: &mut P, alloc: Global, rt: &impl Abort) -> Result<(), NoMem> {
    let asked = ask(alloc)?;
    ask_by(port, alloc, asked, rt)?;
    let changed = port.reprioritise(alloc, Moment(0), ExchangeNo(1), 7)?;
    assert_eq!(rt; changed, ChangeReply::Changed);
    let key = page(alloc)?;
    let host = Octets::build(alloc, b"a.test")?;
    let noted = port.resolved(alloc, Moment(0), key, host, Addresses::new())?;
    assert_eq!(rt; noted, ResolvedReply::Noted);
    port.network_changed(alloc, Moment(0))
}

/// One GET over one connection, with each of a port's twelve calls.
fn get_by(port: &mut DirectPort<'_>, alloc: Global, rt: &impl Abort) -> Result<(), NoMem> {
    begin_by(port, alloc, rt)?;
    let target = direct(alloc)?;
    let conn = dial_by(port, alloc, Moment(0), &target)?;
    match carry_by(port, alloc, &conn, rt) {
        Ok(()) => close_by(port, alloc, Moment(50), conn, 32, EndCause::Done),
        Err(_) => {
            conn.spend();
            Err(NoMem)
        }
    }
}

#[test]
fn each_call_of_a_port_is_answered(rt: HostRuntime) -> Result<(), Fail> {
    let alloc = rt.alloc();
    let mut pool = Pool::new(alloc, LIMITS)?;
    let mut port = DirectPort::new(&mut pool, CallerNo(1));
    get_by(&mut port, alloc, &rt)?;
    assert_eq!(rt; pool.history().len(), 15);
    Ok(())
}

/// A GET with a deadline.
fn ask_until(alloc: Global, deadline: u64) -> Result<Submission, NoMem>
    ensures urgency { IfOk result (λ ask. ask.urgency ≡ 3) }
    ensures key { IfOk result (λ ask. ask.key.second ≡ None) }
{
    let mut asked = ask(alloc)?;
    asked.deadline = Some(Moment(deadline));
    Ok(asked)
}

/// Looks before the deadline and at it.
fn look_late_by<P: PoolPort>(port: &mut P, alloc: Global, rt: &impl Abort) -> Result<(), NoMem> {
    let asked = ask_until(alloc, 100)?;
    ask_by(port, alloc, asked, rt)?;
    let looked = port.look(alloc, Moment(99), ExchangeNo(1))?;
    assert!(rt; is_pending(&looked, 2));
    let looked = port.look(alloc, Moment(100), ExchangeNo(1))?;
    assert!(rt; has_timed_out(&looked));
    Ok(())
}

#[test]
fn a_late_look_tells_that_the_deadline_was_reached(rt: HostRuntime) -> Result<(), Fail> {
    let alloc = rt.alloc();
    let mut pool = Pool::new(alloc, LIMITS)?;
    let mut port = DirectPort::new(&mut pool, CallerNo(1));
    look_late_by(&mut port, alloc, &rt)?;
    assert_eq!(rt; pool.history().len(), 4);
    Ok(())
}
