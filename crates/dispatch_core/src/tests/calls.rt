// A worker's calls of the port. Each stands behind a test whether the caller may make it, from which its condition is known.
// An answer that isn't the wanted one is told as want of memory.
ghost use Rattle.std.specs.Prelude.{IsTrue};
ghost use Rattle.model_histories.specs.Port.{MayCloseBy};

use super::*;

/// The place of the shutdown, which a seek tells where no connection is wanted.
pub(super) fn stop_by<P: PoolPort>(
    port: &mut P,
    alloc: Global,
    moment: Moment,
) -> Result<u64, NoMem> {
    match port.seek(alloc, moment)? {
        Seek::Dial(conn, _) => {
            conn.spend();
            Err(NoMem)
        }
        Seek::Stop(place) => Ok(place),
        Seek::Nothing(_) => Err(NoMem),
    }
}

/// A connection to dial, which is to go there.
pub(super) fn dial_by<P: PoolPort>(
    port: &mut P,
    alloc: Global,
    moment: Moment,
    target: &Target,
) -> Result<ConnTicket, NoMem> {
    match port.seek(alloc, moment)? {
        Seek::Dial(conn, to) => if to.same(target) {
            Ok(conn)
        } else {
            conn.spend();
            Err(NoMem)
        },
        Seek::Stop(_) => Err(NoMem),
        Seek::Nothing(_) => Err(NoMem),
    }
}

/// Reports this, where the caller may.
fn report_by(
    port: &mut DirectPort<'_>,
    alloc: Global,
    moment: Moment,
    conn: &ConnTicket,
    sent: u64,
    r: Report,
) -> Result<(), NoMem> {
    if !port.may_report(alloc, conn.no(), sent, &r)? {
        return Err(NoMem);
    }
    port.report(alloc, moment, conn, sent, r)
}

/// The connection comes up.
pub(super) fn open_by(
    port: &mut DirectPort<'_>,
    alloc: Global,
    moment: Moment,
    conn: &ConnTicket,
) -> Result<(), NoMem> {
    report_by(
        port,
        alloc,
        moment,
        conn,
        0,
        Report::Opened(shows_nothing()),
    )
}

/// An answer of status 200 without fields and body.
pub(super) fn plain_answer() -> Response {
    Response {
        status: 200,
        fields: Fields::new(),
        body: Octets::new(),
        trailers: Fields::new(),
    }
}

/// The stream is answered, and the connection stays.
pub(super) fn answered(stream: StreamNo) -> Report {
    Report::Answered {
        stream,
        response: plain_answer(),
        keep: true,
        alt: AltUpdate::None,
        proof: Proof::NotAsked,
    }
}

/// The stream is answered, once 32 octets were sent.
pub(super) fn answer_by(
    port: &mut DirectPort<'_>,
    alloc: Global,
    moment: Moment,
    conn: &ConnTicket,
    stream: StreamNo,
) -> Result<(), NoMem> {
    report_by(port, alloc, moment, conn, 32, answered(stream))
}

/// Takes the orders, where the caller may ask for them.
pub(super) fn order_by(
    port: &mut DirectPort<'_>,
    alloc: Global,
    moment: Moment,
    conn: &ConnTicket,
    sent: u64,
) -> Result<OrdersReply, NoMem> {
    if !port.may_work(alloc, conn.no(), sent)? {
        return Err(NoMem);
    }
    port.orders(alloc, moment, conn, sent)
}

/// The stream that the first of the orders starts.
fn first_start(list: &Orders) -> Option<StreamNo> {
    match list.get(0) {
        Some(Order::Start { stream, .. }) => Some(*stream),
        _ => None,
    }
}

/// Takes the orders. The first is to start a stream, which is this.
pub(super) fn start_by(
    port: &mut DirectPort<'_>,
    alloc: Global,
    moment: Moment,
    conn: &ConnTicket,
) -> Result<StreamNo, NoMem> {
    match order_by(port, alloc, moment, conn, 0)? {
        OrdersReply::Orders(list) => match first_start(&list) {
            Some(stream) => Ok(stream),
            None => Err(NoMem),
        },
        OrdersReply::Nothing(_) => Err(NoMem),
    }
}

/// Whether the caller may give up the connection, as far as memory tells.
fn may_close_by<'a>(
    port: &DirectPort<'a>,
    alloc: Global,
    conn: &ConnTicket,
    sent: u64,
    cause: EndCause,
) -> bool
    ensures { IsTrue result → MayCloseBy (⟦<DirectPort<'a> as PoolPort>⟧.port port.now) conn.now sent cause }
{
    match port.may_close(alloc, conn.no(), sent, cause) {
        Ok(may) => may,
        Err(_) => false,
    }
}

/// Gives up the connection, where the caller may.
pub(super) fn close_by(
    port: &mut DirectPort<'_>,
    alloc: Global,
    moment: Moment,
    conn: ConnTicket,
    sent: u64,
    cause: EndCause,
) -> Result<(), NoMem> {
    if !may_close_by(port, alloc, &conn, sent, cause) {
        conn.spend();
        return Err(NoMem);
    }
    match port.closed(alloc, moment, conn, sent, cause, StreamList::new()) {
        Ok(()) => Ok(()),
        Err(TicketKept(conn)) => {
            conn.spend();
            Err(NoMem)
        }
    }
}
