// The orders of marks, by the state: the request of a start is its exchange's.
ghost use Rattle.std.specs.Prelude.{◌≡◌, ◌++◌, IfOk, OnOk};
ghost use Rattle.std.specs.List.{flat_map};
ghost use Rattle.std.specs.Option.{option_copied};
ghost use Rattle.dispatch_core.specs.Told.{start_for, told_at};

use model_authority::numbered;
use model_values::{AbstractPool, Connection, Exchange, Order, OrderMark, Orders};
use net_base::{ConnNo, ExchangeNo, NoMem, StreamNo, dressed};
use std::alloc::Global;

/// Adds the start of an exchange, where it and the connection are there.
fn add_start(
    alloc: Global,
    list: &mut Orders,
    no: ExchangeNo,
    stream: StreamNo,
    exchange: Option<&Exchange>,
    connection: Option<&Connection>,
) -> Result<(), NoMem>
    ensures { OnOk result (list.new ≡ list.old ++ start_for no stream (option_copied exchange.entry) (option_copied connection.entry)) }
{
    match (exchange, connection) {
        (Some(exchange), Some(connection)) => {
            let start = Order::Start {
                exchange: no,
                stream,
                request: dressed(alloc, &exchange.ask.request, &connection.group.target)?,
                probe: exchange.ask.probe,
            };
            list.push(alloc, start)
        }
        _ => Ok(()),
    }
}

/// Adds the order of a mark.
fn add_order(
    alloc: Global,
    list: &mut Orders,
    s: &AbstractPool,
    c: ConnNo,
    mark: OrderMark,
) -> Result<(), NoMem>
    ensures { OnOk result (list.new ≡ list.old ++ told_at s.now c mark) }
{
    match mark {
        OrderMark::Start { exchange, stream } => add_start(
            alloc,
            list,
            exchange,
            stream,
            numbered(exchange.0, s.exchanges.as_slice()),
            numbered(u64::from(c.0), s.connections.as_slice()),
        ),
        OrderMark::Reset(stream) => list.push(alloc, Order::Reset(stream)),
        OrderMark::Close => list.push(alloc, Order::Close),
    }
}

/// The orders of these marks.
pub(crate) fn orders_at(
    alloc: Global,
    s: &AbstractPool,
    c: ConnNo,
    marks: &[OrderMark],
) -> Result<Orders, NoMem>
    ensures { IfOk result (λ list. list ≡ flat_map (told_at s.now c) marks.now) }
{
    let mut list = Orders::new();
    for mark in marks {
        add_order(alloc, &mut list, s, c, *mark)?;
    }
    Ok(list)
}
