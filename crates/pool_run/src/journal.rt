// The entries of the run of one exchange, their journal and their summary.
ghost use Rattle.std.specs.Prelude.{◌≡◌, ◌+◌, [], ◌∷◌, ◌++◌, ◌<◌, ◌^◌, IfOk, OnOk};
ghost use Rattle.pool_run.specs.Moments as moments;
ghost use Rattle.pool_run.specs.Journal as spec;
ghost use Rattle.scenario_text.specs.Calls.{default_key};

use crate::serial::target_of;
use journal_summary::write_summary;
use journal_text::write_journal;
use model_values::{
    Act, Entry, History, OrderMark, OrderMarks, Report, ShutReply, Submission, SubmitReply, Way,
};
use net_base::{
    CallerNo, ConnNo, EndCause, ExchangeNo, Identity, Moment, NoMem, Octets, PlainValue, Request,
    Response, Scheme, StreamList, StreamNo,
};
use partition_keys::{AltUpdate, PartitionKey, Proof, Site};
use scenario_text::DEFAULT_CONFIG;
use std::alloc::Global;

/// The moment of a round, in milliseconds.
pub(crate) fn moment_of(round: u64) -> u64
    ensures { result ≡ moments.moment_of round }
{
    round.saturating_mul(10).min(18446744073709551610)
}

/// Adds the entry of this caller at this moment.
fn add(alloc: Global, h: &mut History, moment: u64, who: u32, act: Act) -> Result<(), NoMem>
    ensures { OnOk result (h.new ≡ h.old ++ spec.entry moment who act ∷ []) }
{
    let entry = Entry {
        who: CallerNo(who),
        moment: Moment(moment),
        act,
    };
    h.push(alloc, entry)
}

/// The key of a page of https://top.test.
fn key(alloc: Global) -> Result<PartitionKey, NoMem>
    ensures { IfOk result (λ key. key ≡ default_key) }
{
    Ok(PartitionKey {
        site: Site::Tuple(Scheme::Https, Octets::build(alloc, b"top.test")?),
        second: None,
    })
}

/// A submission with each default of a scenario.
#[tactic(auto, unfolding(crate::specs::Journal::submission_of))]
fn submission_of(alloc: Global, request: &Request) -> Result<Submission, NoMem>
    ensures { IfOk result (λ ask. ask ≡ spec.submission_of request.now) }
{
    Ok(Submission {
        key: key(alloc)?,
        credentials: true,
        request: request.copy(alloc)?,
        urgency: 3,
        background: false,
        deadline: None,
        probe: false,
    })
}

/// Adds that channel 1 submits, that a connection is wanted, and that worker 101 is to dial it.
#[tactic(auto, unfolding(crate::specs::Journal::wanted_entries))]
fn add_wanted(alloc: Global, h: &mut History, request: &Request) -> Result<(), NoMem>
    ensures { OnOk result (h.new ≡ h.old ++ spec.wanted_entries request.now) }
{
    let ask = submission_of(alloc, request)?;
    let reply = SubmitReply::Accepted(ExchangeNo(1));
    add(alloc, h, 0, 1, Act::Submit { ask, reply })?;
    let exchange = ExchangeNo(1);
    let conn = ConnNo(1);
    let target = target_of(alloc, &request.origin)?;
    let want = Act::Want {
        exchange,
        conn,
        target,
    };
    add(alloc, h, 0, 0, want)?;
    let target = target_of(alloc, &request.origin)?;
    add(alloc, h, 0, 101, Act::Dial { conn, target })
}

/// One order.
fn one_order(alloc: Global, mark: OrderMark) -> Result<OrderMarks, NoMem>
    ensures { IfOk result (λ orders. orders ≡ mark ∷ []) }
{
    let mut orders = OrderMarks::new();
    orders.push(alloc, mark)?;
    Ok(orders)
}

/// Adds that the connection came up, that the exchange gets it, and that its order is taken.
#[tactic(auto, unfolding(crate::specs::Journal::opened_entries))]
fn add_opened(alloc: Global, h: &mut History, identity: &Identity) -> Result<(), NoMem>
    ensures { OnOk result (h.new ≡ h.old ++ spec.opened_entries identity.now) }
{
    let exchange = ExchangeNo(1);
    let conn = ConnNo(1);
    let stream = StreamNo(1);
    let opened = Act::Reported {
        conn,
        sent: 0,
        report: Report::Opened(identity.copy(alloc)?),
    };
    add(alloc, h, 0, 101, opened)?;
    let assign = Act::Assign {
        exchange,
        conn,
        stream,
        way: Way::Direct,
    };
    add(alloc, h, 0, 0, assign)?;
    let orders = one_order(alloc, OrderMark::Start { exchange, stream })?;
    let start = Act::Orders {
        conn,
        sent: 0,
        orders,
    };
    add(alloc, h, 10, 101, start)
}

/// Adds the answer.
#[tactic(auto, unfolding(crate::specs::Journal::answered_entries))]
fn add_answered(
    alloc: Global,
    h: &mut History,
    moment: u64,
    sent: u64,
    response: &Response,
) -> Result<(), NoMem>
    ensures { OnOk result (h.new ≡ h.old ++ spec.answered_entries moment sent response.now) }
{
    let report = Report::Answered {
        stream: StreamNo(1),
        response: response.copy(alloc)?,
        keep: true,
        alt: AltUpdate::None,
        proof: Proof::NotAsked,
    };
    let conn = ConnNo(1);
    add(alloc, h, moment, 101, Act::Reported { conn, sent, report })
}

/// Adds the shutdown, the order to close, and the end of the connection.
#[tactic(auto, unfolding(crate::specs::Journal::closed_entries))]
fn add_closed(alloc: Global, h: &mut History, moment: u64, sent: u64) -> Result<(), NoMem>
    ensures { OnOk result (h.new ≡ h.old ++ spec.closed_entries moment sent) }
{
    let reply = ShutReply::Noted;
    add(alloc, h, moment, 999, Act::Shutdown { reply })?;
    let conn = ConnNo(1);
    let orders = one_order(alloc, OrderMark::Close)?;
    add(alloc, h, moment, 101, Act::Orders { conn, sent, orders })?;
    let closed = Act::Closed {
        conn,
        sent,
        cause: EndCause::Done,
        heard: StreamList::new(),
    };
    add(alloc, h, moment, 101, closed)
}

/// The entries of an exchange. The request's text has `sent` octets, and it was answered in `round`.
#[tactic(auto, unfolding(crate::specs::Journal::exchange_history))]
fn exchange_history(
    alloc: Global,
    request: &Request,
    identity: &Identity,
    sent: u64,
    round: u64,
    response: &Response,
) -> Result<History, NoMem>
    requires { round + 3 < 2 ^ 64 }
    ensures { IfOk result (λ h. h ≡ spec.exchange_history request.now identity.now sent round response.now) }
{
    let mut h = History::new();
    add_wanted(alloc, &mut h, request)?;
    add_opened(alloc, &mut h, identity)?;
    add_answered(alloc, &mut h, moment_of(round), sent, response)?;
    add_closed(alloc, &mut h, moment_of(round + 3), sent)?;
    Ok(h)
}

/// The journal of an exchange and its summary.
#[tactic(auto, unfolding(crate::specs::Journal::exchange_text))]
pub(crate) fn exchange_text(
    alloc: Global,
    request: &Request,
    identity: &Identity,
    sent: u64,
    round: u64,
    response: &Response,
) -> Result<Octets, NoMem>
    requires { round + 3 < 2 ^ 64 }
    ensures { IfOk result (λ text. text ≡ spec.exchange_text request.now identity.now sent round response.now) }
{
    let h = exchange_history(alloc, request, identity, sent, round, response)?;
    let mut text = write_journal(alloc, &h)?;
    let summary = write_summary(alloc, &DEFAULT_CONFIG, &h)?;
    text.extend(alloc, summary.as_slice())?;
    Ok(text)
}
