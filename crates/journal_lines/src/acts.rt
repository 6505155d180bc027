// The words of acts.
ghost use Rattle.std.specs.Prelude.{◌≡◌, [], ◌∷◌, ◌++◌, codes, OnOk};
ghost use Rattle.std.specs.Fmt.{decimal};
ghost use Rattle.partition_keys.specs.Sites.{site_text};
ghost use Rattle.journal_lines.specs.Lines as spec;
ghost use Rattle.journal_words.specs.Words.{spaced_words, target_words};

use crate::parts::{put_order_marks, put_submission};
use crate::replies::{
    cancel_reply_text, change_reply_text, put_preconnect_reply, put_resolved_reply, put_shut_reply,
    put_submit_reply,
};
use crate::reports::{put_report, report_name};
use journal_words::{
    addresses_text, cause_text, credentials_text, origin_text, put, put_number, put_target,
    streams_text, way_text,
};
use model_values::{
    Act, CancelReply, ChangeReply, OrderMarks, PreconnectReply, Report, ResolvedReply, ShutReply,
    Submission, SubmitReply, Way,
};
use net_base::{
    Addresses, ConnNo, EndCause, ExchangeNo, NoMem, Octets, Origin, StreamList, StreamNo, Target,
};
use partition_keys::{PartitionKey, write_site};
use std::alloc::Global;

/// A name, and the number of an exchange or a connection.
fn put_named(alloc: Global, line: &mut Octets, name: &str, n: u64) -> Result<(), NoMem>
    ensures { OnOk result (line.new ≡ line.old ++ spaced_words (name.now ∷ decimal n ∷ [])) }
{
    put(alloc, line, name.as_bytes())?;
    put_number(alloc, line, n)
}

/// A name, and `=`.
fn put_answering(alloc: Global, line: &mut Octets, name: &str) -> Result<(), NoMem>
    ensures { OnOk result (line.new ≡ line.old ++ spaced_words (name.now ∷ codes "=" ∷ [])) }
{
    put(alloc, line, name.as_bytes())?;
    put(alloc, line, b"=")
}

/// A name, a connection and its count of octets sent.
fn put_work(
    alloc: Global,
    line: &mut Octets,
    name: &str,
    conn: ConnNo,
    sent: u64,
) -> Result<(), NoMem>
    ensures { OnOk result (line.new ≡ line.old ++ spaced_words (name.now ∷ decimal conn.0 ∷ decimal sent ∷ [])) }
{
    put_named(alloc, line, name, u64::from(conn.0))?;
    put_number(alloc, line, sent)
}

fn put_submit(
    alloc: Global,
    line: &mut Octets,
    ask: &Submission,
    reply: SubmitReply,
) -> Result<(), NoMem>
    ensures { OnOk result (line.new ≡ line.old ++ spaced_words (spec.act_words (Act.Submit ask.now reply))) }
{
    put(alloc, line, b"submit")?;
    put_submission(alloc, line, ask)?;
    put(alloc, line, b"=")?;
    put_submit_reply(alloc, line, reply)
}

fn put_cancel(
    alloc: Global,
    line: &mut Octets,
    exchange: ExchangeNo,
    reply: CancelReply,
) -> Result<(), NoMem>
    ensures { OnOk result (line.new ≡ line.old ++ spaced_words (spec.act_words (Act.Cancel exchange reply))) }
{
    put_named(alloc, line, "cancel", exchange.0)?;
    put(alloc, line, b"=")?;
    put(alloc, line, cancel_reply_text(reply).as_bytes())
}

fn put_reprioritise(
    alloc: Global,
    line: &mut Octets,
    exchange: ExchangeNo,
    urgency: u8,
    reply: ChangeReply,
) -> Result<(), NoMem>
    ensures { OnOk result (line.new ≡ line.old ++ spaced_words (spec.act_words (Act.Reprioritise exchange urgency reply))) }
{
    put_named(alloc, line, "reprioritise", exchange.0)?;
    put_number(alloc, line, u64::from(urgency))?;
    put(alloc, line, b"=")?;
    put(alloc, line, change_reply_text(reply).as_bytes())
}

fn put_site(alloc: Global, line: &mut Octets, key: &PartitionKey) -> Result<(), NoMem>
    ensures { OnOk result (line.new ≡ line.old ++ spaced_words (site_text key.now.site ∷ [])) }
{
    let site = write_site(alloc, &key.site)?;
    put(alloc, line, site.as_slice())
}

/// SITE CRED ORIGIN.
#[tactic(auto, unfolding(crate::specs::Lines::group_words))]
fn put_group(
    alloc: Global,
    line: &mut Octets,
    key: &PartitionKey,
    credentials: bool,
    origin: &Origin,
) -> Result<(), NoMem>
    ensures { OnOk result (line.new ≡ line.old ++ spaced_words (spec.group_words key.now credentials origin.now)) }
{
    put_site(alloc, line, key)?;
    put(alloc, line, credentials_text(credentials).as_bytes())?;
    let origin = origin_text(alloc, origin)?;
    put(alloc, line, origin.as_slice())
}

/// COUNT, `=` and the reply.
fn put_count(
    alloc: Global,
    line: &mut Octets,
    count: u32,
    reply: PreconnectReply,
) -> Result<(), NoMem>
    ensures { OnOk result (line.new ≡ line.old ++ spaced_words (decimal count ∷ codes "=" ∷ spec.preconnect_reply_words reply)) }
{
    put_number(alloc, line, u64::from(count))?;
    put(alloc, line, b"=")?;
    put_preconnect_reply(alloc, line, reply)
}

fn put_preconnect(
    alloc: Global,
    line: &mut Octets,
    key: &PartitionKey,
    credentials: bool,
    origin: &Origin,
    count: u32,
    reply: PreconnectReply,
) -> Result<(), NoMem>
    ensures { OnOk result (line.new ≡ line.old ++ spaced_words (spec.act_words (Act.Preconnect key.now credentials origin.now count reply))) }
{
    put(alloc, line, b"preconnect")?;
    put_group(alloc, line, key, credentials, origin)?;
    put_count(alloc, line, count, reply)
}

fn put_resolved(
    alloc: Global,
    line: &mut Octets,
    key: &PartitionKey,
    host: &Octets,
    addresses: &Addresses,
    reply: ResolvedReply,
) -> Result<(), NoMem>
    ensures { OnOk result (line.new ≡ line.old ++ spaced_words (spec.act_words (Act.Resolved key.now host.now addresses.now reply))) }
{
    put(alloc, line, b"resolved")?;
    put_site(alloc, line, key)?;
    put(alloc, line, host.as_slice())?;
    let addresses = addresses_text(alloc, addresses)?;
    put(alloc, line, addresses.as_slice())?;
    put(alloc, line, b"=")?;
    put_resolved_reply(alloc, line, reply)
}

fn put_shutdown(alloc: Global, line: &mut Octets, reply: ShutReply) -> Result<(), NoMem>
    ensures { OnOk result (line.new ≡ line.old ++ spaced_words (spec.act_words (Act.Shutdown reply))) }
{
    put_answering(alloc, line, "shutdown")?;
    put_shut_reply(alloc, line, reply)
}

/// `dial` with a connection and its target.
fn put_dialed(alloc: Global, line: &mut Octets, conn: ConnNo, target: &Target) -> Result<(), NoMem>
    ensures { OnOk result (line.new ≡ line.old ++ spaced_words (codes "dial" ∷ decimal conn.0 ∷ target_words target.now)) }
{
    put_named(alloc, line, "dial", u64::from(conn.0))?;
    put_target(alloc, line, target)
}

fn put_dial(alloc: Global, line: &mut Octets, conn: ConnNo, target: &Target) -> Result<(), NoMem>
    ensures { OnOk result (line.new ≡ line.old ++ spaced_words (spec.act_words (Act.Dial conn target.now))) }
{
    put_answering(alloc, line, "seek")?;
    put_dialed(alloc, line, conn, target)
}

fn put_orders(
    alloc: Global,
    line: &mut Octets,
    conn: ConnNo,
    sent: u64,
    orders: &OrderMarks,
) -> Result<(), NoMem>
    ensures { OnOk result (line.new ≡ line.old ++ spaced_words (spec.act_words (Act.Orders conn sent orders.now))) }
{
    put_work(alloc, line, "orders", conn, sent)?;
    put(alloc, line, b"=")?;
    put_order_marks(alloc, line, orders.as_slice())
}

fn put_reported(
    alloc: Global,
    line: &mut Octets,
    conn: ConnNo,
    sent: u64,
    r: &Report,
) -> Result<(), NoMem>
    ensures { OnOk result (line.new ≡ line.old ++ spaced_words (spec.act_words (Act.Reported conn sent r.now))) }
{
    put_work(alloc, line, report_name(r), conn, sent)?;
    put_report(alloc, line, r)
}

fn put_closed(
    alloc: Global,
    line: &mut Octets,
    conn: ConnNo,
    sent: u64,
    cause: EndCause,
    heard: &StreamList,
) -> Result<(), NoMem>
    ensures { OnOk result (line.new ≡ line.old ++ spaced_words (spec.act_words (Act.Closed conn sent cause heard.now))) }
{
    put_work(alloc, line, "closed", conn, sent)?;
    let cause = cause_text(alloc, cause)?;
    put(alloc, line, cause.as_slice())?;
    let heard = streams_text(alloc, heard)?;
    put(alloc, line, heard.as_slice())
}

fn put_assign(
    alloc: Global,
    line: &mut Octets,
    exchange: ExchangeNo,
    conn: ConnNo,
    stream: StreamNo,
    way: Way,
) -> Result<(), NoMem>
    ensures { OnOk result (line.new ≡ line.old ++ spaced_words (spec.act_words (Act.Assign exchange conn stream way))) }
{
    put_named(alloc, line, "assign", exchange.0)?;
    put_number(alloc, line, u64::from(conn.0))?;
    put_number(alloc, line, u64::from(stream.0))?;
    put(alloc, line, way_text(way).as_bytes())
}

fn put_want(
    alloc: Global,
    line: &mut Octets,
    exchange: ExchangeNo,
    conn: ConnNo,
    target: &Target,
) -> Result<(), NoMem>
    ensures { OnOk result (line.new ≡ line.old ++ spaced_words (spec.act_words (Act.Want exchange conn target.now))) }
{
    put_named(alloc, line, "want", exchange.0)?;
    put_number(alloc, line, u64::from(conn.0))?;
    put_target(alloc, line, target)
}

/// Puts the act's name and its words.
pub(crate) fn put_act(alloc: Global, line: &mut Octets, act: &Act) -> Result<(), NoMem>
    ensures { OnOk result (line.new ≡ line.old ++ spaced_words (spec.act_words act.now)) }
{
    match act {
        Act::Submit { ask, reply } => put_submit(alloc, line, ask, *reply),
        Act::Cancel { exchange, reply } => put_cancel(alloc, line, *exchange, *reply),
        Act::Reprioritise {
            exchange,
            urgency,
            reply,
        } => put_reprioritise(alloc, line, *exchange, *urgency, *reply),
        Act::Preconnect {
            key,
            credentials,
            origin,
            count,
            reply,
        } => put_preconnect(alloc, line, key, *credentials, origin, *count, *reply),
        Act::Resolved {
            key,
            host,
            addresses,
            reply,
        } => put_resolved(alloc, line, key, host, addresses, *reply),
        Act::Network => put(alloc, line, b"network"),
        Act::Tick => put(alloc, line, b"tick"),
        Act::Shutdown { reply } => put_shutdown(alloc, line, *reply),
        Act::Dial { conn, target } => put_dial(alloc, line, *conn, target),
        Act::Orders { conn, sent, orders } => put_orders(alloc, line, *conn, *sent, orders),
        Act::Reported { conn, sent, report } => put_reported(alloc, line, *conn, *sent, report),
        Act::Closed {
            conn,
            sent,
            cause,
            heard,
        } => put_closed(alloc, line, *conn, *sent, *cause, heard),
        Act::Expire(exchange) => put_named(alloc, line, "expire", exchange.0),
        Act::Lapse(exchange) => put_named(alloc, line, "lapse", exchange.0),
        Act::Assign {
            exchange,
            conn,
            stream,
            way,
        } => put_assign(alloc, line, *exchange, *conn, *stream, *way),
        Act::Want {
            exchange,
            conn,
            target,
        } => put_want(alloc, line, *exchange, *conn, target),
        Act::Evict(conn) => put_named(alloc, line, "evict", u64::from(conn.0)),
    }
}
