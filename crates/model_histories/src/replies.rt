// The one reply that a state gives to each call, and whether an entry has it.
ghost use Rattle.std.specs.Prelude.{◌≡◌, ◌↔◌, ◌≤◌, ◌<◌, ◌+◌, ◌^◌, IsTrue, IsSomeAnd, Contains, Some, length};
ghost use Rattle.std.specs.Option.{option_copied};
ghost use Rattle.std.specs.Str.{bytes_eq};
ghost use Rattle.model_histories.specs.Legal as legal;
ghost use Rattle.model_authority.specs.Ways as ways;
ghost use Rattle.model_values.specs.Limits.{most_judged};
ghost use Rattle.model_histories.specs.Replies as spec;

use model_authority::{GroupParts, has_ended, is_busy, is_dialing, numbered};
use model_settling::{count_in_group, count_total, planned};
use model_steps::group_parts_for;
use model_values::{
    AbstractPool, CancelReply, ChangeReply, Connection, Exchange, MOST_ADDRESSES, OrderMarks,
    PreconnectReply, Report, ResolvedReply, ShutReply, Submission, SubmitReply,
};
use net_base::{Addresses, CallerNo, EndCause, ExchangeNo, Origin, PlainValue, Scheme, StreamNo};
use partition_keys::PartitionKey;

/// The exchange of this number, where it is this caller's.
#[tactic(auto, unfolding(crate::specs::Replies::own_exchange))]
pub fn own_exchange<'a>(s: &'a AbstractPool, who: CallerNo, no: ExchangeNo) -> Option<&'a Exchange>
    ensures { option_copied result ≡ spec.own_exchange s.now who no }
{
    match numbered(no.0, s.exchanges.as_slice()) {
        None => None,
        Some(e) => if e.caller.0 == who.0 { Some(e) } else { None },
    }
}

/// Whether a probe isn't one of the http-opportunistic resource of an http origin (RFC 8164, section 2.3).
pub fn is_bad_probe(ask: &Submission) -> bool
    ensures { result ≡ spec.is_bad_probe ask.now }
{
    ask.probe && !(ask.request.origin.scheme == Scheme::Http && is_probe_path(ask))
}

fn is_probe_path(ask: &Submission) -> bool
    ensures { result ≡ spec.is_probe_path ask.now.request.path }
{
    ask.request.path.as_slice() == b"/.well-known/http-opportunistic".as_slice()
}

/// The reply to a submission. The number of one more exchange has to fit.
pub fn submit_reply(s: &AbstractPool, ask: &Submission) -> SubmitReply
    requires { length s.now.exchanges + 1 < 2 ^ 64 }
    ensures { spec.IsSubmitReply s.now ask.now result }
{
    let accepted = s.exchanges.len() as u64;
    match s.shutdown {
        Some(place) => SubmitReply::Closed(place),
        None => if is_bad_probe(ask) {
            SubmitReply::BadProbe
        } else if accepted == s.config.submissions {
            SubmitReply::SubmissionsFull(accepted)
        } else {
            SubmitReply::Accepted(ExchangeNo(accepted + 1))
        },
    }
}

/// The reply to a cancel.
pub fn cancel_reply(s: &AbstractPool, who: CallerNo, no: ExchangeNo) -> CancelReply
    ensures { spec.IsCancelReply s.now who no result }
{
    match own_exchange(s, who, no) {
        None => CancelReply::Unknown,
        Some(e) => if has_ended(&e.status) {
            CancelReply::Ended
        } else {
            CancelReply::Cancelled
        },
    }
}

/// The reply to a change of urgency.
pub fn change_reply(s: &AbstractPool, who: CallerNo, no: ExchangeNo) -> ChangeReply
    ensures { spec.IsChangeReply s.now who no result }
{
    match own_exchange(s, who, no) {
        None => ChangeReply::Unknown,
        Some(e) => if has_ended(&e.status) {
            ChangeReply::Ended
        } else {
            ChangeReply::Changed
        },
    }
}

/// The reply to a call to open this many connections ahead. Connections have numbers of 32 bits, so their counts have too.
pub fn preconnect_reply(
    s: &AbstractPool,
    key: &PartitionKey,
    credentials: bool,
    origin: &Origin,
    count: u32,
) -> PreconnectReply
    requires { length s.now.connections ≤ most_judged }
    ensures { spec.IsPreconnectReply s.now (ways.group_for s.now key.now credentials origin.now) count result }
{
    let group = group_parts_for(s, key, credentials, origin);
    match s.shutdown {
        Some(place) => PreconnectReply::Closed(place),
        None => match planned(s, &group, count) {
            0 => PreconnectReply::NoRoom(count_total(s) as u32, count_in_group(s, &group) as u32),
            opening => PreconnectReply::Opening(opening),
        },
    }
}

/// The reply to addresses.
pub fn resolved_reply(s: &AbstractPool, addresses: &Addresses) -> ResolvedReply
    ensures { spec.IsResolvedReply s.now addresses.now result }
{
    let given = addresses.len() as u64;
    match s.shutdown {
        Some(place) => ResolvedReply::Closed(place),
        None => if given > MOST_ADDRESSES {
            ResolvedReply::TooMany(given)
        } else {
            ResolvedReply::Noted
        },
    }
}

/// The reply to a shutdown.
pub fn shut_reply(s: &AbstractPool) -> ShutReply
    ensures { spec.IsShutReply s.now result }
{
    match s.shutdown {
        Some(place) => ShutReply::Closed(place),
        None => ShutReply::Noted,
    }
}

/// Whether this is the reply to a submission.
pub(crate) fn is_submit_reply(s: &AbstractPool, ask: &Submission, reply: SubmitReply) -> bool
    ensures { IsTrue result ↔ spec.IsSubmitReply s.now ask.now reply }
{
    let accepted = s.exchanges.len() as u64;
    match reply {
        SubmitReply::Closed(place) => s.shutdown == Some(place),
        SubmitReply::BadProbe => s.shutdown.is_none() && is_bad_probe(ask),
        SubmitReply::SubmissionsFull(n) => s.shutdown.is_none()
            && !is_bad_probe(ask)
            && n == accepted
            && n == s.config.submissions,
        SubmitReply::Accepted(e) => s.shutdown.is_none()
            && !is_bad_probe(ask)
            && accepted != s.config.submissions
            && e.0 > 0
            && e.0 - 1 == accepted,
    }
}

/// Whether this is the reply to a cancel.
pub(crate) fn is_cancel_reply(
    s: &AbstractPool,
    who: CallerNo,
    no: ExchangeNo,
    reply: CancelReply,
) -> bool
    ensures { IsTrue result ↔ spec.IsCancelReply s.now who no reply }
{
    match own_exchange(s, who, no) {
        None => reply == CancelReply::Unknown,
        Some(e) => if has_ended(&e.status) {
            reply == CancelReply::Ended
        } else {
            reply == CancelReply::Cancelled
        },
    }
}

/// Whether this is the reply to a change of urgency.
pub(crate) fn is_change_reply(
    s: &AbstractPool,
    who: CallerNo,
    no: ExchangeNo,
    reply: ChangeReply,
) -> bool
    ensures { IsTrue result ↔ spec.IsChangeReply s.now who no reply }
{
    match own_exchange(s, who, no) {
        None => reply == ChangeReply::Unknown,
        Some(e) => if has_ended(&e.status) {
            reply == ChangeReply::Ended
        } else {
            reply == ChangeReply::Changed
        },
    }
}

/// Whether this is the reply to a call to open this many connections of a group ahead.
pub(crate) fn is_preconnect_reply(
    s: &AbstractPool,
    g: &GroupParts,
    count: u32,
    reply: PreconnectReply,
) -> bool
    ensures { IsTrue result ↔ spec.IsPreconnectReply s.now g.now count reply }
{
    match reply {
        PreconnectReply::Closed(place) => s.shutdown == Some(place),
        PreconnectReply::NoRoom(total, in_group) => s.shutdown.is_none()
            && planned(s, g, count) == 0
            && total as usize == count_total(s)
            && in_group as usize == count_in_group(s, g),
        PreconnectReply::Opening(k) => s.shutdown.is_none() && 0 < k && k == planned(s, g, count),
    }
}

/// Whether this is the reply to addresses.
pub(crate) fn is_resolved_reply(
    s: &AbstractPool,
    addresses: &Addresses,
    reply: ResolvedReply,
) -> bool
    ensures { IsTrue result ↔ spec.IsResolvedReply s.now addresses.now reply }
{
    let given = addresses.len() as u64;
    match reply {
        ResolvedReply::Closed(place) => s.shutdown == Some(place),
        ResolvedReply::TooMany(n) => s.shutdown.is_none() && n == given && MOST_ADDRESSES < given,
        ResolvedReply::Noted => s.shutdown.is_none() && given <= MOST_ADDRESSES,
    }
}

/// Whether this is the reply to a shutdown.
pub(crate) fn is_shut_reply(s: &AbstractPool, reply: ShutReply) -> bool
    ensures { IsTrue result ↔ spec.IsShutReply s.now reply }
{
    match reply {
        ShutReply::Closed(place) => s.shutdown == Some(place),
        ShutReply::Noted => s.shutdown.is_none(),
    }
}

/// Whether the key has no second part.
pub(crate) fn has_one_part(key: &PartitionKey) -> bool
    ensures { IsTrue result ↔ legal.HasOnePart key.now }
{
    key.second.is_none()
}

/// Whether the entry is one of the connection's worker, and the octets sent don't fall.
pub(crate) fn is_workers_entry(c: &Connection, who: CallerNo, sent: u64) -> bool
    ensures { IsTrue result ↔ legal.IsWorkersEntry c.now who sent }
{
    c.caller == who && c.sent <= sent
}

fn was_started(c: &Connection, stream: StreamNo) -> bool
    ensures { IsTrue result ↔ Contains c.now.started stream }
{
    c.started.as_slice().contains(&stream)
}

/// Whether this may be reported of the connection.
pub(crate) fn may_report(c: &Connection, report: &Report) -> bool
    ensures { IsTrue result ↔ legal.MayReport c.now report.now }
{
    match report {
        Report::Opened(_) => is_dialing(c.phase),
        Report::Limit(_) => is_busy(c.phase),
        Report::Answered { stream, .. } => is_busy(c.phase) && was_started(c, *stream),
        Report::Refused(stream) => is_busy(c.phase) && was_started(c, *stream),
        Report::Reset(stream, _) => is_busy(c.phase) && was_started(c, *stream),
        Report::TooLarge(stream) => is_busy(c.phase) && was_started(c, *stream),
        Report::StreamClosed(stream) => is_busy(c.phase) && was_started(c, *stream),
        Report::Goaway(_) => is_busy(c.phase),
        Report::AltSeen { .. } => is_busy(c.phase),
    }
}

/// Whether the connection may end by this cause.
pub(crate) fn may_close(c: &Connection, cause: EndCause) -> bool
    ensures { IsTrue result ↔ legal.MayClose c.now cause }
{
    match cause {
        EndCause::DialFailed => is_dialing(c.phase),
        EndCause::End => is_busy(c.phase),
        EndCause::LinkFault => is_busy(c.phase),
        EndCause::Broken { .. } => is_busy(c.phase),
        EndCause::Done => is_busy(c.phase),
    }
}

/// Whether these are all orders that are pending, and at least one.
pub(crate) fn may_take(c: &Connection, orders: &OrderMarks) -> bool
    ensures { IsTrue result ↔ legal.MayTake c.now orders.now }
{
    is_busy(c.phase) && orders.same(&c.orders) && orders.len() > 0
}
