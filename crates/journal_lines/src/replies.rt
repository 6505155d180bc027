// The words of replies.
ghost use Rattle.std.specs.Prelude.{◌≡◌, [], ◌∷◌, ◌++◌, OnOk};
ghost use Rattle.std.specs.Fmt.{decimal};
ghost use Rattle.journal_lines.specs.Lines as spec;
ghost use Rattle.journal_words.specs.Words.{spaced_words};

use journal_words::{put, put_number};
use model_values::{
    CancelReply, ChangeReply, PreconnectReply, ResolvedReply, ShutReply, SubmitReply,
};
use net_base::{NoMem, Octets};
use std::alloc::Global;

/// A word and a number.
fn put_counted(alloc: Global, line: &mut Octets, word: &str, n: u64) -> Result<(), NoMem>
    ensures { OnOk result (line.new ≡ line.old ++ spaced_words (word.now ∷ decimal n ∷ [])) }
{
    put(alloc, line, word.as_bytes())?;
    put_number(alloc, line, n)
}

pub(crate) fn put_submit_reply(
    alloc: Global,
    line: &mut Octets,
    reply: SubmitReply,
) -> Result<(), NoMem>
    ensures { OnOk result (line.new ≡ line.old ++ spaced_words (spec.submit_reply_words reply)) }
{
    match reply {
        SubmitReply::Accepted(exchange) => put_counted(alloc, line, "accepted", exchange.0),
        SubmitReply::SubmissionsFull(n) => put_counted(alloc, line, "full", n),
        SubmitReply::BadProbe => put(alloc, line, b"bad-probe"),
        SubmitReply::Closed(place) => put_counted(alloc, line, "closed", place),
    }
}

pub(crate) fn cancel_reply_text(reply: CancelReply) -> &'static str
    ensures { result.now ≡ spec.cancel_reply_text reply }
{
    match reply {
        CancelReply::Cancelled => "cancelled",
        CancelReply::Ended => "ended",
        CancelReply::Unknown => "unknown",
    }
}

pub(crate) fn change_reply_text(reply: ChangeReply) -> &'static str
    ensures { result.now ≡ spec.change_reply_text reply }
{
    match reply {
        ChangeReply::Changed => "changed",
        ChangeReply::Ended => "ended",
        ChangeReply::Unknown => "unknown",
    }
}

pub(crate) fn put_preconnect_reply(
    alloc: Global,
    line: &mut Octets,
    reply: PreconnectReply,
) -> Result<(), NoMem>
    ensures { OnOk result (line.new ≡ line.old ++ spaced_words (spec.preconnect_reply_words reply)) }
{
    match reply {
        PreconnectReply::Opening(k) => put_counted(alloc, line, "opening", u64::from(k)),
        PreconnectReply::NoRoom(total, group) => {
            put_counted(alloc, line, "no-room", u64::from(total))?;
            put_number(alloc, line, u64::from(group))
        }
        PreconnectReply::Closed(place) => put_counted(alloc, line, "closed", place),
    }
}

pub(crate) fn put_resolved_reply(
    alloc: Global,
    line: &mut Octets,
    reply: ResolvedReply,
) -> Result<(), NoMem>
    ensures { OnOk result (line.new ≡ line.old ++ spaced_words (spec.resolved_reply_words reply)) }
{
    match reply {
        ResolvedReply::Noted => put(alloc, line, b"noted"),
        ResolvedReply::TooMany(n) => put_counted(alloc, line, "too-many", n),
        ResolvedReply::Closed(place) => put_counted(alloc, line, "closed", place),
    }
}

pub(crate) fn put_shut_reply(
    alloc: Global,
    line: &mut Octets,
    reply: ShutReply,
) -> Result<(), NoMem>
    ensures { OnOk result (line.new ≡ line.old ++ spaced_words (spec.shut_reply_words reply)) }
{
    match reply {
        ShutReply::Noted => put(alloc, line, b"noted"),
        ShutReply::Closed(place) => put_counted(alloc, line, "closed", place),
    }
}
