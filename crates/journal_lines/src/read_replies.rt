// Replies read back.
ghost use Rattle.std.specs.Prelude.{◌≡◌, map, IfErr};
ghost use Rattle.journal_words.specs.Readers.{Gives};
ghost use Rattle.journal_lines.specs.LineReaders as spec;

use journal_words::{WordFault, read_u32, read_u64};
use model_values::{
    CancelReply, ChangeReply, PreconnectReply, ResolvedReply, ShutReply, SubmitReply,
};
use net_base::ExchangeNo;
use std::alloc::Global;

/// The reply to a submission.
pub(crate) fn read_submit_reply(alloc: Global, words: &[&[u8]]) -> Result<SubmitReply, WordFault>
    ensures { Gives result (spec.submit_reply (map (λ w. w.now) words.now)) }
{
    match words {
        [word] => read_bad_probe(word),
        [word, digits] => {
            let n = read_u64(alloc, digits)?;
            submit_reply_at(word, n)
        }
        _ => Err(WordFault::Unreadable),
    }
}

fn read_bad_probe(word: &[u8]) -> Result<SubmitReply, WordFault>
    ensures { Gives result (spec.bad_probe word.now) }
{
    if word == b"bad-probe".as_slice() {
        Ok(SubmitReply::BadProbe)
    } else {
        Err(WordFault::Unreadable)
    }
}

fn submit_reply_at(word: &[u8], n: u64) -> Result<SubmitReply, WordFault>
    ensures { Gives result (spec.submit_reply_at word.now n) }
{
    if word == b"accepted".as_slice() {
        Ok(SubmitReply::Accepted(ExchangeNo(n)))
    } else if word == b"full".as_slice() {
        Ok(SubmitReply::SubmissionsFull(n))
    } else if word == b"closed".as_slice() {
        Ok(SubmitReply::Closed(n))
    } else {
        Err(WordFault::Unreadable)
    }
}

/// The reply to a cancel.
pub(crate) fn read_cancel_reply(word: &[u8]) -> Result<CancelReply, WordFault>
    ensures gives { Gives result (spec.cancel_reply word.now) }
    ensures no_memory { IfErr result (λ e. e ≡ WordFault.Unreadable) }
{
    if word == b"cancelled".as_slice() {
        Ok(CancelReply::Cancelled)
    } else if word == b"ended".as_slice() {
        Ok(CancelReply::Ended)
    } else if word == b"unknown".as_slice() {
        Ok(CancelReply::Unknown)
    } else {
        Err(WordFault::Unreadable)
    }
}

/// The reply to a change of the urgency.
pub(crate) fn read_change_reply(word: &[u8]) -> Result<ChangeReply, WordFault>
    ensures gives { Gives result (spec.change_reply word.now) }
    ensures no_memory { IfErr result (λ e. e ≡ WordFault.Unreadable) }
{
    if word == b"changed".as_slice() {
        Ok(ChangeReply::Changed)
    } else if word == b"ended".as_slice() {
        Ok(ChangeReply::Ended)
    } else if word == b"unknown".as_slice() {
        Ok(ChangeReply::Unknown)
    } else {
        Err(WordFault::Unreadable)
    }
}

/// The reply to a preconnect.
pub(crate) fn read_preconnect_reply(
    alloc: Global,
    words: &[&[u8]],
) -> Result<PreconnectReply, WordFault>
    ensures { Gives result (spec.preconnect_reply (map (λ w. w.now) words.now)) }
{
    match words {
        [word, digits] => preconnect_reply_at(alloc, word, digits),
        [_, total, group] => Ok(PreconnectReply::NoRoom(
            read_u32(alloc, total)?,
            read_u32(alloc, group)?,
        )),
        _ => Err(WordFault::Unreadable),
    }
}

fn preconnect_reply_at(
    alloc: Global,
    word: &[u8],
    digits: &[u8],
) -> Result<PreconnectReply, WordFault>
    ensures { Gives result (spec.preconnect_reply_at word.now digits.now) }
{
    if word == b"opening".as_slice() {
        Ok(PreconnectReply::Opening(read_u32(alloc, digits)?))
    } else if word == b"closed".as_slice() {
        Ok(PreconnectReply::Closed(read_u64(alloc, digits)?))
    } else {
        Err(WordFault::Unreadable)
    }
}

/// The reply to the addresses of a host.
pub(crate) fn read_resolved_reply(
    alloc: Global,
    words: &[&[u8]],
) -> Result<ResolvedReply, WordFault>
    ensures { Gives result (spec.resolved_reply (map (λ w. w.now) words.now)) }
{
    match words {
        [_] => Ok(ResolvedReply::Noted),
        [word, digits] => {
            let n = read_u64(alloc, digits)?;
            resolved_reply_at(word, n)
        }
        _ => Err(WordFault::Unreadable),
    }
}

fn resolved_reply_at(word: &[u8], n: u64) -> Result<ResolvedReply, WordFault>
    ensures { Gives result (spec.resolved_reply_at word.now n) }
{
    if word == b"too-many".as_slice() {
        Ok(ResolvedReply::TooMany(n))
    } else if word == b"closed".as_slice() {
        Ok(ResolvedReply::Closed(n))
    } else {
        Err(WordFault::Unreadable)
    }
}

/// The reply to a shutdown.
pub(crate) fn read_shut_reply(alloc: Global, words: &[&[u8]]) -> Result<ShutReply, WordFault>
    ensures { Gives result (spec.shut_reply (map (λ w. w.now) words.now)) }
{
    match words {
        [_] => Ok(ShutReply::Noted),
        [_, digits] => Ok(ShutReply::Closed(read_u64(alloc, digits)?)),
        _ => Err(WordFault::Unreadable),
    }
}
