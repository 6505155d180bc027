// Calls of channels read back.
ghost use Rattle.std.specs.Prelude.{◌≡◌, map};
ghost use Rattle.journal_words.specs.Readers.{Gives};
ghost use Rattle.journal_lines.specs.LineReaders as spec;

use crate::read_replies::{
    read_cancel_reply, read_change_reply, read_preconnect_reply, read_resolved_reply,
    read_shut_reply, read_submit_reply,
};
use journal_words::{
    WordFault, read_addresses, read_credentials, read_deadline, read_either, read_fields, read_key,
    read_octets, read_origin_word, read_u8, read_u32, read_u64,
};
use model_values::{Act, Submission, SubmitReply};
use net_base::{ExchangeNo, Moment, Octets, Request};
use partition_keys::PartitionKey;
use std::alloc::Global;

/// The number of an exchange.
pub(crate) fn read_exchange(alloc: Global, word: &[u8]) -> Result<ExchangeNo, WordFault>
    ensures { Gives result (spec.exchange word.now) }
{
    Ok(ExchangeNo(read_u64(alloc, word)?))
}

/// METHOD ORIGIN PATH FIELDS BODY = and the reply.
fn read_asked(alloc: Global, words: &[&[u8]]) -> Result<(Request, SubmitReply), WordFault>
    ensures { Gives result (spec.asked (map (λ w. w.now) words.now)) }
{
    match words {
        [method, origin, path, fields, body, reply @ ..] => asked_at(
            alloc,
            method,
            origin,
            path,
            fields,
            body,
            behind_equals(reply),
        ),
        _ => Err(WordFault::Unreadable),
    }
}

fn behind_equals<'a, 'w>(words: &'a [&'w [u8]]) -> &'a [&'w [u8]]
    ensures { map (λ w. w.now) result.now ≡ spec.behind_equals (map (λ w. w.now) words.now) }
{
    match words {
        [_, others @ ..] => others,
        _ => &[],
    }
}

#[tactic(auto, unfolding(crate::specs::LineReaders::asked_at))]
fn asked_at(
    alloc: Global,
    method: &[u8],
    origin: &[u8],
    path: &[u8],
    fields: &[u8],
    body: &[u8],
    reply: &[&[u8]],
) -> Result<(Request, SubmitReply), WordFault>
    ensures { Gives result (spec.asked_at method.now origin.now path.now fields.now body.now (map (λ w. w.now) reply.now)) }
{
    let origin = read_origin_word(alloc, origin)?;
    let fields = read_fields(alloc, fields)?;
    let body = read_octets(alloc, body)?;
    let reply = read_submit_reply(alloc, reply)?;
    let method = Octets::build(alloc, method)?;
    let path = Octets::build(alloc, path)?;
    let request = Request {
        method,
        origin,
        path,
        fields,
        body,
    };
    Ok((request, reply))
}

/// What a submission says besides its request.
#[derive(Drop)]
struct Terms {
    key: PartitionKey,
    credentials: bool,
    urgency: u8,
    background: bool,
    deadline: Option<Moment>,
    probe: bool,
}

/// SITE CRED URGENCY, `fore` or `back`, DEADLINE, `plain` or `probe`, and more.
fn read_terms(alloc: Global, words: &[&[u8]]) -> Result<Terms, WordFault>
    ensures { Gives result (spec.terms (map (λ w. w.now) words.now)) }
{
    match words {
        [site, credentials, urgency, background, deadline, probe, ..] => terms_at(
            alloc,
            site,
            credentials,
            urgency,
            background,
            deadline,
            probe,
        ),
        _ => Err(WordFault::Unreadable),
    }
}

#[tactic(auto, unfolding(crate::specs::LineReaders::terms_at))]
fn terms_at(
    alloc: Global,
    site: &[u8],
    credentials: &[u8],
    urgency: &[u8],
    background: &[u8],
    deadline: &[u8],
    probe: &[u8],
) -> Result<Terms, WordFault>
    ensures { Gives result (spec.terms_at site.now credentials.now urgency.now background.now deadline.now probe.now) }
{
    Ok(Terms {
        credentials: read_credentials(credentials)?,
        urgency: read_u8(alloc, urgency)?,
        background: read_either(background, "back", "fore")?,
        deadline: read_deadline(alloc, deadline)?,
        probe: read_either(probe, "probe", "plain")?,
        key: read_key(alloc, site)?,
    })
}

fn on_terms(terms: Terms, request: Request) -> Submission
    ensures { result ≡ spec.on_terms terms request }
{
    let Terms {
        key,
        credentials,
        urgency,
        background,
        deadline,
        probe,
    } = terms;
    Submission {
        key,
        credentials,
        request,
        urgency,
        background,
        deadline,
        probe,
    }
}

pub(crate) fn read_submit(alloc: Global, words: &[&[u8]]) -> Result<Act, WordFault>
    ensures { Gives result (spec.submit (map (λ w. w.now) words.now)) }
{
    let (request, reply) = read_asked(alloc, behind_six(words))?;
    let terms = read_terms(alloc, words)?;
    Ok(Act::Submit {
        ask: on_terms(terms, request),
        reply,
    })
}

fn behind_six<'a, 'w>(words: &'a [&'w [u8]]) -> &'a [&'w [u8]]
    ensures { map (λ w. w.now) result.now ≡ spec.behind_six (map (λ w. w.now) words.now) }
{
    match words {
        [_, _, _, _, _, _, others @ ..] => others,
        _ => &[],
    }
}

pub(crate) fn read_cancel(alloc: Global, words: &[&[u8]]) -> Result<Act, WordFault>
    ensures { Gives result (spec.cancel (map (λ w. w.now) words.now)) }
{
    let [exchange, _, reply] = words else {
        return Err(WordFault::Unreadable);
    };
    Ok(Act::Cancel {
        exchange: read_exchange(alloc, exchange)?,
        reply: read_cancel_reply(reply)?,
    })
}

pub(crate) fn read_reprioritise(alloc: Global, words: &[&[u8]]) -> Result<Act, WordFault>
    ensures { Gives result (spec.reprioritise (map (λ w. w.now) words.now)) }
{
    let [exchange, urgency, _, reply] = words else {
        return Err(WordFault::Unreadable);
    };
    Ok(Act::Reprioritise {
        exchange: read_exchange(alloc, exchange)?,
        urgency: read_u8(alloc, urgency)?,
        reply: read_change_reply(reply)?,
    })
}

pub(crate) fn read_preconnect(alloc: Global, words: &[&[u8]]) -> Result<Act, WordFault>
    ensures { Gives result (spec.preconnect (map (λ w. w.now) words.now)) }
{
    let [site, credentials, origin, count, _, reply @ ..] = words else {
        return Err(WordFault::Unreadable);
    };
    Ok(Act::Preconnect {
        key: read_key(alloc, site)?,
        credentials: read_credentials(credentials)?,
        origin: read_origin_word(alloc, origin)?,
        count: read_u32(alloc, count)?,
        reply: read_preconnect_reply(alloc, reply)?,
    })
}

pub(crate) fn read_resolved(alloc: Global, words: &[&[u8]]) -> Result<Act, WordFault>
    ensures { Gives result (spec.resolved_at (map (λ w. w.now) words.now)) }
{
    let [site, host, addresses, _, reply @ ..] = words else {
        return Err(WordFault::Unreadable);
    };
    Ok(Act::Resolved {
        key: read_key(alloc, site)?,
        addresses: read_addresses(alloc, addresses)?,
        reply: read_resolved_reply(alloc, reply)?,
        host: Octets::build(alloc, host)?,
    })
}

pub(crate) fn read_shutdown(alloc: Global, words: &[&[u8]]) -> Result<Act, WordFault>
    ensures { Gives result (spec.shutdown (map (λ w. w.now) words.now)) }
{
    match words {
        [_, reply @ ..] => Ok(Act::Shutdown {
            reply: read_shut_reply(alloc, reply)?,
        }),
        _ => Err(WordFault::Unreadable),
    }
}
