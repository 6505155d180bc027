// Reports read back.
ghost use Rattle.std.specs.Prelude.{◌≡◌, map};
ghost use Rattle.journal_words.specs.Readers.{Gives};
ghost use Rattle.journal_lines.specs.LineReaders as spec;

use journal_words::{
    WordFault, read_address, read_alt, read_either, read_fields, read_names, read_octets,
    read_origin_word, read_proof, read_proto, read_security, read_stream, read_u16, read_u32,
};
use model_values::Report;
use net_base::{Identity, Response, StreamNo};
use std::alloc::Global;

/// A report by its name.
#[tactic(auto, unfolding(crate::specs::LineReaders::report_at))]
pub(crate) fn read_report(alloc: Global, name: &[u8], words: &[&[u8]]) -> Result<Report, WordFault>
    ensures { Gives result (spec.report_at name.now (map (λ w. w.now) words.now)) }
{
    if name == b"opened".as_slice() {
        read_opened(alloc, words)
    } else if name == b"limit".as_slice() {
        read_limit(alloc, words)
    } else if name == b"answered".as_slice() {
        read_answered(alloc, words)
    } else if name == b"reset".as_slice() {
        read_reset(alloc, words)
    } else if name == b"alt".as_slice() {
        read_alt_seen(alloc, words)
    } else {
        read_stream_report(alloc, name, words)
    }
}

/// A report that names a stream and nothing else.
fn read_stream_report(alloc: Global, name: &[u8], words: &[&[u8]]) -> Result<Report, WordFault>
    ensures { Gives result (spec.stream_report name.now (map (λ w. w.now) words.now)) }
{
    let [word] = words else {
        return Err(WordFault::Unreadable);
    };
    let stream = read_stream(alloc, word)?;
    told_of(name, stream)
}

fn told_of(name: &[u8], stream: StreamNo) -> Result<Report, WordFault>
    ensures { Gives result (spec.told_of name.now stream) }
{
    if name == b"refused".as_slice() {
        Ok(Report::Refused(stream))
    } else if name == b"too-large".as_slice() {
        Ok(Report::TooLarge(stream))
    } else if name == b"stream-closed".as_slice() {
        Ok(Report::StreamClosed(stream))
    } else if name == b"goaway".as_slice() {
        Ok(Report::Goaway(stream))
    } else {
        Err(WordFault::Unreadable)
    }
}

fn read_opened(alloc: Global, words: &[&[u8]]) -> Result<Report, WordFault>
    ensures { Gives result (spec.opened (map (λ w. w.now) words.now)) }
{
    let [secure, proto, address, names] = words else {
        return Err(WordFault::Unreadable);
    };
    Ok(Report::Opened(Identity {
        secure: read_security(secure)?,
        proto: read_proto(proto)?,
        address: read_address(address)?,
        names: read_names(alloc, names)?,
    }))
}

fn read_limit(alloc: Global, words: &[&[u8]]) -> Result<Report, WordFault>
    ensures { Gives result (spec.limit (map (λ w. w.now) words.now)) }
{
    match words {
        [digits] => Ok(Report::Limit(read_u32(alloc, digits)?)),
        _ => Err(WordFault::Unreadable),
    }
}

fn read_response(
    alloc: Global,
    status: &[u8],
    fields: &[u8],
    body: &[u8],
    trailers: &[u8],
) -> Result<Response, WordFault>
    ensures { Gives result (spec.response status.now fields.now body.now trailers.now) }
{
    Ok(Response {
        status: read_u16(alloc, status)?,
        fields: read_fields(alloc, fields)?,
        body: read_octets(alloc, body)?,
        trailers: read_fields(alloc, trailers)?,
    })
}

/// STREAM, `keep` or `last`, the response, what is said of alternatives, and the proof.
fn read_answered(alloc: Global, words: &[&[u8]]) -> Result<Report, WordFault>
    ensures { Gives result (spec.answered (map (λ w. w.now) words.now)) }
{
    let [stream, keep, status, fields, body, trailers, others @ ..] = words else {
        return Err(WordFault::Unreadable);
    };
    let stream = read_stream(alloc, stream)?;
    let keep = read_either(keep, "keep", "last")?;
    let response = read_response(alloc, status, fields, body, trailers)?;
    let alt = read_alt(alloc, alt_words_in(others))?;
    let proof = read_proof(alloc, behind_alt(others))?;
    Ok(Report::Answered {
        stream,
        response,
        keep,
        alt,
        proof,
    })
}

/// The words of an update of alternatives, which are two where they are set.
fn alt_words_in<'a, 'w>(words: &'a [&'w [u8]]) -> &'a [&'w [u8]]
    ensures { map (λ w. w.now) result.now ≡ spec.alt_words_in (map (λ w. w.now) words.now) }
{
    match words {
        [word, _, ..] => {
            if *word == b"set".as_slice() {
                &words[..2]
            } else {
                &words[..1]
            }
        }
        _ => words,
    }
}

/// What stands behind those words.
fn behind_alt<'a, 'w>(words: &'a [&'w [u8]]) -> &'a [&'w [u8]]
    ensures { map (λ w. w.now) result.now ≡ spec.behind_alt (map (λ w. w.now) words.now) }
{
    match words {
        [word, _, others @ ..] => {
            if *word == b"set".as_slice() {
                others
            } else {
                &words[1..]
            }
        }
        _ => &[],
    }
}

fn read_reset(alloc: Global, words: &[&[u8]]) -> Result<Report, WordFault>
    ensures { Gives result (spec.reset (map (λ w. w.now) words.now)) }
{
    match words {
        [stream, code] => Ok(Report::Reset(read_stream(alloc, stream)?, read_u32(alloc, code)?)),
        _ => Err(WordFault::Unreadable),
    }
}

fn read_alt_seen(alloc: Global, words: &[&[u8]]) -> Result<Report, WordFault>
    ensures { Gives result (spec.alt_seen (map (λ w. w.now) words.now)) }
{
    match words {
        [origin, others @ ..] => Ok(Report::AltSeen {
            origin: read_origin_word(alloc, origin)?,
            alt: read_alt(alloc, others)?,
        }),
        _ => Err(WordFault::Unreadable),
    }
}
