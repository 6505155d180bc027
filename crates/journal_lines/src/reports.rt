// The words of what a worker reports.
ghost use Rattle.std.specs.Prelude.{◌≡◌, [], ◌∷◌, ◌++◌, OnOk};
ghost use Rattle.std.specs.Fmt.{decimal};
ghost use Rattle.journal_lines.specs.Lines as spec;
ghost use Rattle.journal_words.specs.Words.{spaced_words, alt_words, proof_words};

use crate::parts::{put_identity, put_response};
use journal_words::{origin_text, put, put_alt, put_number, put_proof};
use model_values::Report;
use net_base::{NoMem, Octets, Origin, Response, StreamNo};
use partition_keys::{AltUpdate, Proof};
use std::alloc::Global;

/// The name of a report.
pub(crate) fn report_name(r: &Report) -> &'static str
    ensures { result.now ≡ spec.report_name r.now }
{
    match r {
        Report::Opened(_) => "opened",
        Report::Limit(_) => "limit",
        Report::Answered { .. } => "answered",
        Report::Refused(_) => "refused",
        Report::Reset(_, _) => "reset",
        Report::TooLarge(_) => "too-large",
        Report::StreamClosed(_) => "stream-closed",
        Report::Goaway(_) => "goaway",
        Report::AltSeen { .. } => "alt",
    }
}

fn put_stream(alloc: Global, line: &mut Octets, stream: StreamNo) -> Result<(), NoMem>
    ensures { OnOk result (line.new ≡ line.old ++ spaced_words (decimal stream.0 ∷ [])) }
{
    put_number(alloc, line, u64::from(stream.0))
}

/// An answer, and what it says of alternatives and proves.
fn put_answer(
    alloc: Global,
    line: &mut Octets,
    response: &Response,
    alt: &AltUpdate,
    proof: Proof,
) -> Result<(), NoMem>
    ensures { OnOk result (line.new ≡ line.old ++ spaced_words (spec.response_words response.now ++ alt_words alt.now ++ proof_words proof)) }
{
    put_response(alloc, line, response)?;
    put_alt(alloc, line, alt)?;
    put_proof(alloc, line, proof)
}

fn put_alt_seen(
    alloc: Global,
    line: &mut Octets,
    origin: &Origin,
    alt: &AltUpdate,
) -> Result<(), NoMem>
    ensures { OnOk result (line.new ≡ line.old ++ spaced_words (spec.report_words (Report.AltSeen origin.now alt.now))) }
{
    let origin = origin_text(alloc, origin)?;
    put(alloc, line, origin.as_slice())?;
    put_alt(alloc, line, alt)
}

fn keep_text(keep: bool) -> &'static str
    ensures { result.now ≡ spec.keep_text keep }
{
    if keep { "keep" } else { "last" }
}

/// What stands behind the name of a report, the connection and its count.
pub(crate) fn put_report(alloc: Global, line: &mut Octets, r: &Report) -> Result<(), NoMem>
    ensures { OnOk result (line.new ≡ line.old ++ spaced_words (spec.report_words r.now)) }
{
    match r {
        Report::Opened(identity) => put_identity(alloc, line, identity),
        Report::Limit(n) => put_number(alloc, line, u64::from(*n)),
        Report::Answered {
            stream,
            response,
            keep,
            alt,
            proof,
        } => {
            put_stream(alloc, line, *stream)?;
            put(alloc, line, keep_text(*keep).as_bytes())?;
            put_answer(alloc, line, response, alt, *proof)
        }
        Report::Refused(stream) => put_stream(alloc, line, *stream),
        Report::Reset(stream, code) => {
            put_stream(alloc, line, *stream)?;
            put_number(alloc, line, u64::from(*code))
        }
        Report::TooLarge(stream) => put_stream(alloc, line, *stream),
        Report::StreamClosed(stream) => put_stream(alloc, line, *stream),
        Report::Goaway(last) => put_stream(alloc, line, *last),
        Report::AltSeen { origin, alt } => put_alt_seen(alloc, line, origin, alt),
    }
}
