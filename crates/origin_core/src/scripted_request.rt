// What a scripted origin reads of a request.
ghost use Rattle.std.specs.Prelude.{◌≡◌, ◌≤◌, ◌<◌, ◌+◌, ◌*◌, ℕ, length, take, map, codes, bytes_eq, IfOk, IfSome, MatchOption, SomeIff, All, Err};
ghost use Rattle.std.specs.Char.{digit_value};
ghost use Rattle.std.specs.Str.Parse.{IsNumeral, digits_value};
ghost use Rattle.httparse.specs.Grammar.{RequestHead};
ghost use Rattle.httparse.specs.Spans.{header_bytes, span_bytes, IsHeaderWithin, IsWithin, name_and_value};
ghost use Rattle.h1_frames.specs.Heads.{lowered};
ghost use Rattle.h1_frames.specs.Units.{BeginsWithUnit};
ghost use Rattle.origin_core.specs.ScriptedRequests.{IsRequestUnit, Asks, AsksNothing, HasBodyOf, HasNoBodySize, IsNext};
ghost use Rattle.origin_core.specs.declared.scripted_request.AskFault.TheVariants.{Unreadable};

use h1_frames::{fields_from, head_unit};
use httparse::Status;
use httparse::spans::{EMPTY_HEADER_SPAN, HeaderSpan, Span, parse_request};
use net_base::{Field, Fields, NoMem, Octets};
use std::alloc::Global;

/// What a request asks: its method, its target, and its fields in order, their names in lower case.
#[derive(Debug, Drop)]
pub struct Asked {
    pub method: Octets,
    pub target: Octets,
    pub fields: Fields,
}

/// Why a whole unit asks nothing.
#[derive(Clone, Copy, Debug, PartialEq, Eq)]
pub(crate) enum AskFault {
    NoMem,
    Unreadable,
}

/// What stands next in the octets that an origin received.
#[derive(Debug, Drop)]
pub(crate) enum NextRequest {
    /// A whole request, and how many octets it has.
    Whole(Asked, usize),
    /// The request isn't whole yet.
    Unfinished,
    /// The request can't be read.
    Unreadable,
}

/// The request that the octets begin with.
pub(crate) fn next_request(alloc: Global, octets: &[u8]) -> Result<NextRequest, NoMem>
    ensures { IfOk result (IsNext octets.now) }
{
    match head_unit(octets) {
        None => Ok(NextRequest::Unfinished),
        Some(n) => request_of(alloc, octets, n),
    }
}

/// The request whose head has n octets.
#[tactic(auto, using(crate::proofs::Wholes::lacks_body, crate::proofs::Wholes::asks_none))]
fn request_of(alloc: Global, octets: &[u8], n: usize) -> Result<NextRequest, NoMem>
    requires { BeginsWithUnit octets.now n }
    ensures { IfOk result (IsNext octets.now) }
{
    match read_asked(alloc, &octets[..n]) {
        Err(AskFault::NoMem) => Err(NoMem),
        Err(AskFault::Unreadable) => Ok(NextRequest::Unreadable),
        Ok(asked) => match body_size(asked.fields.as_slice()) {
            None => Ok(NextRequest::Unreadable),
            Some(size) => {
                if size > (octets.len() - n) as u64 {
                    return Ok(NextRequest::Unfinished);
                }
                Ok(NextRequest::Whole(asked, n + size as usize))
            }
        },
    }
}

/// Where the parts of a request head lie in its unit.
#[derive(Drop)]
struct AskedSpans {
    method: Span,
    target: Span,
    count: usize,
}

/// What a unit asks, as a whole.
pub(crate) fn read_asked(alloc: Global, unit: &[u8]) -> Result<Asked, AskFault>
    ensures asks { IfOk result (Asks unit.now) }
    ensures unreadable { result ≡ Err Unreadable → AsksNothing unit.now }
{
    let mut room = [EMPTY_HEADER_SPAN; 256];
    let Some(spans) = asked_spans(unit, &mut room) else {
        return Err(AskFault::Unreadable);
    };
    match copy_asked(alloc, unit, &spans, &room[..spans.count]) {
        Ok(asked) => Ok(asked),
        Err(NoMem) => Err(AskFault::NoMem),
    }
}

/// The spans of the request head that a unit is, as a whole.
fn asked_spans(unit: &[u8], room: &mut [HeaderSpan; 256]) -> Option<AskedSpans>
    ensures head { MatchOption result (AsksNothing unit.now)
        (λ r. (h : RequestHead) × IsRequestUnit unit.now h × (span_bytes unit.now r.method ≡ h.method)
        × (span_bytes unit.now r.target ≡ h.target)
        × (map (header_bytes unit.now) (take r.count room.new) ≡ map name_and_value h.fields)) }
    ensures within { IfSome result (λ r. IsWithin (length unit.now) r.method × IsWithin (length unit.now) r.target
        × (r.count ≤ 256) × All (IsHeaderWithin (length unit.now)) (take r.count room.new)) }
{
    match parse_request(unit, room) {
        Ok(Status::Complete(head)) if head.len == unit.len() => Some(AskedSpans {
            method: head.method,
            target: head.path,
            count: head.headers,
        }),
        _ => None,
    }
}

/// Copies of what the spans cover.
fn copy_asked(
    alloc: Global,
    unit: &[u8],
    spans: &AskedSpans,
    fields: &[HeaderSpan],
) -> Result<Asked, NoMem>
    requires method { IsWithin (length unit.now) spans.now.method }
    requires target { IsWithin (length unit.now) spans.now.target }
    requires fields { All (IsHeaderWithin (length unit.now)) fields.now }
    ensures { IfOk result (λ asked. asked ≡ record {
      method = span_bytes unit.now spans.now.method;
      target = span_bytes unit.now spans.now.target;
      fields = map (λ s. lowered (header_bytes unit.now s)) fields.now;
    }) }
{
    let method = Octets::build(alloc, spans.method.of(unit))?;
    let target = Octets::build(alloc, spans.target.of(unit))?;
    let fields = fields_from(alloc, unit, fields)?;
    Ok(Asked {
        method,
        target,
        fields,
    })
}

/// The size of the body that the fields give, or `None` where their content-length isn't one number.
#[tactic(auto, using(crate::proofs::BodySizes::sizes_none, crate::proofs::BodySizes::sizes_skip, crate::proofs::BodySizes::sizes_first, crate::proofs::BodySizes::sizes_second, crate::proofs::BodySizes::sizes_bad, crate::proofs::BodySizes::sizes_end, crate::proofs::BodySizes::sizes_end_one))]
pub(crate) fn body_size(fields: &[Field]) -> Option<u64>
    ensures { MatchOption result (HasNoBodySize fields.now) (HasBodyOf fields.now) }
{
    let mut found = None;
    for field in fields {
        if !is_named(field, b"content-length") {
            continue;
        }
        if found.is_some() {
            return None;
        }
        let Some(size) = number(field.value.as_slice()) else {
            return None;
        };
        found = Some(size);
    }
    match found {
        None => Some(0),
        Some(size) => Some(size),
    }
}

/// Whether a field has this name.
fn is_named(field: &Field, name: &[u8]) -> bool
    ensures { result ≡ bytes_eq field.now.name name.now }
{
    field.name.as_slice() == name
}

/// The number that a text of digits writes, where it is at most 2^64-1.
#[tactic(auto, using(crate::proofs::Numbers::reads_none, crate::proofs::Numbers::reads_more, crate::proofs::Numbers::reads_no_more, crate::proofs::Numbers::reads_all))]
fn number(text: &[u8]) -> Option<u64>
    ensures { SomeIff result (IsNumeral 10 text.now × (digits_value 10 text.now ≤ 18446744073709551615)) (digits_value 10 text.now) }
{
    if text.is_empty() {
        return None;
    }
    let mut value = 0;
    for digit in text {
        match with_digit(value, *digit) {
            Some(next) => value = next,
            None => return None,
        }
    }
    Some(value)
}

/// A number with one more digit.
fn with_digit(value: u64, digit: u8) -> Option<u64>
    ensures { SomeIff result ((digit_value digit < 10) × (value * 10 + digit_value digit ≤ 18446744073709551615)) (value * 10 + digit_value digit) }
{
    if !digit.is_ascii_digit() {
        return None;
    }
    value.checked_mul(10)?.checked_add(u64::from(digit - b'0'))
}
