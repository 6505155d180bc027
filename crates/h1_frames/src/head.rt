// The head of a response.
ghost use Rattle.std.specs.Prelude.{◌≡◌, ◌≤◌, length, take, map, IfOk, IfSome, MatchOption, All, Err};
ghost use Rattle.httparse.specs.Grammar.{ResponseHead, status_code};
ghost use Rattle.httparse.specs.Spans.{header_bytes, IsHeaderWithin, name_and_value};
ghost use Rattle.h1_frames.specs.Heads.{IsHead, IsNoHead, SaysHead, IsRead, lowered};
ghost use Rattle.h1_frames.specs.declared.head.HeadFault.TheVariants.{Refused};

use crate::unit::head_unit;
use httparse::Status;
use httparse::spans::{EMPTY_HEADER_SPAN, HeaderSpan, parse_response};
use net_base::{Field, Fields, Listed, NoMem, Octets};
use plain_values::lower_case;
use std::alloc::Global;

/// The most octets of a unit that is judged.
const UNIT_MAX: usize = 65536;

/// The head of a response (RFC 9112, sections 4 and 5): the minor version, the status, and the fields in order, their
/// names in lower case.
#[derive(Debug, Drop)]
pub struct Head {
    pub minor: u8,
    pub status: u16,
    pub fields: Fields,
}

/// What was read of a head.
#[derive(Debug, Drop)]
pub enum HeadRead {
    /// The head, and the length of its unit.
    Whole(Head, usize),
    /// The end of the unit isn't there yet.
    Part,
    /// The unit is no head, or too long to be one.
    Refused,
}

/// Why a whole unit gave no head.
#[derive(Clone, Copy, Debug, PartialEq, Eq)]
enum HeadFault {
    NoMem,
    Refused,
}

/// The version, the status and the number of fields of a head that lies in its unit.
#[derive(Drop)]
struct HeadSpans {
    minor: u8,
    status: u16,
    count: usize,
}

/// The head that the bytes begin with. A unit is judged only when its end is there, and it has at most 65536 octets.
pub fn read_head(alloc: Global, bytes: &[u8]) -> Result<HeadRead, NoMem>
    ensures { IfOk result (IsRead bytes.now) }
{
    match head_unit(bytes) {
        Some(n) => {
            if n > UNIT_MAX {
                return Ok(HeadRead::Refused);
            }
            match head_from(alloc, &bytes[..n]) {
                Ok(head) => Ok(HeadRead::Whole(head, n)),
                Err(HeadFault::NoMem) => Err(NoMem),
                Err(HeadFault::Refused) => Ok(HeadRead::Refused),
            }
        }
        None => {
            if bytes.len() >= UNIT_MAX {
                return Ok(HeadRead::Refused);
            }
            Ok(HeadRead::Part)
        }
    }
}

/// The head that a unit is, as a whole.
fn head_from(alloc: Global, unit: &[u8]) -> Result<Head, HeadFault>
    ensures whole { IfOk result (SaysHead unit.now) }
    ensures refused { result ≡ Err Refused → IsNoHead unit.now }
{
    let mut room = [EMPTY_HEADER_SPAN; 256];
    let Some(spans) = head_spans(unit, &mut room) else {
        return Err(HeadFault::Refused);
    };
    match fields_from(alloc, unit, &room[..spans.count]) {
        Ok(fields) => Ok(Head {
            minor: spans.minor,
            status: spans.status,
            fields,
        }),
        Err(NoMem) => Err(HeadFault::NoMem),
    }
}

/// The spans of the head that a unit is, as a whole.
fn head_spans(unit: &[u8], room: &mut [HeaderSpan; 256]) -> Option<HeadSpans>
    ensures head { MatchOption result (IsNoHead unit.now)
        (λ r. (h : ResponseHead) × IsHead unit.now h × (r.minor ≡ h.minor) × (r.status ≡ status_code h)
        × (map (header_bytes unit.now) (take r.count room.new) ≡ map name_and_value h.fields)) }
    ensures within { IfSome result (λ r. (r.count ≤ 256)
        × All (IsHeaderWithin (length unit.now)) (take r.count room.new)) }
{
    match parse_response(unit, room) {
        Ok(Status::Complete(head)) if head.len == unit.len() => Some(HeadSpans {
            minor: head.version,
            status: head.code,
            count: head.headers,
        }),
        _ => None,
    }
}

/// The fields that the spans cover, in order, their names in lower case.
pub fn fields_from(alloc: Global, unit: &[u8], spans: &[HeaderSpan]) -> Result<Fields, NoMem>
    requires { All (IsHeaderWithin (length unit.now)) spans.now }
    ensures { IfOk result (λ fields. fields ≡ map (λ s. lowered (header_bytes unit.now s)) spans.now) }
{
    let mut fields = Listed::new();
    for span in spans {
        fields.push(alloc, field_at(alloc, unit, *span)?)?;
    }
    Ok(fields)
}

/// The field that a span covers.
fn field_at(alloc: Global, unit: &[u8], span: HeaderSpan) -> Result<Field, NoMem>
    requires { IsHeaderWithin (length unit.now) span }
    ensures { IfOk result (λ field. field ≡ lowered (header_bytes unit.now span)) }
{
    let name = lower_case(alloc, span.name.of(unit))?;
    let value = Octets::build(alloc, span.value.of(unit))?;
    Ok(Field { name, value })
}
