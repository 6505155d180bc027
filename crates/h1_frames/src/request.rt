// The text of a request.
ghost use Rattle.std.specs.Prelude.{◌≡◌, ◌++◌, codes, IfOk, OnOk};
ghost use Rattle.std.specs.Fmt.{decimal};
ghost use Rattle.h1_frames.specs.RequestText.{request_line, field_line, field_lines, length_field, sent_fields, request_text};
ghost use Rattle.h1_frames.specs.RequestText as spec;
ghost use Rattle.h1_frames.specs.ReadsBack.{IsSendable, ReadsBack};

use net_base::{Fields, NoMem, Octets, Request, authority};
use std::alloc::Global;

/// The text of a request (RFC 9112, sections 3 and 6): its request line, its host, its fields in order, the length of
/// its body where that isn't empty or the method expects content, an empty line, and the body.
#[tactic(auto, using(crate::proofs::ReadBack::reads_back))]
pub fn write_request(alloc: Global, r: &Request) -> Result<Octets, NoMem>
    ensures text { IfOk result (λ text. text ≡ request_text r.now) }
    ensures reads_back { IfOk result (λ text. IsSendable r.now → ReadsBack text r.now) }
{
    let mut text = Octets::new();
    add_request_line(alloc, &mut text, r)?;
    add_sent_fields(alloc, &mut text, r)?;
    text.extend(alloc, b"\r\n")?;
    text.extend(alloc, r.body.as_slice())?;
    Ok(text)
}

/// Adds the request line.
fn add_request_line(alloc: Global, text: &mut Octets, r: &Request) -> Result<(), NoMem>
    ensures { OnOk result (text.new ≡ text.old ++ request_line r.now) }
{
    text.extend(alloc, r.method.as_slice())?;
    text.extend(alloc, b" ")?;
    text.extend(alloc, r.path.as_slice())?;
    text.extend(alloc, b" HTTP/1.1\r\n")
}

/// Adds a field line.
fn add_field(alloc: Global, text: &mut Octets, name: &[u8], value: &[u8]) -> Result<(), NoMem>
    ensures { OnOk result (text.new ≡ text.old ++ field_line name.now value.now) }
{
    text.extend(alloc, name)?;
    text.extend(alloc, b": ")?;
    text.extend(alloc, value)?;
    text.extend(alloc, b"\r\n")
}

/// Adds field lines, in order.
fn add_fields(alloc: Global, text: &mut Octets, fields: &Fields) -> Result<(), NoMem>
    ensures { OnOk result (text.new ≡ text.old ++ field_lines fields.now) }
{
    for field in fields.as_slice() {
        add_field(alloc, text, field.name.as_slice(), field.value.as_slice())?;
    }
    Ok(())
}

/// Whether the method expects content: POST and PUT (RFC 9110, sections 9.3.3 and 9.3.4) and PATCH (RFC 5789).
fn expects_content(method: &[u8]) -> bool
    ensures { result ≡ spec.expects_content method.now }
{
    method == b"POST".as_slice() || method == b"PUT".as_slice() || method == b"PATCH".as_slice()
}

/// Whether the length of the body is written.
fn needs_length(r: &Request) -> bool
    ensures { result ≡ spec.needs_length r.now }
{
    r.body.len() > 0 || expects_content(r.method.as_slice())
}

/// Adds the fields that are sent: the host, those of the request, and the length where it is written.
#[tactic(auto, using(crate::proofs::RequestLines::sent_lines))]
fn add_sent_fields(alloc: Global, text: &mut Octets, r: &Request) -> Result<(), NoMem>
    ensures { OnOk result (text.new ≡ text.old ++ field_lines (sent_fields r.now)) }
{
    let host = authority(alloc, &r.origin)?;
    add_field(alloc, text, b"host", host.as_slice())?;
    add_fields(alloc, text, &r.fields)?;
    add_length(alloc, text, r)
}

/// Adds the length of the body, where it is written.
#[tactic(auto, using(crate::proofs::RequestLines::length_line))]
fn add_length(alloc: Global, text: &mut Octets, r: &Request) -> Result<(), NoMem>
    ensures { OnOk result (text.new ≡ text.old ++ field_lines (length_field r.now)) }
{
    if needs_length(r) {
        add_length_line(alloc, text, r.body.len())
    } else {
        Ok(())
    }
}

/// Adds the line of a length.
fn add_length_line(alloc: Global, text: &mut Octets, length: usize) -> Result<(), NoMem>
    ensures { OnOk result (text.new ≡ text.old ++ field_line (codes "content-length") (decimal length)) }
{
    let digits = format!(in alloc; "{length}")?;
    add_field(alloc, text, b"content-length", digits.as_bytes())
}
