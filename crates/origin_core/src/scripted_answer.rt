// What a scripted origin answers.
ghost use Rattle.std.specs.Prelude.{◌≡◌, ◌++◌, ℕ, IsTrue, IfOk, OnOk, length, replicate, flat_map, find};
ghost use Rattle.std.specs.Option.{option_copied};
ghost use Rattle.origin_core.specs.ScriptedAnswers as spec;
ghost use Rattle.origin_core.specs.ScriptedAnswers.{body_octets, answer_text, text_for};

use crate::scripted_request::Asked;
use net_base::{Answer, AnswerBody, Field, NoMem, Octets, PlainValue};
use std::alloc::Global;

/// The text of the answer that is given to a request: the first that fits, or status 404 with an empty body.
pub(crate) fn answer_to(alloc: Global, answers: &[Answer], asked: &Asked) -> Result<Octets, NoMem>
    ensures { IfOk result (λ text. text ≡ text_for answers.now asked.now) }
{
    let method = asked.method.as_slice();
    match first_fitting(answers, asked) {
        Some(answer) => {
            let body = body_of(alloc, &answer.body)?;
            write_answer(
                alloc,
                method,
                answer.status,
                answer.fields.as_slice(),
                body.as_slice(),
            )
        }
        None => write_answer(alloc, method, 404, &[], &[]),
    }
}

/// The first answer that fits a request.
fn first_fitting<'a>(answers: &'a [Answer], asked: &Asked) -> Option<&'a Answer>
    ensures { option_copied result ≡ find (spec.fits asked.now) answers.now }
{
    answers.iter().find(|answer| fits(asked, answer))
}

/// Whether an answer fits a request.
fn fits(asked: &Asked, answer: &Answer) -> bool
    ensures { result ≡ spec.fits asked.now answer.now }
{
    path_fits(asked, answer.path.as_slice()) && authority_fits(asked, &answer.authority)
}

/// Whether a path is `*` or the request's target.
fn path_fits(asked: &Asked, path: &[u8]) -> bool
    ensures { result ≡ spec.path_fits asked.now path.now }
{
    path == b"*".as_slice() || path == asked.target.as_slice()
}

/// Whether an authority is none or that of a Host field of the request.
fn authority_fits(asked: &Asked, authority: &Option<Octets>) -> bool
    ensures { result ≡ spec.authority_fits asked.now authority.now }
{
    match authority {
        None => true,
        Some(authority) => has_host(asked.fields.as_slice(), authority.as_slice()),
    }
}

ghost use Rattle.std.specs.Prelude.{◌&&◌, codes, bytes_eq};
ghost use Rattle.std.specs.List.{list_any};

/// Whether a Host field is this authority.
fn has_host(fields: &[Field], authority: &[u8]) -> bool
    ensures { result ≡ list_any (λ f. bytes_eq f.name (codes "host") && bytes_eq f.value authority.now) fields.now }
{
    fields.iter().any(|field| is_host(field, authority))
}

/// Whether a field is a Host field with this authority.
fn is_host(field: &Field, authority: &[u8]) -> bool
    ensures { result ≡ (bytes_eq field.now.name (codes "host") && bytes_eq field.now.value authority.now) }
{
    field.name.as_slice() == b"host".as_slice() && field.value.as_slice() == authority
}

/// The octets of a body.
fn body_of(alloc: Global, body: &AnswerBody) -> Result<Octets, NoMem>
    ensures { IfOk result (λ octets. octets ≡ body_octets body.now) }
{
    match body {
        AnswerBody::Text(octets) => octets.copy(alloc),
        AnswerBody::Size(n) => x_octets(alloc, *n),
    }
}

/// So many octets `x`.
fn x_octets(alloc: Global, n: u32) -> Result<Octets, NoMem>
    ensures { IfOk result (λ octets. octets ≡ replicate n 120) }
{
    let mut octets = Vec::new(alloc);
    octets.resize(n as usize, b'x')?;
    Octets::build(alloc, octets.as_slice())
}

/// The text of an answer.
fn write_answer(
    alloc: Global,
    method: &[u8],
    status: u16,
    fields: &[Field],
    body: &[u8],
) -> Result<Octets, NoMem>
    ensures { IfOk result (λ text. text ≡ answer_text method.now status fields.now body.now) }
{
    let mut text = status_line(alloc, status)?;
    write_fields(alloc, &mut text, fields)?;
    text.extend(alloc, length_line(alloc, status, body.len())?.as_slice())?;
    text.extend(alloc, b"\r\n")?;
    text.extend(alloc, shown_body(method, status, body))?;
    Ok(text)
}

/// The status line, with no reason.
fn status_line(alloc: Global, status: u16) -> Result<Octets, NoMem>
    ensures { IfOk result (λ text. text ≡ spec.status_line status) }
{
    let line = format!(in alloc; "HTTP/1.1 {status} \r\n")?;
    Octets::build(alloc, line.as_bytes())
}

/// Writes the field lines behind a text.
fn write_fields(alloc: Global, text: &mut Octets, fields: &[Field]) -> Result<(), NoMem>
    ensures { OnOk result (text.new ≡ text.old ++ flat_map spec.field_line fields.now) }
{
    for field in fields {
        let line = field_line(alloc, field)?;
        text.extend(alloc, line.as_slice())?;
    }
    Ok(())
}

/// A field line.
fn field_line(alloc: Global, field: &Field) -> Result<Octets, NoMem>
    ensures { IfOk result (λ text. text ≡ spec.field_line field.now) }
{
    let mut text = field.name.copy(alloc)?;
    text.extend(alloc, b": ")?;
    text.extend(alloc, field.value.as_slice())?;
    text.extend(alloc, b"\r\n")?;
    Ok(text)
}

/// The line of the content-length, nothing with a status that has no content.
fn length_line(alloc: Global, status: u16, size: usize) -> Result<Octets, NoMem>
    ensures { IfOk result (λ text. text ≡ spec.length_line status size) }
{
    if !has_content(status) {
        return Ok(Octets::new());
    }
    let line = format!(in alloc; "content-length: {size}\r\n")?;
    Octets::build(alloc, line.as_bytes())
}

/// What is shown of a body.
fn shown_body<'a>(method: &[u8], status: u16, body: &'a [u8]) -> &'a [u8]
    ensures { result.now ≡ spec.shown_body method.now status body.now }
{
    if method == b"HEAD".as_slice() || !has_content(status) {
        return &[];
    }
    body
}

/// Whether an answer with this status has content.
fn has_content(status: u16) -> bool
    ensures { result ≡ spec.has_content status }
{
    status != 204 && status != 304
}
