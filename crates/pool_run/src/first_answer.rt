// The one form of answer that is read so far: status 200, with a content-length.
ghost use Rattle.std.specs.Prelude.{◌≡◌, ◌<◌, ◌≤◌, ◌↔◌, ℕ, length, IsTrue, IfOk, MatchOption, count_by, find};
ghost use Rattle.std.specs.List.{list_any, AllPass};
ghost use Rattle.std.specs.Char.{is_ascii_digit};
ghost use Rattle.std.specs.Option.{option_copied};
ghost use Rattle.std.specs.Str.Parse.{digits_value};
ghost use Rattle.h1_frames.specs.Heads.{IsRead};
ghost use Rattle.h1_frames.specs.declared.head.HeadRead.TheVariants.{Whole};
ghost use Rattle.small_form.specs.declared.form.TheConstants.{MOST_BODY};
ghost use Rattle.pool_run.specs.FirstAnswer.{IsFirstHead, IsLength, Stands, is_named};

use h1_frames::{Head, HeadRead, read_head};
use net_base::{Field, Fields, NoMem, Octets, Response};
use small_form::MOST_BODY;
use std::alloc::Global;

/// How the octets received so far stand to an answer.
#[derive(Debug, Drop)]
pub(crate) enum Standing {
    /// More must come.
    More,
    /// It is whole.
    Whole(Response),
    /// It isn't of the form, and can't become it.
    Other,
}

/// Judges the octets received so far.
pub(crate) fn standing_of(alloc: Global, received: &[u8]) -> Result<Standing, NoMem>
    ensures { IfOk result (Stands received.now) }
{
    match read_head(alloc, received)? {
        HeadRead::Part => Ok(Standing::More),
        HeadRead::Refused => Ok(Standing::Other),
        HeadRead::Whole(head, unit) => standing_behind(alloc, received, head, unit),
    }
}

/// Judges what stands behind a head.
fn standing_behind(
    alloc: Global,
    received: &[u8],
    head: Head,
    unit: usize,
) -> Result<Standing, NoMem>
    requires read { IsRead received.now (Whole head unit) }
    requires within { unit ≤ length received.now }
    ensures { IfOk result (Stands received.now) }
{
    let Some(n) = body_length(&head) else {
        return Ok(Standing::Other);
    };
    let have = received.len() - unit;
    if have < n {
        return Ok(Standing::More);
    }
    if have > n {
        return Ok(Standing::Other);
    }
    let body = Octets::build(alloc, &received[unit..])?;
    Ok(Standing::Whole(Response {
        status: head.status,
        fields: head.fields,
        body,
        trailers: Fields::new(),
    }))
}

/// The length of the body of an answer with this head, where it is of the form.
fn body_length(head: &Head) -> Option<usize>
    ensures { MatchOption result ((n : ℕ) → ¬ (IsFirstHead head.now n)) (λ n. IsFirstHead head.now n) }
{
    if head.minor != 1 || head.status != 200 {
        return None;
    }
    let fields = head.fields.as_slice();
    if has_field(fields, b"transfer-encoding") || has_field(fields, b"connection") {
        return None;
    }
    if count_fields(fields, b"content-length") != 1 {
        return None;
    }
    match find_field(fields, b"content-length") {
        Some(field) => length_of(field.value.as_slice()),
        None => None,
    }
}

fn is_field(field: &Field, name: &[u8]) -> bool
    ensures { result ≡ is_named name.now field.now }
{
    field.name.as_slice() == name
}

fn has_field(fields: &[Field], name: &[u8]) -> bool
    ensures { result ≡ list_any (is_named name.now) fields.now }
{
    fields.iter().any(|f| is_field(f, name))
}

fn count_fields(fields: &[Field], name: &[u8]) -> usize
    ensures { result ≡ count_by (is_named name.now) fields.now }
{
    fields.iter().filter(|f| is_field(f, name)).count()
}

fn find_field<'f>(fields: &'f [Field], name: &[u8]) -> Option<&'f Field>
    ensures { option_copied result ≡ find (is_named name.now) fields.now }
{
    fields.iter().find(|f| is_field(f, name))
}

/// The number of a content-length's digits, where it isn't above the most octets that a body may have.
fn length_of(value: &[u8]) -> Option<usize>
    ensures { MatchOption result ((n : ℕ) → ¬ (IsLength value.now n)) (λ n. IsLength value.now n) }
{
    if value.is_empty() || !are_digits(value) {
        return None;
    }
    number_of(value)
}

fn are_digits(value: &[u8]) -> bool
    ensures { IsTrue result ↔ AllPass is_ascii_digit value.now }
{
    value.iter().all(|b| b.is_ascii_digit())
}

#[tactic(auto, using(crate::proofs::Lengths::one_digit, crate::proofs::Lengths::is_digit_at, crate::proofs::Lengths::front_within))]
fn number_of(digits: &[u8]) -> Option<usize>
    requires { AllPass is_ascii_digit digits.now }
    ensures { MatchOption result (MOST_BODY < digits_value 10 digits.now)
        (λ n. (n ≡ digits_value 10 digits.now) × (n ≤ MOST_BODY)) }
{
    let mut n = 0usize;
    for b in digits {
        n = n * 10 + usize::from(*b - b'0');
        if n > MOST_BODY {
            return None;
        }
    }
    Some(n)
}
