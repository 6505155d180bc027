// Words of one value.
ghost use Rattle.std.specs.Prelude.{◌≡◌, ◌∷◌, ◌++◌, map, codes, IfOk};
ghost use Rattle.std.specs.Fmt.{decimal};
ghost use Rattle.hex.specs.Hex.{encode_lower};
ghost use Rattle.journal_words.specs.Words as spec;

use model_values::Way;
use net_base::{
    Addresses, EndCause, Field, Fields, Listed, Moment, NoMem, Octets, Origin, Proto, Scheme,
    StreamList, StreamNo, Via,
};
use partition_keys::{Alternative, Alternatives, Why};
use std::alloc::Global;

/// A number in decimal.
pub fn number_text(alloc: Global, n: u64) -> Result<Octets, NoMem>
    ensures { IfOk result (λ text. text ≡ decimal n) }
{
    let digits = format!(in alloc; "{n}")?;
    Octets::build(alloc, digits.as_bytes())
}

/// Octets in hexadecimal.
pub fn hex_text(alloc: Global, bytes: &[u8]) -> Result<Octets, NoMem>
    ensures { IfOk result (λ text. text ≡ encode_lower bytes.now) }
{
    let digits = hex::encode(alloc, bytes)?;
    Octets::build(alloc, digits.as_bytes())
}

/// Octets in hexadecimal, `-` where there are none.
pub fn octets_text(alloc: Global, bytes: &[u8]) -> Result<Octets, NoMem>
    ensures { IfOk result (λ text. text ≡ spec.octets_text bytes.now) }
{
    match bytes {
        [] => Octets::build(alloc, b"-"),
        _ => hex_text(alloc, bytes),
    }
}

/// The texts with a comma between each two, `-` where there are none.
pub fn list_text(alloc: Global, texts: &[Octets]) -> Result<Octets, NoMem>
    ensures { IfOk result (λ text. text ≡ spec.list_text texts.now) }
{
    let Some((first, others)) = texts.split_first() else {
        return Octets::build(alloc, b"-");
    };
    let mut text = Octets::build(alloc, first.as_slice())?;
    for other in others {
        text.push(alloc, b',')?;
        text.extend(alloc, other.as_slice())?;
    }
    Ok(text)
}

fn field_text(alloc: Global, field: &Field) -> Result<Octets, NoMem>
    ensures { IfOk result (λ text. text ≡ spec.field_text field.now) }
{
    let mut text = Octets::build(alloc, field.name.as_slice())?;
    text.push(alloc, b':')?;
    let value = hex_text(alloc, field.value.as_slice())?;
    text.extend(alloc, value.as_slice())?;
    Ok(text)
}

/// Fields, each as NAME:HEX, `-` where there are none.
pub fn fields_text(alloc: Global, fields: &Fields) -> Result<Octets, NoMem>
    ensures { IfOk result (λ text. text ≡ spec.fields_text fields.now) }
{
    let texts = field_texts(alloc, fields.as_slice())?;
    list_text(alloc, texts.as_slice())
}

fn field_texts(alloc: Global, fields: &[Field]) -> Result<Listed<Octets>, NoMem>
    ensures { IfOk result (λ texts. texts ≡ map spec.field_text fields.now) }
{
    let mut texts = Listed::new();
    for field in fields {
        texts.push(alloc, field_text(alloc, field)?)?;
    }
    Ok(texts)
}

/// HOST:PORT.
pub(crate) fn host_and_port(alloc: Global, host: &Octets, port: u16) -> Result<Octets, NoMem>
    ensures { IfOk result (λ text. text ≡ spec.host_and_port host.now port) }
{
    let mut text = Octets::build(alloc, host.as_slice())?;
    text.push(alloc, b':')?;
    let digits = number_text(alloc, u64::from(port))?;
    text.extend(alloc, digits.as_slice())?;
    Ok(text)
}

/// SCHEME://HOST:PORT, the port always written.
pub fn origin_text(alloc: Global, origin: &Origin) -> Result<Octets, NoMem>
    ensures { IfOk result (λ text. text ≡ spec.origin_text origin.now) }
{
    let scheme = match origin.scheme {
        Scheme::Http => Octets::build(alloc, b"http"),
        Scheme::Https => Octets::build(alloc, b"https"),
    };
    let mut text = scheme?;
    text.extend(alloc, b"://")?;
    let place = host_and_port(alloc, &origin.host, origin.port)?;
    text.extend(alloc, place.as_slice())?;
    Ok(text)
}

/// `secure` or `clear`.
pub fn security_text(secure: bool) -> &'static str
    ensures { result.now ≡ spec.security_text secure }
{
    if secure { "secure" } else { "clear" }
}

/// `h1` or `h2`.
pub fn proto_text(proto: Proto) -> &'static str
    ensures { result.now ≡ spec.proto_text proto }
{
    match proto {
        Proto::H1 => "h1",
        Proto::H2 => "h2",
    }
}

/// `+` for true and `-` for false.
pub fn credentials_text(credentials: bool) -> &'static str
    ensures { result.now ≡ spec.credentials_text credentials }
{
    if credentials { "+" } else { "-" }
}

/// By which right an exchange uses a connection.
pub fn way_text(way: Way) -> &'static str
    ensures { result.now ≡ spec.way_text way }
{
    match way {
        Way::Direct => "direct",
        Way::Alternative => "alternative",
        Way::Coalesced => "coalesced",
    }
}

/// The origin itself, or an alternative by its protocol.
pub(crate) fn via_text(via: Via) -> &'static str
    ensures { result.now ≡ spec.via_text via }
{
    match via {
        Via::Direct => "direct",
        Via::Alternative(proto) => proto_text(proto),
    }
}

/// Which condition failed (RFC 8164, section 2.3).
pub(crate) fn condition_text(why: Why) -> &'static str
    ensures { result.now ≡ spec.condition_text why }
{
    match why {
        Why::Status => "status",
        Why::Media => "media",
        Why::NotJson => "json",
        Why::NotArray => "array",
        Why::Absent => "absent",
        Why::Stale => "stale",
    }
}

/// A moment, `-` where there is none.
pub fn deadline_text(alloc: Global, deadline: Option<Moment>) -> Result<Octets, NoMem>
    ensures { IfOk result (λ text. text ≡ spec.deadline_text deadline) }
{
    match deadline {
        None => Octets::build(alloc, b"-"),
        Some(moment) => number_text(alloc, moment.0),
    }
}

/// Addresses, each as 32 digits, `-` where there are none.
pub fn addresses_text(alloc: Global, addresses: &Addresses) -> Result<Octets, NoMem>
    ensures { IfOk result (λ text. text ≡ spec.addresses_text addresses.now) }
{
    let texts = address_texts(alloc, addresses.as_slice())?;
    list_text(alloc, texts.as_slice())
}

fn address_texts(alloc: Global, addresses: &[[u8; 16]]) -> Result<Listed<Octets>, NoMem>
    ensures { IfOk result (λ texts. texts ≡ map encode_lower addresses.now) }
{
    let mut texts = Listed::new();
    for address in addresses {
        texts.push(alloc, hex_text(alloc, address)?)?;
    }
    Ok(texts)
}

/// Streams by their numbers, `-` where there are none.
pub fn streams_text(alloc: Global, streams: &StreamList) -> Result<Octets, NoMem>
    ensures { IfOk result (λ text. text ≡ spec.streams_text streams.now) }
{
    let texts = stream_texts(alloc, streams.as_slice())?;
    list_text(alloc, texts.as_slice())
}

fn stream_texts(alloc: Global, streams: &[StreamNo]) -> Result<Listed<Octets>, NoMem>
    ensures { IfOk result (λ texts. texts ≡ map (λ s. decimal s.0) streams.now) }
{
    let mut texts = Listed::new();
    for stream in streams {
        texts.push(alloc, number_text(alloc, u64::from(stream.0))?)?;
    }
    Ok(texts)
}

fn persist_text(persist: bool) -> &'static str
    ensures { result.now ≡ spec.persist_text persist }
{
    if persist { "keep" } else { "lose" }
}

/// HOST/PORT.
fn host_and_port_of(alloc: Global, a: &Alternative) -> Result<Octets, NoMem>
    ensures { IfOk result (λ text. text ≡ a.now.host ++ 47 ∷ decimal a.now.port) }
{
    let mut text = Octets::build(alloc, a.host.as_slice())?;
    text.push(alloc, b'/')?;
    let port = number_text(alloc, u64::from(a.port))?;
    text.extend(alloc, port.as_slice())?;
    Ok(text)
}

/// PROTO/HOST/PORT/EXPIRES/PERSIST.
fn alternative_text(alloc: Global, a: &Alternative) -> Result<Octets, NoMem>
    ensures { IfOk result (λ text. text ≡ spec.alternative_text a.now) }
{
    let mut text = Octets::build(alloc, proto_text(a.proto).as_bytes())?;
    text.push(alloc, b'/')?;
    let place = host_and_port_of(alloc, a)?;
    text.extend(alloc, place.as_slice())?;
    text.push(alloc, b'/')?;
    let expires = number_text(alloc, a.expires.0)?;
    text.extend(alloc, expires.as_slice())?;
    text.push(alloc, b'/')?;
    text.extend(alloc, persist_text(a.persist).as_bytes())?;
    Ok(text)
}

fn alternative_texts(alloc: Global, list: &[Alternative]) -> Result<Listed<Octets>, NoMem>
    ensures { IfOk result (λ texts. texts ≡ map spec.alternative_text list.now) }
{
    let mut texts = Listed::new();
    for a in list {
        texts.push(alloc, alternative_text(alloc, a)?)?;
    }
    Ok(texts)
}

/// Alternatives, each as PROTO/HOST/PORT/EXPIRES/PERSIST, `-` where there are none.
pub(crate) fn alternatives_text(alloc: Global, list: &Alternatives) -> Result<Octets, NoMem>
    ensures { IfOk result (λ text. text ≡ spec.alternatives_text list.now) }
{
    let texts = alternative_texts(alloc, list.as_slice())?;
    list_text(alloc, texts.as_slice())
}

/// Why a connection ended.
pub fn cause_text(alloc: Global, cause: EndCause) -> Result<Octets, NoMem>
    ensures { IfOk result (λ text. text ≡ spec.cause_text cause) }
{
    match cause {
        EndCause::DialFailed => Octets::build(alloc, b"dial"),
        EndCause::End => Octets::build(alloc, b"end"),
        EndCause::LinkFault => Octets::build(alloc, b"fault"),
        EndCause::Broken { code, place } => broken_text(alloc, code, place),
        EndCause::Done => Octets::build(alloc, b"done"),
    }
}

fn broken_text(alloc: Global, code: u32, place: u64) -> Result<Octets, NoMem>
    ensures { IfOk result (λ text. text ≡ codes "broken:" ++ decimal code ++ 58 ∷ decimal place) }
{
    let mut text = Octets::build(alloc, b"broken:")?;
    let code = number_text(alloc, u64::from(code))?;
    text.extend(alloc, code.as_slice())?;
    text.push(alloc, b':')?;
    let place = number_text(alloc, place)?;
    text.extend(alloc, place.as_slice())?;
    Ok(text)
}
