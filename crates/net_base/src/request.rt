// A request, and how it is read from a method and a URL.
ghost use Rattle.std.specs.Prelude.{◌≡◌, None, map, not, bytes_eq, IfOk};
ghost use Rattle.std.specs.List.{list_all, position};
ghost use Rattle.http_header.specs.Token.{is_value_byte, lowercase};
ghost use Rattle.url.specs.Parser.{parse_url};
ghost use Rattle.net_base.specs.Origins.{scheme_of};
ghost use Rattle.net_base.specs.Requests as spec;
ghost use Rattle.net_base.specs.Requests.{Gives, request_of, method_given, url_given, fields_given, origin_from, target_text};

use crate::field::{Field, Fields};
use crate::origin::{Origin, Scheme, default_port};
use http_header::is_token;
use plain_values::{NoMem, Octets, PlainValue, lower_case};
use std::alloc::Global;
use url::{ParseError, Url};

/// A request (RFC 9110, section 3.4): method, origin, path with its query, fields in order with names in lower case,
/// and body.
#[derive(Debug, Drop)]
pub struct Request {
    pub method: Octets,
    pub origin: Origin,
    pub path: Octets,
    pub fields: Fields,
    pub body: Octets,
}

impl PlainValue for Request {
    fn copy(&self, alloc: Global) -> Result<Request, NoMem> {
        Ok(Request {
            method: self.method.copy(alloc)?,
            origin: self.origin.copy(alloc)?,
            path: self.path.copy(alloc)?,
            fields: self.fields.copy(alloc)?,
            body: self.body.copy(alloc)?,
        })
    }

    fn same(&self, other: &Request) -> bool {
        self.method.same(&other.method)
            && self.origin.same(&other.origin)
            && self.path.same(&other.path)
            && self.fields.same(&other.fields)
            && self.body.same(&other.body)
    }
}

/// Why no request was built. Places are counted from 0.
#[derive(Clone, Copy, Debug, PartialEq, Eq)]
pub enum BuildFault {
    /// There was no memory, or the URL would be longer than 4 GiB.
    NoMem,
    /// The method is no token (RFC 9110, section 5.6.2).
    BadMethod,
    /// The method is CONNECT, TRACE or TRACK in any case (Fetch Standard, section 2.2.1).
    ForbiddenMethod,
    /// The text is no URL.
    BadUrl,
    /// The URL's scheme is neither http nor https.
    BadScheme,
    /// There are so many fields, and more than `MOST_FIELDS`.
    TooManyFields(u64),
    /// The field at this place has a name that is no token or is longer than 65535 octets, or a value with a control
    /// other than tab, or with a space or tab at an end (RFC 9110, sections 5.1 and 5.5).
    BadField(u64),
    /// The field at this place is one that the pool writes itself or that speaks of one connection alone: Host,
    /// Content-Length, Alt-Used, Connection, Proxy-Connection, Keep-Alive, Transfer-Encoding, Upgrade, TE or Expect.
    ForbiddenField(u64),
    /// The body has so many octets, and more than 1048576.
    BodyTooLarge(u64),
}

impl From<NoMem> for BuildFault {
    ghost use Rattle.std.specs.Prelude.{◌≡◌};
    ghost use Rattle.net_base.specs.declared.request.BuildFault.TheVariants as fault;

    ghost from_gives = { λ _ e. e ≡ fault.NoMem };

    fn from(_: NoMem) -> BuildFault {
        BuildFault::NoMem
    }
}

impl Request {
    /// The request of this method for a URL, with these fields and this body. The URL is read by the URL Standard: its
    /// host, its port or the default one of its scheme, its path with its query. A user name, a password and a fragment
    /// are dropped. Names of fields are kept in lower case.
    ///
    /// What doesn't fit is refused in the order of `BuildFault`, by the first that applies.
    pub fn build(
        alloc: Global,
        method: &[u8],
        url: &str,
        fields: Fields,
        body: Octets,
    ) -> Result<Request, BuildFault>
        ensures { Gives result (request_of method.now url.now fields body) }
    {
        check_method(method)?;
        let url = url_of(alloc, url)?;
        let Some(scheme) = web_scheme(&url) else {
            return Err(BuildFault::BadScheme);
        };
        check_fields(&fields)?;
        if body.len() > 1048576 {
            return Err(BuildFault::BodyTooLarge(body.len() as u64));
        }
        let origin = origin_of(alloc, &url, scheme)?;
        let path = path_of(alloc, &url)?;
        let method = Octets::build(alloc, method)?;
        let fields = lowered_fields(alloc, &fields)?;
        Ok(Request {
            method,
            origin,
            path,
            fields,
            body,
        })
    }
}

/// Tests the method.
fn check_method(method: &[u8]) -> Result<(), BuildFault>
    ensures { result ≡ method_given method.now }
{
    if !is_token_text(method) {
        return Err(BuildFault::BadMethod);
    }
    if is_forbidden_method(method) {
        return Err(BuildFault::ForbiddenMethod);
    }
    Ok(())
}

fn is_forbidden_method(method: &[u8]) -> bool
    ensures { result ≡ spec.is_forbidden_method method.now }
{
    is_in_any_case(method, "connect")
        || is_in_any_case(method, "trace")
        || is_in_any_case(method, "track")
}

/// Whether the text is a token (RFC 9110, section 5.6.2).
pub fn is_token_text(text: &[u8]) -> bool
    ensures { result ≡ spec.is_token text.now }
{
    is_token(text)
}

/// Whether the two are the same but for the case of ASCII letters.
fn is_in_any_case(text: &[u8], other: &str) -> bool
    ensures { result ≡ bytes_eq (lowercase text.now) (lowercase other.now) }
{
    text.eq_ignore_ascii_case(other.as_bytes())
}

/// The URL that a text is.
fn url_of(alloc: Global, url: &str) -> Result<Url, BuildFault>
    ensures { Gives result (url_given (parse_url None url.now)) }
{
    match Url::parse(alloc, url) {
        Ok(url) => Ok(url),
        Err(ParseError::OutOfMemory) => Err(BuildFault::NoMem),
        Err(ParseError::Overflow) => Err(BuildFault::NoMem),
        Err(_) => Err(BuildFault::BadUrl),
    }
}

/// The scheme, where it is one of the web.
fn web_scheme(url: &Url) -> Option<Scheme>
    ensures { result ≡ scheme_of url.now.scheme }
{
    let text = url.scheme();
    if text == "http" {
        Some(Scheme::Http)
    } else if text == "https" {
        Some(Scheme::Https)
    } else {
        None
    }
}

/// The origin of a URL of this scheme.
#[tactic(auto, using(crate::proofs::Hosts::host_or_nothing))]
fn origin_of(alloc: Global, url: &Url, scheme: Scheme) -> Result<Origin, NoMem>
    ensures { IfOk result (λ o. o ≡ origin_from scheme url.now) }
{
    let host = url.host_str().unwrap_or("");
    let port = url.port().unwrap_or(default_port(scheme));
    let host = Octets::build(alloc, host.as_bytes())?;
    Ok(Origin { scheme, host, port })
}

/// The path of a URL, with its query.
fn path_of(alloc: Global, url: &Url) -> Result<Octets, NoMem>
    ensures { IfOk result (λ path. path ≡ target_text url.now) }
{
    let mut path = Octets::build(alloc, url.path().as_bytes())?;
    if let Some(query) = url.query() {
        path.push(alloc, b'?')?;
        path.extend(alloc, query.as_bytes())?;
    }
    Ok(path)
}

// ---- fields

/// How many fields a request may have. The number is this project's own.
pub const MOST_FIELDS: usize = 100;

/// Tests the fields.
fn check_fields(fields: &Fields) -> Result<(), BuildFault>
    ensures { result ≡ fields_given fields.now }
{
    if fields.len() > MOST_FIELDS {
        return Err(BuildFault::TooManyFields(fields.len() as u64));
    }
    if let Some(place) = first_bad_field(fields.as_slice()) {
        return Err(BuildFault::BadField(place as u64));
    }
    if let Some(place) = first_forbidden_field(fields.as_slice()) {
        return Err(BuildFault::ForbiddenField(place as u64));
    }
    Ok(())
}

fn first_bad_field(fields: &[Field]) -> Option<usize>
    ensures { result ≡ position (λ f. not (spec.is_field f)) fields.now }
{
    fields.iter().position(|f| !is_field(f))
}

fn first_forbidden_field(fields: &[Field]) -> Option<usize>
    ensures { result ≡ position spec.is_forbidden_field fields.now }
{
    fields.iter().position(|f| is_forbidden_field(f))
}

/// Whether the field's name is a token of at most 65535 octets, and its value has no control but tab and neither a space
/// nor a tab at an end (RFC 9110, sections 5.1 and 5.5; the 65535 are this project's own).
pub fn is_field(f: &Field) -> bool
    ensures { result ≡ spec.is_field f.now }
{
    is_field_name(f.name.as_slice()) && is_field_value(f.value.as_slice())
}

fn is_field_name(name: &[u8]) -> bool
    ensures { result ≡ spec.is_field_name name.now }
{
    is_token_text(name) && name.len() <= 65535
}

fn is_field_value(value: &[u8]) -> bool
    ensures { result ≡ spec.is_field_value value.now }
{
    are_value_octets(value) && !is_blank(value.first().copied()) && !is_blank(value.last().copied())
}

fn are_value_octets(value: &[u8]) -> bool
    ensures { result ≡ list_all is_value_byte value.now }
{
    value.iter().all(|b| is_value_octet(*b))
}

fn is_value_octet(b: u8) -> bool
    ensures { result ≡ is_value_byte b }
{
    b == b'\t' || (b >= 32 && b != 127)
}

fn is_blank(octet: Option<u8>) -> bool
    ensures { result ≡ spec.is_blank octet }
{
    match octet {
        None => false,
        Some(b) => b == b' ' || b == b'\t',
    }
}

fn is_forbidden_field(f: &Field) -> bool
    ensures { result ≡ spec.is_forbidden_field f.now }
{
    is_forbidden_name(f.name.as_slice())
}

fn is_forbidden_name(name: &[u8]) -> bool
    ensures { result ≡ spec.is_forbidden_name name.now }
{
    is_in_any_case(name, "host")
        || is_in_any_case(name, "content-length")
        || is_in_any_case(name, "alt-used")
        || is_in_any_case(name, "connection")
        || is_in_any_case(name, "proxy-connection")
        || is_in_any_case(name, "keep-alive")
        || is_in_any_case(name, "transfer-encoding")
        || is_in_any_case(name, "upgrade")
        || is_in_any_case(name, "te")
        || is_in_any_case(name, "expect")
}

fn lowered_fields(alloc: Global, fields: &Fields) -> Result<Fields, NoMem>
    ensures { IfOk result (λ it. it ≡ map spec.lowered fields.now) }
{
    let mut all = Fields::new();
    for f in fields.as_slice() {
        all.push(alloc, lowered(alloc, f)?)?;
    }
    Ok(all)
}

/// The field with its name in lower case.
fn lowered(alloc: Global, f: &Field) -> Result<Field, NoMem>
    ensures { IfOk result (λ it. it ≡ spec.lowered f.now) }
{
    Ok(Field {
        name: lower_case(alloc, f.name.as_slice())?,
        value: f.value.copy(alloc)?,
    })
}
