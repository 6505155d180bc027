// The small form of input, and how it is read from JSON.
ghost use Rattle.std.specs.Prelude.{◌≡◌, map, IfOk, option_map, string_bytes};
ghost use Rattle.std.specs.Option.{option_copied};
ghost use Rattle.std.specs.List.{list_all};
ghost use Rattle.std.specs.BTreeMap.{keys};
ghost use Rattle.serde_json.specs.View.{view, items_view, members_view};
ghost use Rattle.scenario_walk.specs.Faults.{is_among};
ghost use Rattle.small_form.specs.Forms as spec;
ghost use Rattle.scenario_walk.specs.Json.{IsNoJson};
ghost use Rattle.small_form.specs.Forms.{IsForm, IsNoForm, form_of, peer_of, answer_of, channel_of, call_of, request_of, the_one, one_at};

use net_base::{
    Answer, AnswerBody, Answers, BuildFault, Fields, Names, NoMem, Octets, Peer, PeerActs,
    PeerBook, Proto, Request, Scheme, is_plain_host,
};
use scenario_walk::is_among;
use serde_json::{Map, Value};
use std::alloc::Global;

/// The most octets of a body, 1 MiB.
pub const MOST_BODY: usize = 1048576;

/// What the small form gives: a book of one scripted peer with one answer, and the one request that is submitted.
#[derive(Debug, Drop)]
pub struct SmallForm {
    pub peers: PeerBook,
    pub request: Request,
}

/// Why no form was read.
#[derive(Clone, Copy, Debug, PartialEq, Eq)]
pub enum FormFault {
    /// There was no memory.
    NoMem,
    /// The octets are no JSON.
    NotJson,
    /// They are JSON, but not of the form.
    Unsupported,
}

/// Why a value of JSON gave nothing.
#[derive(Clone, Copy, Debug, PartialEq, Eq)]
enum Misfit {
    NoMem,
    Unsupported,
}

impl From<NoMem> for Misfit {
    ghost use Rattle.std.specs.Prelude.{◌≡◌};
    ghost use Rattle.small_form.specs.declared.form.Misfit.TheVariants as fault;

    ghost from_gives = { λ _ e. e ≡ fault.NoMem };

    fn from(_: NoMem) -> Misfit {
        Misfit::NoMem
    }
}

/// Reads the small form. Of two members of one name the last counts, and a number with a fraction or an exponent is
/// no whole number.
pub fn read_form(alloc: Global, bytes: &[u8]) -> Result<SmallForm, FormFault>
    ensures ok { IfOk result (IsForm bytes.now) }
    ensures not_json { result ≡ Err FormFault.NotJson → IsNoJson bytes.now }
    ensures unsupported { result ≡ Err FormFault.Unsupported → IsNoForm bytes.now }
{
    match Value::from_slice(alloc, bytes) {
        Ok(value) => match form_from(alloc, &value) {
            Ok(form) => Ok(form),
            Err(Misfit::NoMem) => Err(FormFault::NoMem),
            Err(Misfit::Unsupported) => Err(FormFault::Unsupported),
        },
        Err(e) => {
            if e.is_memory() {
                Err(FormFault::NoMem)
            } else {
                Err(FormFault::NotJson)
            }
        }
    }
}

fn form_from(alloc: Global, value: &Value) -> Result<SmallForm, Misfit>
    ensures ok { IfOk result (λ form. form_of (view value.now) ≡ Some form) }
    ensures unsupported { result ≡ Err Misfit.Unsupported → form_of (view value.now) ≡ None }
{
    if !is_only(value, &["peers", "channels"]) {
        return Err(Misfit::Unsupported);
    }
    let Some(peer) = only_item(value, "peers") else {
        return Err(Misfit::Unsupported);
    };
    let Some(channel) = only_item(value, "channels") else {
        return Err(Misfit::Unsupported);
    };
    let peer = peer_from(alloc, peer)?;
    let request = channel_from(alloc, channel)?;
    let mut peers = PeerBook::new();
    peers.push(alloc, peer)?;
    Ok(SmallForm { peers, request })
}

fn peer_from(alloc: Global, value: &Value) -> Result<Peer, Misfit>
    ensures ok { IfOk result (λ peer. peer_of (view value.now) ≡ Some peer) }
    ensures unsupported { result ≡ Err Misfit.Unsupported → peer_of (view value.now) ≡ None }
{
    if !is_only(value, &["host", "port", "answers"]) {
        return Err(Misfit::Unsupported);
    }
    let host = host_at(alloc, value, "host")?;
    let Some(port) = port_at(value, "port") else {
        return Err(Misfit::Unsupported);
    };
    let Some(answer) = only_item(value, "answers") else {
        return Err(Misfit::Unsupported);
    };
    let answer = answer_from(alloc, answer)?;
    let mut answers = Answers::new();
    answers.push(alloc, answer)?;
    Ok(Peer {
        host,
        port,
        secure: false,
        proto: Proto::H1,
        names: Names::new(),
        address: [0; 16],
        answers,
        acts: PeerActs::new(),
    })
}

fn answer_from(alloc: Global, value: &Value) -> Result<Answer, Misfit>
    ensures ok { IfOk result (λ answer. answer_of (view value.now) ≡ Some answer) }
    ensures unsupported { result ≡ Err Misfit.Unsupported → answer_of (view value.now) ≡ None }
{
    if !is_only(value, &["path", "text"]) {
        return Err(Misfit::Unsupported);
    }
    let Some(path) = text_at(value, "path") else {
        return Err(Misfit::Unsupported);
    };
    let Some(text) = short_text_at(value, "text") else {
        return Err(Misfit::Unsupported);
    };
    let path = Octets::build(alloc, path.as_bytes())?;
    let text = Octets::build(alloc, text.as_bytes())?;
    Ok(Answer {
        path,
        authority: None,
        status: 200,
        body: AnswerBody::Text(text),
        fields: Fields::new(),
    })
}

fn channel_from(alloc: Global, value: &Value) -> Result<Request, Misfit>
    ensures ok { IfOk result (λ request. channel_of (view value.now) ≡ Some request) }
    ensures unsupported { result ≡ Err Misfit.Unsupported → channel_of (view value.now) ≡ None }
{
    if !is_only(value, &["calls"]) {
        return Err(Misfit::Unsupported);
    }
    let Some(call) = only_item(value, "calls") else {
        return Err(Misfit::Unsupported);
    };
    call_from(alloc, call)
}

fn call_from(alloc: Global, value: &Value) -> Result<Request, Misfit>
    ensures ok { IfOk result (λ request. call_of (view value.now) ≡ Some request) }
    ensures unsupported { result ≡ Err Misfit.Unsupported → call_of (view value.now) ≡ None }
{
    if !is_only(value, &["call", "url"]) {
        return Err(Misfit::Unsupported);
    }
    let Some(call) = text_at(value, "call") else {
        return Err(Misfit::Unsupported);
    };
    if call != "submit" {
        return Err(Misfit::Unsupported);
    }
    let Some(url) = text_at(value, "url") else {
        return Err(Misfit::Unsupported);
    };
    request_from(alloc, url)
}

/// The GET request for a URL whose scheme is http.
fn request_from(alloc: Global, url: &str) -> Result<Request, Misfit>
    ensures ok { IfOk result (λ request. request_of url.now ≡ Some request) }
    ensures unsupported { result ≡ Err Misfit.Unsupported → request_of url.now ≡ None }
{
    match Request::build(alloc, b"GET", url, Fields::new(), Octets::new()) {
        Ok(request) => match request.origin.scheme {
            Scheme::Http => Ok(request),
            Scheme::Https => Err(Misfit::Unsupported),
        },
        Err(BuildFault::NoMem) => Err(Misfit::NoMem),
        Err(_) => Err(Misfit::Unsupported),
    }
}

/// Whether the value is an object whose members have these names alone.
fn is_only(value: &Value, names: &[&str]) -> bool
    ensures { result ≡ spec.is_only (map (λ name. name.now) names.now) (view value.now) }
{
    match value.as_object() {
        None => false,
        Some(members) => are_only(members, names),
    }
}

fn are_only(members: &Map<String, Value>, names: &[&str]) -> bool
    ensures { result ≡ list_all (λ name. is_among (map (λ n. n.now) names.now) (string_bytes name)) (keys members.now) }
{
    members.keys().all(|name| is_among(names, name.as_str()))
}

/// The item of the list of one that stands under a name.
fn only_item<'v>(value: &'v Value, name: &str) -> Option<&'v Value>
    ensures { option_map (λ item. view item.now) result ≡ one_at name.now (view value.now) }
{
    match value.get(name).and_then(Value::as_array) {
        None => None,
        Some(items) => the_only(items),
    }
}

#[tactic(auto, using(crate::proofs::JsonValues::the_one_of_more))]
fn the_only(items: &[Value]) -> Option<&Value>
    ensures { option_map (λ item. view item.now) result ≡ the_one (items_view items.now) }
{
    match items {
        [] => None,
        [item] => Some(item),
        [_, _, ..] => None,
    }
}

/// The text that stands under a name.
fn text_at<'v>(value: &'v Value, name: &str) -> Option<&'v str>
    ensures { option_copied result ≡ spec.text_at name.now (view value.now) }
{
    value.get(name).and_then(Value::as_str)
}

/// The text, where a body may have as many octets.
fn short_text_at<'v>(value: &'v Value, name: &str) -> Option<&'v str>
    ensures { option_copied result ≡ spec.short_text_at name.now (view value.now) }
{
    match text_at(value, name) {
        Some(text) if text.len() <= MOST_BODY => Some(text),
        _ => None,
    }
}

/// The whole number from 1 to 65535 that stands under a name.
fn port_at(value: &Value, name: &str) -> Option<u16>
    ensures { result ≡ spec.port_at name.now (view value.now) }
{
    match value.get(name).and_then(Value::as_u64) {
        Some(n) if n >= 1 && n <= 65535 => Some(n as u16),
        _ => None,
    }
}

/// The host that stands under a name, where the URL Standard writes it as it is.
fn host_at(alloc: Global, value: &Value, name: &str) -> Result<Octets, Misfit>
    ensures ok { IfOk result (λ host. spec.host_at name.now (view value.now) ≡ Some host) }
    ensures unsupported { result ≡ Err Misfit.Unsupported → spec.host_at name.now (view value.now) ≡ None }
{
    let Some(text) = text_at(value, name) else {
        return Err(Misfit::Unsupported);
    };
    if !is_plain_host(alloc, text)? {
        return Err(Misfit::Unsupported);
    }
    Ok(Octets::build(alloc, text.as_bytes())?)
}
