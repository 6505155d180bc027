// Submissions, and what other calls have in common with them.
ghost use Rattle.std.specs.Prelude.{◌≡◌, replicate, IfOk, codes};
ghost use Rattle.serde_json.specs.View.{view};
ghost use Rattle.net_base.specs.Requests.{request_of};
ghost use Rattle.scenario_text.specs.Calls as spec;
ghost use Rattle.scenario_walk.specs.Faults.{Gives, GivesText, required};
ghost use Rattle.scenario_walk.specs.Values.{text};

use crate::limits::MOST_BODY;
use model_values::Submission;
use net_base::{BuildFault, Fields, Moment, NoMem, Octets, Request, Scheme};
use partition_keys::PartitionKey;
use scenario_walk::{
    AnyListOf, At, Flag, Given, MomentOrNone, PlainField, ScenarioFault, Site, Text, TextWithin,
    Whole, bad, below, optional, text_of,
};
use std::alloc::Global;

/// The partition key of a call: that of `https://top.test` where none is named.
pub(crate) fn key(alloc: Global, at: &At) -> Result<PartitionKey, ScenarioFault>
    ensures { Gives result (spec.key at.now.path (view at.now.value.now)) }
{
    let default = default_key(alloc)?;
    optional(alloc, at, "site", default, &Site)
}

/// The key of `https://top.test`.
fn default_key(alloc: Global) -> Result<PartitionKey, NoMem>
    ensures { IfOk result (λ key. key ≡ spec.default_key) }
{
    Ok(PartitionKey {
        site: partition_keys::Site::Tuple(Scheme::Https, Octets::build(alloc, b"top.test")?),
        second: None,
    })
}

/// Whether a call carries credentials.
pub(crate) fn credentials(alloc: Global, at: &At) -> Result<bool, ScenarioFault>
    ensures { Gives result (spec.credentials at.now.path (view at.now.value.now)) }
{
    optional(alloc, at, "credentials", true, &Flag)
}

/// The request, where it can be built.
pub(crate) fn built(
    alloc: Global,
    at: &At,
    method: &[u8],
    url: &str,
    fields: Fields,
    body: Octets,
) -> Result<Request, ScenarioFault>
    ensures { Gives result (spec.built at.now.path (request_of method.now url.now fields body)) }
{
    match Request::build(alloc, method, url, fields, body) {
        Ok(request) => Ok(request),
        Err(BuildFault::NoMem) => Err(ScenarioFault::NoMem),
        Err(_) => Err(bad(alloc, at.path.as_slice())),
    }
}

/// The octets of the text, or so many octets `x`; not both.
fn request_body(
    alloc: Global,
    at: &At,
    text: Option<Octets>,
    size: Option<u32>,
) -> Result<Octets, ScenarioFault>
    ensures { Gives result (spec.request_body at.now.path text size) }
{
    match (text, size) {
        (None, None) => Ok(Octets::new()),
        (Some(text), None) => Ok(text),
        (None, Some(n)) => Ok(filled(alloc, n as usize)?),
        (Some(_), Some(_)) => Err(bad(alloc, at.path.as_slice())),
    }
}

/// So many octets `x`.
fn filled(alloc: Global, n: usize) -> Result<Octets, NoMem>
    ensures { IfOk result (λ it. it ≡ replicate n 120) }
{
    let bytes = vec![in alloc; b'x'; n]?;
    Octets::build(alloc, bytes.as_slice())
}

/// The text of the member `url`.
pub(crate) fn url_in<'v>(alloc: Global, at: &At<'v>) -> Result<&'v str, ScenarioFault>
    ensures { GivesText result (required (codes "url") text at.now.path (view at.now.value.now)) }
{
    let path = below(alloc, at.path.as_slice(), "url")?;
    match at.value.get("url") {
        Some(value) => text_of(alloc, &At { path, value }),
        None => Err(bad(alloc, path.as_slice())),
    }
}

/// The members of what a request carries: its fields and, one at most, the text or the size of its body.
#[derive(Drop)]
pub(crate) struct Payload {
    pub(crate) fields: Fields,
    pub(crate) text: Option<Octets>,
    pub(crate) size: Option<u32>,
}

#[tactic(auto, unfolding(crate::specs::Calls::payload))]
fn payload_in(alloc: Global, at: &At) -> Result<Payload, ScenarioFault>
    ensures { Gives result (spec.payload at.now.path (view at.now.value.now)) }
{
    let fields = optional(
        alloc,
        at,
        "fields",
        Fields::new(),
        &AnyListOf { item: PlainField },
    )?;
    let text = optional(
        alloc,
        at,
        "text",
        None,
        &Given(TextWithin {
            most: MOST_BODY as usize,
        }),
    )?;
    let size = optional(
        alloc,
        at,
        "size",
        None,
        &Given(Whole {
            least: 0,
            most: MOST_BODY,
        }),
    )?;
    Ok(Payload { fields, text, size })
}

/// How an exchange is to be carried.
#[derive(Drop)]
pub(crate) struct Carriage {
    pub(crate) urgency: u8,
    pub(crate) background: bool,
    pub(crate) deadline: Option<Moment>,
    pub(crate) probe: bool,
}

#[tactic(auto, unfolding(crate::specs::Calls::carriage))]
fn carriage_in(alloc: Global, at: &At) -> Result<Carriage, ScenarioFault>
    ensures { Gives result (spec.carriage at.now.path (view at.now.value.now)) }
{
    let urgency = optional(alloc, at, "urgency", 3, &Whole { least: 0, most: 7 })?;
    let background = optional(alloc, at, "background", false, &Flag)?;
    let deadline = optional(alloc, at, "deadline", None, &MomentOrNone)?;
    let probe = optional(alloc, at, "probe", false, &Flag)?;
    Ok(Carriage {
        urgency,
        background,
        deadline,
        probe,
    })
}

/// The request with this payload, where it can be built.
#[tactic(auto, unfolding(crate::specs::Calls::request_with))]
fn request_with(
    alloc: Global,
    at: &At,
    method: &[u8],
    url: &str,
    payload: Payload,
) -> Result<Request, ScenarioFault>
    ensures { Gives result (spec.request_with at.now.path method.now url.now payload) }
{
    let body = request_body(alloc, at, payload.text, payload.size)?;
    built(alloc, at, method, url, payload.fields, body)
}

/// A submission.
pub(crate) fn submission(alloc: Global, at: &At) -> Result<Submission, ScenarioFault>
    ensures { Gives result (spec.submission at.now.path (view at.now.value.now)) }
{
    let url = url_in(alloc, at)?;
    let method = optional(alloc, at, "method", Octets::build(alloc, b"GET")?, &Text)?;
    let key = key(alloc, at)?;
    let credentials = credentials(alloc, at)?;
    let payload = payload_in(alloc, at)?;
    let carriage = carriage_in(alloc, at)?;
    let request = request_with(alloc, at, method.as_slice(), url, payload)?;
    Ok(Submission {
        key,
        credentials,
        request,
        urgency: carriage.urgency,
        background: carriage.background,
        deadline: carriage.deadline,
        probe: carriage.probe,
    })
}
