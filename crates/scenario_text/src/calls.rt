// The calls of a channel's script.
ghost use Rattle.std.specs.Prelude.{◌≡◌, ◌∷◌, ◌+◌, [], map, codes, if◌then◌else◌, IfOk};
ghost use Rattle.serde_json.specs.View.{view};
ghost use Rattle.scenario_text.specs.Calls as spec;
ghost use Rattle.scenario_walk.specs.Faults.{Gives, each_behind, list_behind};
ghost use Rattle.scenario_walk.specs.Values.{word};

use crate::submissions::{built, credentials, key, submission, url_in};
use model_values::{ScriptCall, ScriptCalls};
use net_base::{Fields, Moment, NoMem, Octets};
use scenario_walk::{
    Address, At, Host, ListOf, Reads, ScenarioFault, Whole, an_object, bad, below_item, items,
    only, required, text_of,
};
use serde_json::Value;
use std::alloc::Global;

/// The calls, by their words.
#[derive(Clone, Copy, Debug, PartialEq, Eq)]
pub(crate) enum CallWord {
    Submit,
    Cancel,
    Reprioritise,
    Preconnect,
    Resolved,
    NetworkChanged,
    Wait,
    Until,
}

/// The call that a word names.
fn call_word(word: &str) -> Option<CallWord>
    ensures { result ≡ spec.call_word word.now }
{
    if word == "submit" {
        Some(CallWord::Submit)
    } else if word == "cancel" {
        Some(CallWord::Cancel)
    } else if word == "reprioritise" {
        Some(CallWord::Reprioritise)
    } else if word == "preconnect" {
        Some(CallWord::Preconnect)
    } else if word == "resolved" {
        Some(CallWord::Resolved)
    } else if word == "network_changed" {
        Some(CallWord::NetworkChanged)
    } else if word == "wait" {
        Some(CallWord::Wait)
    } else if word == "until" {
        Some(CallWord::Until)
    } else {
        None
    }
}

/// The word of a call.
#[derive(Drop)]
struct CallWordText;

impl Reads<CallWord> for CallWordText {
    ghost reads = { λ _. word spec.call_word };

    fn read(&self, alloc: Global, at: &At) -> Result<CallWord, ScenarioFault> {
        let word = text_of(alloc, at)?;
        match call_word(word) {
            Some(call) => Ok(call),
            None => Err(bad(alloc, at.path.as_slice())),
        }
    }
}

/// The names of the members of a call.
fn call_names(word: CallWord) -> &'static [&'static str]
    ensures { map (λ name. name.now) result.now ≡ codes "call" ∷ spec.members_of_call word }
{
    match word {
        CallWord::Submit => &[
            "call",
            "url",
            "method",
            "site",
            "credentials",
            "fields",
            "text",
            "size",
            "urgency",
            "background",
            "deadline",
            "probe",
        ],
        CallWord::Cancel => &["call", "of"],
        CallWord::Reprioritise => &["call", "of", "urgency"],
        CallWord::Preconnect => &["call", "url", "count", "site", "credentials"],
        CallWord::Resolved => &["call", "host", "addresses", "site"],
        CallWord::NetworkChanged => &["call"],
        CallWord::Wait => &["call", "of"],
        CallWord::Until => &["call", "moment"],
    }
}

/// The number of one of the submissions before, of which there are so many.
fn earlier(alloc: Global, at: &At, before: u32) -> Result<u32, ScenarioFault>
    ensures { Gives result (spec.earlier before at.now.path (view at.now.value.now)) }
{
    required(
        alloc,
        at,
        "of",
        &Whole {
            least: 1,
            most: before,
        },
    )
}

fn preconnect(alloc: Global, at: &At) -> Result<ScriptCall, ScenarioFault>
    ensures { Gives result (spec.preconnect at.now.path (view at.now.value.now)) }
{
    let url = url_in(alloc, at)?;
    let count = required(alloc, at, "count", &Whole { least: 1, most: 6 })?;
    let key = key(alloc, at)?;
    let credentials = credentials(alloc, at)?;
    let request = built(alloc, at, b"GET", url, Fields::new(), Octets::new())?;
    Ok(ScriptCall::Preconnect {
        key,
        credentials,
        origin: request.origin,
        count,
    })
}

fn resolved(alloc: Global, at: &At) -> Result<ScriptCall, ScenarioFault>
    ensures { Gives result (spec.resolved at.now.path (view at.now.value.now)) }
{
    let host = required(alloc, at, "host", &Host)?;
    let addresses = ListOf {
        most: 100,
        item: Address,
    };
    let addresses = required(alloc, at, "addresses", &addresses)?;
    let key = key(alloc, at)?;
    Ok(ScriptCall::Resolved {
        key,
        host,
        addresses,
    })
}

/// The call of this word.
fn call_of(alloc: Global, at: &At, before: u32, word: CallWord) -> Result<ScriptCall, ScenarioFault>
    ensures { Gives result (spec.call_of before word at.now.path (view at.now.value.now)) }
{
    match word {
        CallWord::Submit => Ok(ScriptCall::Submit(submission(alloc, at)?)),
        CallWord::Cancel => Ok(ScriptCall::Cancel {
            of: earlier(alloc, at, before)?,
        }),
        CallWord::Reprioritise => reprioritise(alloc, at, before),
        CallWord::Preconnect => preconnect(alloc, at),
        CallWord::Resolved => resolved(alloc, at),
        CallWord::NetworkChanged => Ok(ScriptCall::NetworkChanged),
        CallWord::Wait => Ok(ScriptCall::Wait {
            of: earlier(alloc, at, before)?,
        }),
        CallWord::Until => until(alloc, at),
    }
}

fn reprioritise(alloc: Global, at: &At, before: u32) -> Result<ScriptCall, ScenarioFault>
    ensures { Gives result (spec.reprioritise before at.now.path (view at.now.value.now)) }
{
    let of = earlier(alloc, at, before)?;
    let urgency = required(alloc, at, "urgency", &Whole { least: 0, most: 7 })?;
    Ok(ScriptCall::Reprioritise { of, urgency })
}

fn until(alloc: Global, at: &At) -> Result<ScriptCall, ScenarioFault>
    ensures { Gives result (spec.until at.now.path (view at.now.value.now)) }
{
    let moment = Whole {
        least: 0,
        most: u64::MAX,
    };
    let moment = required(alloc, at, "moment", &moment)?;
    Ok(ScriptCall::Until {
        moment: Moment(moment),
    })
}

/// A call, behind so many submissions.
fn script_call(alloc: Global, at: &At, before: u32) -> Result<ScriptCall, ScenarioFault>
    ensures { Gives result (spec.call_behind before at.now.path (view at.now.value.now)) }
{
    an_object(alloc, at)?;
    let word = required(alloc, at, "call", &CallWordText)?;
    only(alloc, at, call_names(word))?;
    call_of(alloc, at, before, word)
}

/// Whether the value is a submission.
fn is_submit(value: &Value) -> bool
    ensures { result ≡ spec.is_submit (view value.now) }
{
    value.get("call").and_then(Value::as_str) == Some("submit")
}

/// How many submissions there are with this call too. The number fits, since a channel has at most 20000 calls.
fn submitted_with(submitted: u32, value: &Value) -> Result<u32, NoMem>
    ensures { IfOk result (λ n. n ≡ (if spec.is_submit (view value.now) then submitted + 1 else submitted)) }
{
    if !is_submit(value) {
        return Ok(submitted);
    }
    match submitted.checked_add(1) {
        Some(n) => Ok(n),
        None => Err(NoMem),
    }
}

/// The calls of a channel.
#[tactic(auto, using(scenario_walk::proofs::WalkLemmas::each_more, scenario_walk::proofs::WalkLemmas::each_stop, scenario_walk::proofs::WalkLemmas::each_done))]
fn each_call(alloc: Global, path: &[u8], calls: &[Value]) -> Result<ScriptCalls, ScenarioFault>
    ensures { Gives result (each_behind spec.script_call path.now [] (map view calls.now)) }
{
    let mut all = ScriptCalls::new();
    let mut submitted = 0;
    for (place, value) in calls.iter().enumerate() {
        let path = below_item(alloc, path, place)?;
        let call = script_call(alloc, &At { path, value }, submitted)?;
        all.push(alloc, call)?;
        submitted = submitted_with(submitted, value)?;
    }
    Ok(all)
}

/// The calls of a channel, at most 20000.
#[derive(Drop)]
struct CallList;

impl Reads<ScriptCalls> for CallList {
    ghost reads = { λ _. list_behind 20000 spec.script_call };

    fn read(&self, alloc: Global, at: &At) -> Result<ScriptCalls, ScenarioFault> {
        let calls = items(alloc, at, 20000)?;
        each_call(alloc, at.path.as_slice(), calls)
    }
}

/// A channel.
#[derive(Drop)]
pub(crate) struct ChannelObject;

impl Reads<ScriptCalls> for ChannelObject {
    ghost reads = { λ _. spec.channel };

    fn read(&self, alloc: Global, at: &At) -> Result<ScriptCalls, ScenarioFault> {
        only(alloc, at, &["calls"])?;
        required(alloc, at, "calls", &CallList)
    }
}
