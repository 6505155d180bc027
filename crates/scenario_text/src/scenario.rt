// Scenarios, and how they are read.
ghost use Rattle.std.specs.Prelude.{◌≡◌, ◌*◌, IfOk, IfErr, count_by, sum_by};
ghost use Rattle.serde_json.specs.View.{view};
ghost use Rattle.scenario_walk.specs.Faults.{Gives};
ghost use Rattle.scenario_text.specs.Scenarios as spec;
ghost use Rattle.scenario_text.specs.Scenarios.{IsScenario, RefusesScenario};

use crate::calls::ChannelObject;
use crate::limits::{DEFAULT_CONFIG, MOST_SUBMISSIONS};
use crate::peers::PeerObject;
use edge_traits::NetKind;
use model_values::{Config, ScriptCall, ScriptCalls, Scripts};
use net_base::{Answer, AnswerBody, NoMem, Octets, Peer, PeerBook};
use plain_values::plus;
use scenario_walk::{
    At, ListOf, NetWord, Reads, ScenarioFault, Whole, only, optional, required, too_many,
};
use serde_json::Value;
use std::alloc::Global;

/// What is to be run: over which net, with which limits, to which scripted peers, and what each channel does.
#[derive(Debug, Drop)]
pub struct Scenario {
    pub net: NetKind,
    pub config: Config,
    pub peers: PeerBook,
    pub channels: Scripts,
}

/// Reads a scenario from JSON.
///
/// The walk goes through an object itself, then its unknown names in rising order, then its members in the order of the
/// tables, each whole; its first fault is the answer. Behind the walk `TooMany` says that there are more than 5000
/// submissions, or that as many largest answer bodies, with all request bodies, have more than 16777216 octets.
pub fn read_scenario(alloc: Global, bytes: &[u8]) -> Result<Scenario, ScenarioFault>
    ensures ok { IfOk result (IsScenario bytes.now) }
    ensures refused { IfErr result (RefusesScenario bytes.now) }
{
    match Value::from_slice(alloc, bytes) {
        Ok(value) => scenario_of(alloc, &value),
        Err(e) => {
            if e.is_memory() {
                Err(ScenarioFault::NoMem)
            } else {
                Err(ScenarioFault::NotJson)
            }
        }
    }
}

fn scenario_of(alloc: Global, value: &Value) -> Result<Scenario, ScenarioFault>
    ensures { Gives result (spec.scenario_of (view value.now)) }
{
    let at = At {
        path: Octets::new(),
        value,
    };
    let scenario = walk_scenario(alloc, &at)?;
    within_sums(alloc, scenario)
}

// ---- the walk

const CONFIG_NAMES: [&str; 6] = [
    "per_group",
    "total",
    "streams",
    "background",
    "last_stream",
    "submissions",
];

/// A limit from 1 to the one of a scenario that gives none.
fn limit(alloc: Global, at: &At, name: &str, most: u32) -> Result<u32, ScenarioFault>
    ensures { Gives result (spec.limit name.now most at.now.path (view at.now.value.now)) }
{
    optional(alloc, at, name, most, &Whole { least: 1, most })
}

/// The limits of the pool.
#[derive(Drop)]
struct ConfigObject;

impl Reads<Config> for ConfigObject {
    ghost reads = { λ _. spec.config };

    fn read(&self, alloc: Global, at: &At) -> Result<Config, ScenarioFault> {
        only(alloc, at, &CONFIG_NAMES)?;
        let per_group = limit(alloc, at, "per_group", DEFAULT_CONFIG.per_group)?;
        let total = limit(alloc, at, "total", DEFAULT_CONFIG.total)?;
        let streams = limit(alloc, at, "streams", DEFAULT_CONFIG.streams)?;
        let background = optional(
            alloc,
            at,
            "background",
            DEFAULT_CONFIG.background,
            &Whole {
                least: 0,
                most: DEFAULT_CONFIG.total,
            },
        )?;
        let last_stream = limit(alloc, at, "last_stream", DEFAULT_CONFIG.last_stream)?;
        let submissions = optional(
            alloc,
            at,
            "submissions",
            DEFAULT_CONFIG.submissions,
            &Whole {
                least: 1,
                most: DEFAULT_CONFIG.submissions,
            },
        )?;
        Ok(Config {
            per_group,
            total,
            streams,
            background,
            last_stream,
            submissions,
        })
    }
}

/// The walk over the whole value.
fn walk_scenario(alloc: Global, at: &At) -> Result<Scenario, ScenarioFault>
    ensures { Gives result (spec.scenario at.now.path (view at.now.value.now)) }
{
    only(alloc, at, &["net", "config", "peers", "channels"])?;
    let net = optional(alloc, at, "net", NetKind::Inner, &NetWord)?;
    let config = optional(alloc, at, "config", DEFAULT_CONFIG, &ConfigObject)?;
    let peers = required(
        alloc,
        at,
        "peers",
        &ListOf {
            most: 64,
            item: PeerObject,
        },
    )?;
    let channels = required(
        alloc,
        at,
        "channels",
        &ListOf {
            most: 64,
            item: ChannelObject,
        },
    )?;
    Ok(Scenario {
        net,
        config,
        peers,
        channels,
    })
}

// ---- behind the walk

fn within_sums(alloc: Global, scenario: Scenario) -> Result<Scenario, ScenarioFault>
    ensures { Gives result (spec.within_sums scenario) }
{
    let submissions = submissions(scenario.channels.as_slice())?;
    if submissions > MOST_SUBMISSIONS {
        return Err(too_many(alloc, b"/channels", submissions));
    }
    let octets = body_octets(&scenario)?;
    if octets > 16777216 {
        return Err(too_many(alloc, b"/", octets));
    }
    Ok(scenario)
}

/// The octets that the bodies of a run may have.
fn body_octets(scenario: &Scenario) -> Result<u64, NoMem>
    ensures { IfOk result (λ n. n ≡ spec.body_octets scenario.now) }
{
    let answers = times(
        submissions(scenario.channels.as_slice())?,
        largest_body(scenario.peers.as_slice()),
    )?;
    let requests = all_request_octets(scenario.channels.as_slice())?;
    plus(answers, requests)
}

/// The product. It fits: a body of 2^64 octets, parted among the submissions, is in no memory.
fn times(a: u64, b: u64) -> Result<u64, NoMem>
    ensures { IfOk result (λ n. n ≡ a * b) }
{
    match a.checked_mul(b) {
        Some(n) => Ok(n),
        None => Err(NoMem),
    }
}

/// How many submissions the scripts have.
fn submissions(channels: &[ScriptCalls]) -> Result<u64, NoMem>
    ensures { IfOk result (λ n. n ≡ sum_by (λ calls. count_by spec.is_submission calls) channels.now) }
{
    let mut n = 0;
    for calls in channels {
        n = plus(n, submissions_in(calls.as_slice()))?;
    }
    Ok(n)
}

fn submissions_in(calls: &[ScriptCall]) -> u64
    ensures { result ≡ count_by spec.is_submission calls.now }
{
    let mut n = 0;
    for call in calls {
        if is_submission(call) {
            n += 1;
        }
    }
    n
}

fn is_submission(call: &ScriptCall) -> bool
    ensures { result ≡ spec.is_submission call.now }
{
    match call {
        ScriptCall::Submit(_) => true,
        _ => false,
    }
}

/// The length of the largest scripted answer body, 0 where there is none.
fn largest_body(peers: &[Peer]) -> u64
    ensures { result ≡ spec.largest_body peers.now }
{
    peers
        .iter()
        .map(|p| largest(p.answers.as_slice()))
        .max()
        .unwrap_or(0)
}

fn largest(answers: &[Answer]) -> u64
    ensures { result ≡ spec.largest (λ a. spec.body_length a.body) answers.now }
{
    answers
        .iter()
        .map(|a| body_length(&a.body))
        .max()
        .unwrap_or(0)
}

fn body_length(body: &AnswerBody) -> u64
    ensures { result ≡ spec.body_length body.now }
{
    match body {
        AnswerBody::Text(octets) => octets.len() as u64,
        AnswerBody::Size(n) => u64::from(*n),
    }
}

/// The octets of all request bodies.
fn all_request_octets(channels: &[ScriptCalls]) -> Result<u64, NoMem>
    ensures { IfOk result (λ n. n ≡ sum_by (λ calls. sum_by spec.request_octets calls) channels.now) }
{
    let mut n = 0;
    for calls in channels {
        n = plus(n, request_octets_in(calls.as_slice())?)?;
    }
    Ok(n)
}

fn request_octets_in(calls: &[ScriptCall]) -> Result<u64, NoMem>
    ensures { IfOk result (λ n. n ≡ sum_by spec.request_octets calls.now) }
{
    let mut n = 0;
    for call in calls {
        n = plus(n, request_octets(call))?;
    }
    Ok(n)
}

fn request_octets(call: &ScriptCall) -> u64
    ensures { result ≡ spec.request_octets call.now }
{
    match call {
        ScriptCall::Submit(ask) => ask.request.body.len() as u64,
        _ => 0,
    }
}
