// The kind `pool`: a journal's calls, made again on a new pool.

use crate::answer::{Answer, Bad};
use crate::calls::{Halt, call_again};
use dispatch_core::{Pool, are_within_ranges};
use journal_text::{JournalFault, read_journal, write_journal};
use model_values::{Config, Entry, History};
use net_base::{NoMem, Octets, PlainValue};
use plain_values::first_line;
use scenario_text::{ScenarioFault, read_scenario};
use serde_json::{Map, Value};
use std::alloc::{AllocError, Global};

/// Why a line of this kind gets no journal.
#[derive(Clone, Copy, Debug, PartialEq, Eq)]
enum Fault {
    NoMem,
    Bad(Bad),
}

impl From<NoMem> for Fault {
    fn from(_: NoMem) -> Fault {
        Fault::NoMem
    }
}

/// The answer to a line of the kind `pool`.
pub(crate) fn answer_to_pool(
    alloc: Global,
    members: &Map<String, Value>,
) -> Result<Answer, AllocError> {
    let Some(scenario) = members.get("scenario").and_then(Value::as_str) else {
        return Ok(Answer::Bad(Bad::NoMember));
    };
    let Some(journal) = members.get("journal").and_then(Value::as_str) else {
        return Ok(Answer::Bad(Bad::NoMember));
    };
    match made_again(alloc, scenario.as_bytes(), journal.as_bytes()) {
        Ok(text) => Ok(Answer::Out(String::from_utf8_lossy(alloc, text.as_slice())?)),
        Err(Fault::NoMem) => Err(AllocError),
        Err(Fault::Bad(bad)) => Ok(Answer::Bad(bad)),
    }
}

/// The journal that a new pool leaves when the calls of this one are made again, and behind it what stands behind this one.
fn made_again(alloc: Global, scenario: &[u8], journal: &[u8]) -> Result<Octets, Fault> {
    let config = limits_of(alloc, scenario)?;
    let read = history_of(alloc, journal)?;
    let made = history_again(alloc, config, read.as_slice())?;
    let mut text = write_journal(alloc, &made)?;
    text.extend(alloc, behind_end(journal, read.as_slice()))?;
    Ok(text)
}

/// The limits of a scenario.
fn limits_of(alloc: Global, text: &[u8]) -> Result<Config, Fault> {
    match read_scenario(alloc, text) {
        Ok(scenario) => Ok(scenario.config),
        Err(ScenarioFault::NoMem) => Err(Fault::NoMem),
        Err(_) => Err(Fault::Bad(Bad::BadScenario)),
    }
}

/// The entries of a journal.
fn history_of(alloc: Global, text: &[u8]) -> Result<History, Fault> {
    match read_journal(alloc, text) {
        Ok(history) => Ok(history),
        Err(JournalFault::NoMem) => Err(Fault::NoMem),
        Err(JournalFault::BadLine(_) | JournalFault::Truncated) => Err(Fault::Bad(Bad::BadJournal)),
    }
}

/// The history of a new pool with these limits, once the calls of these entries were made again.
fn history_again(alloc: Global, config: Config, entries: &[Entry]) -> Result<History, Fault> {
    if !are_within_ranges(&config) {
        return Err(Fault::Bad(Bad::BadScenario));
    }
    let mut pool = Pool::new(alloc, config)?;
    match call_again(alloc, &mut pool, entries) {
        Ok(()) => Ok(copy_of(alloc, pool.history())?),
        Err(Halt::NoMem) => Err(Fault::NoMem),
        Err(Halt::BadCall(place)) => Err(Fault::Bad(Bad::Call(place))),
    }
}

fn copy_of(alloc: Global, entries: &[Entry]) -> Result<History, NoMem> {
    let mut all = History::new();
    for e in entries {
        all.push(alloc, e.copy(alloc)?)?;
    }
    Ok(all)
}

/// What stands behind the `end` line of the journal of these entries: they have a line each, behind that of the format.
fn behind_end<'t>(journal: &'t [u8], entries: &[Entry]) -> &'t [u8] {
    let mut rest = behind_line(journal);
    for _ in entries {
        rest = behind_line(rest);
    }
    behind_line(rest)
}

fn behind_line<'t>(text: &'t [u8]) -> &'t [u8] {
    match first_line(text) {
        Some(cut) => cut.behind,
        None => &[],
    }
}
