// Pairs, judged.
ghost use Rattle.std.specs.Prelude.{IfOk, IfErr};
ghost use Rattle.journal_text.specs.Journals.{IsJournal};
ghost use Rattle.scenario_text.specs.Scenarios.{IsScenario};
ghost use Rattle.journal_replay.specs.Pairs.{IsVerdict, RefusesPair, RefusesFront, RefusesBehind, IsVerdictOn};

use crate::pairs::parts_of;
use crate::verdict::{ReplayFault, Verdict};
use journal_text::{JournalFault, read_journal};
use model_values::{Config, History};
use net_base::NoMem;
use pool_model::first_bad;
use scenario_text::{Scenario, ScenarioFault, read_scenario};
use std::alloc::Global;

/// Judges a pair, which is a scenario, a line that is exactly `--`, and a journal: whether the journal is that of a history
/// of a pool with the scenario's limits.
///
/// `NoJournal` where no line is exactly `--`; behind it the first fault of the scenario, then that of the journal.
pub fn replay(alloc: Global, bytes: &[u8]) -> Result<Verdict, ReplayFault>
    ensures judged { IfOk result (IsVerdict bytes.now) }
    ensures refused { IfErr result (RefusesPair bytes.now) }
{
    let Some(pair) = parts_of(bytes) else {
        return Err(ReplayFault::NoJournal);
    };
    let scenario = scenario_before(alloc, pair.scenario)?;
    let history = history_behind(alloc, pair.journal)?;
    Ok(judged(alloc, &scenario.config, &history)?)
}

fn scenario_before(alloc: Global, text: &[u8]) -> Result<Scenario, ReplayFault>
    ensures ok { IfOk result (IsScenario text.now) }
    ensures refused { IfErr result (RefusesFront text.now) }
{
    match read_scenario(alloc, text) {
        Ok(scenario) => Ok(scenario),
        Err(ScenarioFault::NoMem) => Err(ReplayFault::NoMem),
        Err(fault) => Err(ReplayFault::Scenario(fault)),
    }
}

fn history_behind(alloc: Global, text: &[u8]) -> Result<History, ReplayFault>
    ensures ok { IfOk result (IsJournal text.now) }
    ensures refused { IfErr result (RefusesBehind text.now) }
{
    match read_journal(alloc, text) {
        Ok(history) => Ok(history),
        Err(JournalFault::NoMem) => Err(ReplayFault::NoMem),
        Err(JournalFault::BadLine(n)) => Err(ReplayFault::Line(n)),
        Err(JournalFault::Truncated) => Err(ReplayFault::Truncated),
    }
}

/// What the entries are judged to be. A line that an `u64` doesn't count is in no memory.
fn judged(alloc: Global, config: &Config, history: &History) -> Result<Verdict, NoMem>
    ensures { IfOk result (IsVerdictOn config.now history.now) }
{
    let Some(place) = first_bad(alloc, config, history)? else {
        return Ok(Verdict::Legal(history.len() as u64));
    };
    match place.checked_add(1) {
        Some(line) => Ok(Verdict::Illegal(line)),
        None => Err(NoMem),
    }
}
