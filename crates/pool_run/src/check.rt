// What `check` says of a scenario, and the lines for what is none.
ghost use Rattle.std.specs.Prelude.{◌≡◌, ◌≢◌, ◌++◌, IfOk, length, sum_by};
ghost use Rattle.scenario_walk.specs.declared.fault.ScenarioFault.TheVariants as faults;
ghost use Rattle.pool_run.specs.Check as spec;

use model_values::ScriptCalls;
use net_base::{NoMem, Octets};
use plain_values::plus;
use scenario_text::{Scenario, ScenarioFault};
use std::alloc::Global;

/// The line of `check`: how many channels, calls and peers the scenario has.
pub(crate) fn check_line(alloc: Global, scenario: &Scenario) -> Result<Octets, NoMem>
    ensures { IfOk result (λ text. text ≡ spec.check_line scenario.now) }
{
    let channels = scenario.channels.len();
    let calls = count_calls(scenario.channels.as_slice())?;
    let peers = scenario.peers.len();
    let line = format!(in alloc; "channels {channels} calls {calls} peers {peers}\n")?;
    Octets::build(alloc, line.as_bytes())
}

/// How many calls the scripts have.
fn count_calls(channels: &[ScriptCalls]) -> Result<u64, NoMem>
    ensures { IfOk result (λ n. n ≡ sum_by length channels.now) }
{
    let mut n = 0;
    for calls in channels {
        n = plus(n, calls.len() as u64)?;
    }
    Ok(n)
}

/// The one line that says why an input is refused. Want of memory has none.
pub(crate) fn refusal_line(alloc: Global, fault: &ScenarioFault) -> Result<Octets, NoMem>
    ensures named { IfOk result (λ text. fault.now ≢ faults.NoMem) }
    ensures line { IfOk result (λ text. text ≡ spec.refusal_line fault.now) }
{
    match fault {
        ScenarioFault::NoMem => Err(NoMem),
        ScenarioFault::NotJson => Octets::build(alloc, b"refused not-json\n"),
        ScenarioFault::Unsupported(path) => {
            line_with(alloc, b"refused unsupported ", path.as_slice(), b"\n")
        }
        ScenarioFault::BadValue(path) => {
            line_with(alloc, b"refused bad-value ", path.as_slice(), b"\n")
        }
        ScenarioFault::TooMany(path, n) => {
            let number = format!(in alloc; " {n}\n")?;
            line_with(
                alloc,
                b"refused too-many ",
                path.as_slice(),
                number.as_bytes(),
            )
        }
    }
}

/// A line with a path in it, whose octets are written as they are.
fn line_with(alloc: Global, before: &[u8], path: &[u8], behind: &[u8]) -> Result<Octets, NoMem>
    ensures { IfOk result (λ text. text ≡ before.now ++ path.now ++ behind.now) }
{
    let mut line = Octets::build(alloc, before)?;
    line.extend(alloc, path)?;
    line.extend(alloc, behind)?;
    Ok(line)
}
