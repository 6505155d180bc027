// How a run ends.
ghost use Rattle.std.specs.Prelude.{◌≡◌, ◌≢◌, ◌+◌, IsNone, IfOk, codes};
ghost use Rattle.edge_traits.specs.Dialers.{DialerView};
ghost use Rattle.scenario_walk.specs.declared.fault.ScenarioFault.TheVariants as faults;
ghost use Rattle.scenario_text.specs.declared.scenario.Scenario.{Scenario};
ghost use Rattle.scenario_text.specs.Scenarios.{IsScenario};
ghost use Rattle.pool_run.specs.declared.ending.Command.TheVariants as commands;
ghost use Rattle.pool_run.specs.declared.report.Report.TheVariants as report;
ghost use Rattle.pool_run.specs.declared.streams.TheConstants.{MOST_INPUT};
ghost use Rattle.pool_run.specs.Check as spec;
ghost use Rattle.pool_run.specs.Desk.{HasReport, ReportsOn, TellsReport, Ends, report_status, status_of};

use crate::check::{check_line, refusal_line};
use crate::replay::replay_pair;
use crate::report::Report;
use crate::serial::run_form;
use crate::streams::{Input, MOST_INPUT, Output, read_input, write_text};
use edge_traits::{Dialer, Sink, Source};
use net_base::{NoMem, Octets};
use scenario_text::{Scenario, ScenarioFault, read_scenario};
use small_form::{FormFault, read_form};
use std::alloc::Global;

/// How a run ends.
#[derive(Debug, Drop)]
pub(crate) enum Ending {
    /// Its report was written whole.
    Told(Report),
    /// A read of the source failed.
    SourceFailed,
    /// A write of its report failed.
    SinkFailed(Report),
    /// There was no memory, before the report was made or while it was written.
    LacksMemory(Option<Report>),
}

impl Ending {
    /// The status of the program.
    pub(crate) fn status(&self) -> u8
        ensures { result ≡ status_of self.now }
    {
        match self {
            Ending::Told(report) => status_of_report(report),
            Ending::SourceFailed => 4,
            Ending::SinkFailed(_) => 5,
            Ending::LacksMemory(_) => 6,
        }
    }
}

fn status_of_report(report: &Report) -> u8
    ensures { result ≡ report_status report.now }
{
    match report {
        Report::Answered(_) => 0,
        Report::Checked(_) => 0,
        Report::Judged(_) => 0,
        Report::Illegal(_) => 1,
        Report::Refused(_) => 3,
        Report::Unbuilt(_) => 8,
    }
}

/// A command that reads an input.
#[derive(Clone, Copy, Debug, PartialEq, Eq)]
pub enum Command {
    /// Runs a scenario by turns on one thread.
    Serial,
    /// Says how much a scenario has.
    Check,
    /// Judges the journal that stands behind a scenario.
    Replay,
}

/// Reads the input, does what the command says, over a dialer where it runs anything, and writes what comes of it.
pub(crate) fn run_command<S: Source, K: Sink, D: Dialer>(
    alloc: Global,
    command: Command,
    source: &mut S,
    sink: &mut K,
    dialer: &mut D,
) -> Ending
    requires { IsNone (D.seen dialer.old).staged }
    ensures { Ends command (S.seen source.old) (K.seen sink.old) (D.seen dialer.old) result (S.seen source.new) (K.seen sink.new) (D.seen dialer.new) }
{
    match report_on(alloc, command, source, dialer) {
        Ok(Some(report)) => tell(alloc, sink, report),
        Ok(None) => Ending::SourceFailed,
        Err(NoMem) => Ending::LacksMemory(None),
    }
}

/// What a command has to say, or nothing where a read failed.
fn report_on<S: Source, D: Dialer>(
    alloc: Global,
    command: Command,
    source: &mut S,
    dialer: &mut D,
) -> Result<Option<Report>, NoMem>
    requires { IsNone (D.seen dialer.old).staged }
    ensures { HasReport command (S.seen source.old) (D.seen dialer.old) result (S.seen source.new) (D.seen dialer.new) }
{
    match read_input(alloc, source)? {
        Input::All(bytes) => match report_of(alloc, command, dialer, bytes.as_slice()) {
            Ok(report) => Ok(Some(report)),
            Err(NoMem) => Err(NoMem),
        },
        Input::TooMany => Ok(Some(too_many_octets(alloc)?)),
        Input::Failed => Ok(None),
    }
}

/// What a command says of an input.
fn report_of<D: Dialer>(
    alloc: Global,
    command: Command,
    dialer: &mut D,
    bytes: &[u8],
) -> Result<Report, NoMem>
    requires { IsNone (D.seen dialer.old).staged }
    ensures { ReportsOn command bytes.now (D.seen dialer.old) result (D.seen dialer.new) }
{
    match command {
        Command::Serial => run_scenario(alloc, dialer, bytes),
        Command::Check => check_scenario(alloc, bytes),
        Command::Replay => replay_pair(alloc, bytes),
    }
}

/// What `serial` says of an input.
fn run_scenario<D: Dialer>(alloc: Global, dialer: &mut D, bytes: &[u8]) -> Result<Report, NoMem>
    requires { IsNone (D.seen dialer.old).staged }
    ensures { ReportsOn commands.Serial bytes.now (D.seen dialer.old) result (D.seen dialer.new) }
{
    match read_scenario(alloc, bytes) {
        Ok(_) => run_small(alloc, dialer, bytes),
        Err(fault) => refused(alloc, &fault),
    }
}

/// What `check` says of an input.
fn check_scenario(alloc: Global, bytes: &[u8]) -> Result<Report, NoMem>
    ensures { (v : DialerView) → ReportsOn commands.Check bytes.now v result v }
{
    match read_scenario(alloc, bytes) {
        Ok(scenario) => checked(alloc, &scenario),
        Err(fault) => refused(alloc, &fault),
    }
}

fn checked(alloc: Global, scenario: &Scenario) -> Result<Report, NoMem>
    ensures { IfOk result (λ told. told ≡ report.Checked (spec.check_line scenario.now)) }
{
    Ok(Report::Checked(check_line(alloc, scenario)?))
}

/// Runs a scenario of the small form, and refuses any other.
fn run_small<D: Dialer>(alloc: Global, dialer: &mut D, bytes: &[u8]) -> Result<Report, NoMem>
    requires { IsNone (D.seen dialer.old).staged }
    ensures { (s : Scenario) → IsScenario bytes.now s → ReportsOn commands.Serial bytes.now (D.seen dialer.old) result (D.seen dialer.new) }
{
    match read_form(alloc, bytes) {
        Ok(form) => run_form(alloc, dialer, &form),
        Err(FormFault::NotJson) => refused(alloc, &ScenarioFault::NotJson),
        Err(FormFault::Unsupported) => {
            let path = Octets::build(alloc, b"/")?;
            refused(alloc, &ScenarioFault::Unsupported(path))
        }
        Err(FormFault::NoMem) => Err(NoMem),
    }
}

fn refused(alloc: Global, fault: &ScenarioFault) -> Result<Report, NoMem>
    ensures named { IfOk result (λ told. fault.now ≢ faults.NoMem) }
    ensures line { IfOk result (λ told. told ≡ report.Refused (spec.refusal_line fault.now)) }
{
    Ok(Report::Refused(refusal_line(alloc, fault)?))
}

/// The refusal of an input of more than `MOST_INPUT` octets.
fn too_many_octets(alloc: Global) -> Result<Report, NoMem>
    ensures { IfOk result (λ told. told ≡ report.Refused (spec.refusal_line (faults.TooMany (codes "/") (MOST_INPUT + 1)))) }
{
    let path = Octets::build(alloc, b"/")?;
    refused(alloc, &ScenarioFault::TooMany(path, MOST_INPUT as u64 + 1))
}

/// Writes a report.
fn tell<K: Sink>(alloc: Global, sink: &mut K, report: Report) -> Ending
    ensures { TellsReport (K.seen sink.old) report result (K.seen sink.new) }
{
    match write_text(alloc, sink, report.text()) {
        Output::Whole => Ending::Told(report),
        Output::Failed => Ending::SinkFailed(report),
        Output::NoMem => Ending::LacksMemory(Some(report)),
    }
}
