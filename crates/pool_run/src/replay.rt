// What `replay` says of a pair, and the lines for what is none.
ghost use Rattle.std.specs.Prelude.{◌≡◌, ◌≢◌, IfOk};
ghost use Rattle.edge_traits.specs.Dialers.{DialerView};
ghost use Rattle.journal_replay.specs.declared.verdict.ReplayFault.TheVariants as faults;
ghost use Rattle.pool_run.specs.declared.ending.Command.TheVariants as commands;
ghost use Rattle.pool_run.specs.declared.report.Report.TheVariants as report;
ghost use Rattle.pool_run.specs.Desk.{ReportsOn};
ghost use Rattle.pool_run.specs.Replay as spec;

use crate::check::refusal_line;
use crate::report::Report;
use journal_replay::{ReplayFault, Verdict, replay};
use net_base::{NoMem, Octets};
use std::alloc::Global;

/// What `replay` says of an input.
pub(crate) fn replay_pair(alloc: Global, bytes: &[u8]) -> Result<Report, NoMem>
    ensures { (v : DialerView) → ReportsOn commands.Replay bytes.now v result v }
{
    match replay(alloc, bytes) {
        Ok(verdict) => judged(alloc, verdict),
        Err(fault) => refused_pair(alloc, &fault),
    }
}

fn judged(alloc: Global, verdict: Verdict) -> Result<Report, NoMem>
    ensures { IfOk result (λ told. told ≡ spec.verdict_report verdict) }
{
    match verdict {
        Verdict::Legal(n) => Ok(Report::Judged(legal_line(alloc, n)?)),
        Verdict::Illegal(line) => Ok(Report::Illegal(illegal_line(alloc, line)?)),
    }
}

fn legal_line(alloc: Global, n: u64) -> Result<Octets, NoMem>
    ensures { IfOk result (λ text. text ≡ spec.legal_line n) }
{
    let line = format!(in alloc; "legal {n}\n")?;
    Octets::build(alloc, line.as_bytes())
}

fn illegal_line(alloc: Global, line: u64) -> Result<Octets, NoMem>
    ensures { IfOk result (λ text. text ≡ spec.illegal_line line) }
{
    let text = format!(in alloc; "illegal line {line}\n")?;
    Octets::build(alloc, text.as_bytes())
}

fn refused_pair(alloc: Global, fault: &ReplayFault) -> Result<Report, NoMem>
    ensures named { IfOk result (λ told. fault.now ≢ faults.NoMem) }
    ensures line { IfOk result (λ told. told ≡ report.Refused (spec.pair_refusal_line fault.now)) }
{
    Ok(Report::Refused(pair_refusal_line(alloc, fault)?))
}

/// The one line that says why a pair is refused. Want of memory has none.
fn pair_refusal_line(alloc: Global, fault: &ReplayFault) -> Result<Octets, NoMem>
    ensures named { IfOk result (λ text. fault.now ≢ faults.NoMem) }
    ensures line { IfOk result (λ text. text ≡ spec.pair_refusal_line fault.now) }
{
    match fault {
        ReplayFault::NoMem => Err(NoMem),
        ReplayFault::NoJournal => Octets::build(alloc, b"refused no-journal\n"),
        ReplayFault::Scenario(why) => refusal_line(alloc, why),
        ReplayFault::Line(n) => {
            let line = format!(in alloc; "refused line {n}\n")?;
            Octets::build(alloc, line.as_bytes())
        }
        ReplayFault::Truncated => Octets::build(alloc, b"refused truncated\n"),
    }
}
