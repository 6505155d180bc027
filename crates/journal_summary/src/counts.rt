// What is counted in a history and in the state that it leaves.
ghost use Rattle.std.specs.Prelude.{◌≡◌, IfOk};
ghost use Rattle.journal_summary.specs.Summary as spec;

use model_authority::has_ended;
use model_values::{Act, Entry, Exchange, Outcome, PreconnectReply, Status, SubmitReply};
use net_base::NoMem;
use plain_values::plus;

/// Whether the act is a submission that was accepted.
fn is_accepted(act: &Act) -> bool
    ensures { result ≡ spec.is_accepted act.now }
{
    match act {
        Act::Submit {
            ask: _,
            reply: SubmitReply::Accepted(_),
        } => true,
        _ => false,
    }
}

/// How many submissions were accepted.
pub(crate) fn submitted_count(entries: &[Entry]) -> u64
    ensures { result ≡ spec.submitted_count entries.now }
{
    let mut n = 0u64;
    for e in entries {
        if is_accepted(&e.act) {
            n += 1;
        }
    }
    n
}

/// How many connections the act makes.
fn made_by(act: &Act) -> u64
    ensures { result ≡ spec.made_by act.now }
{
    match act {
        Act::Want { .. } => 1,
        Act::Preconnect {
            reply: PreconnectReply::Opening(k),
            ..
        } => u64::from(*k),
        _ => 0,
    }
}

/// How many connections were made.
pub(crate) fn connection_count(entries: &[Entry]) -> Result<u64, NoMem>
    ensures { IfOk result (λ n. n ≡ spec.connection_count entries.now) }
{
    let mut n = 0u64;
    for e in entries {
        n = plus(n, made_by(&e.act))?;
    }
    Ok(n)
}

fn is_answered(status: &Status) -> bool
    ensures { result ≡ spec.is_answered status.now }
{
    match status {
        Status::Ended(Outcome::Answered(_)) => true,
        _ => false,
    }
}

fn is_cancelled(status: &Status) -> bool
    ensures { result ≡ spec.is_cancelled status.now }
{
    match status {
        Status::Ended(Outcome::Cancelled) => true,
        _ => false,
    }
}

/// Whether it ended without an answer, and not because its caller cancelled it.
fn is_failed(status: &Status) -> bool
    ensures { result ≡ spec.is_failed status.now }
{
    has_ended(status) && !is_answered(status) && !is_cancelled(status)
}

/// How many exchanges were answered.
pub(crate) fn answered_count(exchanges: &[Exchange]) -> u64
    ensures { result ≡ spec.answered_count exchanges.now }
{
    let mut n = 0u64;
    for x in exchanges {
        if is_answered(&x.status) {
            n += 1;
        }
    }
    n
}

/// How many exchanges failed.
pub(crate) fn failed_count(exchanges: &[Exchange]) -> u64
    ensures { result ≡ spec.failed_count exchanges.now }
{
    let mut n = 0u64;
    for x in exchanges {
        if is_failed(&x.status) {
            n += 1;
        }
    }
    n
}

/// How many exchanges were cancelled.
pub(crate) fn cancelled_count(exchanges: &[Exchange]) -> u64
    ensures { result ≡ spec.cancelled_count exchanges.now }
{
    let mut n = 0u64;
    for x in exchanges {
        if is_cancelled(&x.status) {
            n += 1;
        }
    }
    n
}

/// How often exchanges gave up a lease and waited again.
pub(crate) fn move_count(exchanges: &[Exchange]) -> Result<u64, NoMem>
    ensures { IfOk result (λ n. n ≡ spec.move_count exchanges.now) }
{
    let mut n = 0u64;
    for x in exchanges {
        n = plus(n, u64::from(x.moves))?;
    }
    Ok(n)
}
