// The text of a summary.
ghost use Rattle.std.specs.Prelude.{◌≡◌, ◌++◌, IfOk, OnOk};
ghost use Rattle.journal_summary.specs.Summary as spec;

use crate::counts::{
    answered_count, cancelled_count, connection_count, failed_count, move_count, submitted_count,
};
use journal_words::number_text;
use model_values::{Config, Exchange, History};
use net_base::{NoMem, Octets};
use pool_model::state_of;
use std::alloc::Global;

/// Writes the summary of the entries of a pool with these limits. `NoMem` too where a count passes 2^64 - 1, or where the
/// entries or the connections are more than their numbers.
#[tactic(auto, unfolding(crate::specs::Summary::summary_text))]
pub fn write_summary(alloc: Global, config: &Config, history: &History) -> Result<Octets, NoMem>
    ensures { IfOk result (λ text. text ≡ spec.summary_text config.now history.now) }
{
    let entries = history.as_slice();
    let state = state_of(alloc, config, entries)?;
    let connections = connection_count(entries)?;
    let mut text = Octets::new();
    put_count(alloc, &mut text, "submitted", submitted_count(entries))?;
    put_exchanges(alloc, &mut text, state.exchanges.as_slice())?;
    put_count(alloc, &mut text, "connections", connections)?;
    put_count(alloc, &mut text, "entries", history.len() as u64)?;
    Ok(text)
}

/// Puts what became of the exchanges.
fn put_exchanges(alloc: Global, text: &mut Octets, exchanges: &[Exchange]) -> Result<(), NoMem>
    ensures { OnOk result (text.new ≡ text.old ++ spec.exchange_lines exchanges.now) }
{
    let moves = move_count(exchanges)?;
    put_count(alloc, text, "answered", answered_count(exchanges))?;
    put_count(alloc, text, "failed", failed_count(exchanges))?;
    put_count(alloc, text, "cancelled", cancelled_count(exchanges))?;
    put_count(alloc, text, "moves", moves)
}

/// Puts the line of a count.
fn put_count(alloc: Global, text: &mut Octets, name: &str, n: u64) -> Result<(), NoMem>
    ensures { OnOk result (text.new ≡ text.old ++ spec.count_line name.now n) }
{
    let digits = number_text(alloc, n)?;
    text.extend(alloc, name.as_bytes())?;
    text.push(alloc, b' ')?;
    text.extend(alloc, digits.as_slice())?;
    text.push(alloc, b'\n')
}
