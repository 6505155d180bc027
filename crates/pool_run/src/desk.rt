// The top call.
ghost use Rattle.std.specs.Prelude.{◌≡◌, ◌≢◌, ◌<◌, ◌≤◌, ◌↔◌, length, map, codes, All, MatchOption};
ghost use Rattle.edge_traits.specs.Dialers.{IsUnused};
ghost use Rattle.pool_run.specs.Desk.{IsCommand, command_word, AnswersExchange, ChecksScenario, JudgesPair, FindsIllegal, RefusesInput, FailsReading, FailsWriting, LacksMemory, LeavesUnbuilt, DeskDid, IsRunStatus, IsStatus};
ghost use Rattle.pool_run.specs.declared.ending.Command.{Command};
ghost use Rattle.pool_run.specs.declared.ending.Command.TheVariants as commands;

use crate::ending::{Command, run_command};
use edge_traits::{Dialer, Sink, Source};
use std::alloc::Global;

/// The status that a call of the program ends with, and its dialers.
#[derive(Drop)]
pub struct Finish<D> {
    pub status: u8,
    pub dialers: Vec<D>,
}

/// Runs a command on one thread: `serial` reads a scenario of the small form, runs its one exchange by turns over the
/// first dialer, and writes the journal and the summary; `check` reads any scenario and writes how much it has; `replay`
/// reads a scenario and a journal, and writes whether it is that of a history.
pub fn desk_main<S: Source, K: Sink, D: Dialer>(
    alloc: Global,
    words: &[String],
    source: &mut S,
    sink: &mut K,
    mut dialers: Vec<D>,
) -> Finish<D>
    requires some { 0 < length dialers.items }
    requires few { length dialers.items ≤ 32 }
    requires unused { All (λ d. IsUnused (D.seen d)) dialers.items }

    // The words aren't those of a command: nothing is read, written, staged and dialed.
    ensures usage { (result.status ≡ 2) ↔ ((command : Command) → ¬ (IsCommand words.now command)) }
    ensures untouched { result.status ≡ 2 → (S.seen source.new ≡ S.seen source.old) × (K.seen sink.new ≡ K.seen sink.old)
        × (map D.seen result.dialers.items ≡ map D.seen dialers.items) }

    // 0: the exchange of `serial` was answered and told, the scenario of `check` was told, or the pair of `replay` is legal.
    ensures answered { IsCommand words.now commands.Serial → result.status ≡ 0 → AnswersExchange (S.seen source.old)
        (K.seen sink.old) (map D.seen dialers.items) (K.seen sink.new) (map D.seen result.dialers.items) }
    ensures checked { IsCommand words.now commands.Check → result.status ≡ 0 → ChecksScenario (S.seen source.old)
        (K.seen sink.old) (map D.seen dialers.items) (K.seen sink.new) (map D.seen result.dialers.items) }
    ensures judged { IsCommand words.now commands.Replay → result.status ≡ 0 → JudgesPair (S.seen source.old)
        (K.seen sink.old) (map D.seen dialers.items) (K.seen sink.new) (map D.seen result.dialers.items) }
    ensures illegal { result.status ≡ 1 → IsCommand words.now commands.Replay × FindsIllegal (S.seen source.old)
        (K.seen sink.old) (map D.seen dialers.items) (K.seen sink.new) (map D.seen result.dialers.items) }
    ensures refused { result.status ≡ 3 → (command : Command) × IsCommand words.now command × RefusesInput command
        (S.seen source.old) (K.seen sink.old) (map D.seen dialers.items) (K.seen sink.new) (map D.seen result.dialers.items) }
    ensures source_failed { result.status ≡ 4 → FailsReading (S.seen source.old) (S.seen source.new) (K.seen sink.old)
        (map D.seen dialers.items) (K.seen sink.new) (map D.seen result.dialers.items) }
    ensures sink_failed { result.status ≡ 5 → (command : Command) × IsCommand words.now command × FailsWriting command
        (S.seen source.old) (K.seen sink.old) (map D.seen dialers.items) (K.seen sink.new) (map D.seen result.dialers.items) }
    ensures memory { result.status ≡ 6 → (command : Command) × IsCommand words.now command × LacksMemory command
        (S.seen source.old) (K.seen sink.old) (map D.seen dialers.items) (K.seen sink.new) (map D.seen result.dialers.items) }
    ensures unbuilt { result.status ≡ 8 → IsCommand words.now commands.Serial × LeavesUnbuilt (S.seen source.old)
        (K.seen sink.old) (map D.seen dialers.items) (K.seen sink.new) (map D.seen result.dialers.items) }
    ensures statuses { IsStatus result.status }
{
    let Some(command) = command_of(words) else {
        return Finish { status: 2, dialers };
    };
    let status = run_first(alloc, command, source, sink, &mut dialers);
    Finish { status, dialers }
}

/// The command that the words are.
fn command_of(words: &[String]) -> Option<Command>
    ensures { MatchOption result ((command : Command) → ¬ (IsCommand words.now command)) (IsCommand words.now) }
{
    match words {
        [word] => command_named(word.as_bytes()),
        _ => None,
    }
}

fn command_named(word: &[u8]) -> Option<Command>
    ensures { MatchOption result ((word.now ≢ codes "serial") × (word.now ≢ codes "check") × (word.now ≢ codes "replay")) (λ command. word.now ≡ command_word command) }
{
    if word == b"serial".as_slice() {
        Some(Command::Serial)
    } else if word == b"check".as_slice() {
        Some(Command::Check)
    } else if word == b"replay".as_slice() {
        Some(Command::Replay)
    } else {
        None
    }
}

/// Runs a command over the first dialer.
fn run_first<S: Source, K: Sink, D: Dialer>(
    alloc: Global,
    command: Command,
    source: &mut S,
    sink: &mut K,
    dialers: &mut Vec<D>,
) -> u8
    requires some { 0 < length dialers.old.items }
    requires unused { All (λ d. IsUnused (D.seen d)) dialers.old.items }
    ensures did { DeskDid command result (S.seen source.old) (S.seen source.new) (K.seen sink.old) (K.seen sink.new)
        (map D.seen dialers.old.items) (map D.seen dialers.new.items) }
    ensures status { IsRunStatus result }
{
    run_command(alloc, command, source, sink, &mut dialers[0]).status()
}
