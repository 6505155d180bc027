//! The program `poolrun`: a thin edge over `pool_run`. It reads its input from standard input and writes to standard
//! output; its scripted peers are run in memory. The status says how it ended, and for words that are no command it
//! prints the usage on standard error.
#![tactic(auto)]

ghost use Rattle.std.specs.Prelude.{◌≡◌, length, All, IfOk};
ghost use Rattle.poolrun.specs.Dialers.{IsUnusedInner};

mod std_sink;
mod std_source;

use pool_run::{Finish, InnerDialer, desk_main};
use std::alloc::{AllocError, Global};
use std::env::Env;
use std::process::ExitCode;
use std::{env, io};
use std_sink::StdoutSink;
use std_source::StdinSource;

/// The most dialers that the top call takes.
const DIALERS: usize = 32;

/// The status for words that are no command.
const USAGE: u8 = 2;

/// The status for want of memory.
const NO_MEMORY: u8 = 6;

fn main(rt: HostRuntime) -> ExitCode {
    let alloc = rt.alloc();
    let words = match command_words(&rt, alloc) {
        Ok(words) => words,
        Err(e) => return ExitCode::from(status_without_words(&rt, e.kind())),
    };
    let Ok(dialers) = inner_dialers(alloc) else {
        return ExitCode::from(NO_MEMORY);
    };
    let mut source = StdinSource::new(rt.reader());
    let mut sink = StdoutSink::new(io::writer(&rt));
    let Finish { status, dialers: _ } = desk_main(
        alloc,
        words.as_slice(),
        &mut source,
        &mut sink,
        dialers,
    );
    if status == USAGE {
        print_usage(&rt);
    }
    ExitCode::from(status)
}

/// The words behind the program's name.
fn command_words(rt: &(impl Env + AllocGlobal), alloc: Global) -> io::Result<Vec<String>> {
    let mut words = Vec::new(alloc);
    for word in env::args(rt)?.skip(1) {
        words.push(word)?;
    }
    Ok(words)
}

/// A word that isn't UTF-8 is none of a command.
fn status_without_words(rt: &impl Eprint, kind: io::ErrorKind) -> u8 {
    if kind == io::ErrorKind::OutOfMemory {
        return NO_MEMORY;
    }
    print_usage(rt);
    USAGE
}

fn print_usage(rt: &impl Eprint) {
    let _ = eprintln!(rt; "usage: poolrun serial | check | replay");
}

/// As many dialers as the top call takes.
fn inner_dialers(alloc: Global) -> Result<Vec<InnerDialer>, AllocError>
    ensures some { IfOk result (λ dialers. length dialers.items ≡ DIALERS) }
    ensures unused { IfOk result (λ dialers. All IsUnusedInner dialers.items) }
{
    let mut dialers = Vec::new(alloc);
    while dialers.len() < DIALERS {
        dialers.push(unused_dialer())?;
    }
    Ok(dialers)
}

fn unused_dialer() -> InnerDialer
    ensures { IsUnusedInner result }
{
    InnerDialer::new()
}
