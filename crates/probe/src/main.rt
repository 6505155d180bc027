//! The program `probe`: it is to show parts of the pool that no scenario shows alone. It reads lines of standard input to its
//! end. Each is one JSON object, whose text member `kind` says what is asked for, and is answered by one line of compact JSON;
//! a bad line is answered by what is wrong with it, and the next one is read. The status says how it ended. The kind `pool` makes
//! the calls of a journal again on a new pool. That each function is safe and returns is all that is promised here.
#![tactic(auto)]

mod answer;
mod calls;
mod channel_calls;
mod lines;
mod pool;
mod tickets;
mod worker_calls;

use lines::answer_lines;
use std::io;
use std::io::BufReader;
use std::process::ExitCode;

/// The status for want of memory.
const NO_MEMORY: u8 = 6;

/// The status for a read that failed.
const READ_FAILED: u8 = 4;

/// The status for a write that failed.
const WRITE_FAILED: u8 = 5;

/// Why lines stopped being answered before the input's end.
#[derive(Clone, Copy, Debug, PartialEq, Eq)]
pub enum Stop {
    NoMemory,
    ReadFailed,
    WriteFailed,
}

fn main(rt: HostRuntime) -> ExitCode {
    let alloc = rt.alloc();
    let Ok(mut input) = BufReader::new(alloc, rt.reader()) else {
        return ExitCode::from(NO_MEMORY);
    };
    match answer_lines(alloc, &mut input, &mut io::writer(&rt)) {
        Ok(()) => ExitCode::SUCCESS,
        Err(stop) => ExitCode::from(status_of(stop)),
    }
}

fn status_of(stop: Stop) -> u8 {
    match stop {
        Stop::NoMemory => NO_MEMORY,
        Stop::ReadFailed => READ_FAILED,
        Stop::WriteFailed => WRITE_FAILED,
    }
}

#[cfg(test)]
mod tests;
