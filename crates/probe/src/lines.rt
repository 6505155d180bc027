// Lines are read and answered, one after the other.

use crate::Stop;
use crate::answer::answer_to;
use std::alloc::Global;
use std::io;
use std::io::{BufRead, Write};

/// Answers each line of the input, to its end. A last line needs no line end.
pub fn answer_lines<R: BufRead, W: Write>(
    alloc: Global,
    input: &mut R,
    output: &mut W,
) -> Result<(), Stop> {
    let mut line = Vec::new(alloc);
    for _ in 0..u64::MAX {
        line.clear();
        match input.read_until(b'\n', &mut line) {
            Ok(0) => return Ok(()),
            Ok(_) => answer_line(alloc, without_end(line.as_slice()), output)?,
            Err(e) => return Err(read_stop(e.kind())),
        }
    }
    Err(Stop::ReadFailed)
}

fn read_stop(kind: io::ErrorKind) -> Stop {
    match kind {
        io::ErrorKind::OutOfMemory => Stop::NoMemory,
        _ => Stop::ReadFailed,
    }
}

/// The line without its line feed.
fn without_end(line: &[u8]) -> &[u8] {
    match line {
        [front @ .., b'\n'] => front,
        whole => whole,
    }
}

/// Writes the answer to one line at once, so that who waits for it has it before the next line is read.
fn answer_line<W: Write>(alloc: Global, line: &[u8], output: &mut W) -> Result<(), Stop> {
    let Ok(answer) = answer_to(alloc, line) else {
        return Err(Stop::NoMemory);
    };
    let Ok(mut text) = answer.text(alloc) else {
        return Err(Stop::NoMemory);
    };
    if text.push('\n').is_err() {
        return Err(Stop::NoMemory);
    }
    match output.write_all(text.as_bytes()) {
        Ok(()) => Ok(()),
        Err(_) => Err(Stop::WriteFailed),
    }
}
