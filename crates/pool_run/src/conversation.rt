// A conversation over one link, by rounds.
ghost use Rattle.std.specs.Prelude.{◌≡◌, ◌+◌, ◌<◌, ◌≤◌, length};
ghost use Rattle.pool_run.specs.Conversation.{Talks};
ghost use Rattle.pool_run.specs.Rounds.{Hears, CountsQuiet, CountsRounds, Writes, TakesIn, Turns, Judges, Settles};

use crate::first_answer::{Standing, standing_of};
use edge_traits::{Link, LinkRead, LinkWrite};
use net_base::{NoMem, Octets, Response};
use std::alloc::Global;

/// What came of a conversation.
#[derive(Debug, Drop)]
pub(crate) enum Talk {
    /// The answer was whole in this round, and nothing came in the three rounds behind it.
    Answered { round: u64, response: Response },
    /// A read or a write failed.
    Fault,
    /// A read answered the end.
    End,
    /// Octets came that are no answer.
    Octets,
    /// Nothing moved for 10000 rounds.
    Quiet,
}

/// No conversation reaches this round.
const ROUNDS_END: u64 = 18446744073709551611;
/// So many idle rounds in a row end a conversation.
const MOST_IDLE: u32 = 10000;
/// The most writes of one round.
const MOST_WRITES: usize = 64;
/// A round reads only where no more octets of output wait.
const MOST_WAITING: usize = 2097152;
/// The rounds behind an answer, in which nothing may come.
const ROUNDS_BEHIND: u8 = 3;

/// What a read heard.
#[derive(Drop)]
enum Heard {
    Quiet,
    Got(Octets),
    End,
    Fault,
}

/// What the writes of a round came to.
#[derive(Drop)]
enum Wrote {
    /// So many octets were taken.
    Took(usize),
    Fault,
}

/// What a round came to.
#[derive(Drop)]
enum Turn {
    Going,
    Fault,
    End,
}

/// What comes after a round.
#[derive(Drop)]
enum Next {
    Go,
    Answered(Response),
    Octets,
    Quiet,
}

/// How far a conversation is.
#[derive(Drop)]
struct Progress {
    /// Octets of the text that are out.
    sent: usize,
    received: Octets,
    /// Idle rounds in a row.
    idle: u32,
}

/// Says the request's text and hears the answer.
pub(crate) fn converse<L: Link>(alloc: Global, link: &mut L, text: &[u8]) -> Result<Talk, NoMem>
    ensures { Talks (L.seen link.old) text.now result (L.seen link.new) }
{
    match listen(alloc, link)? {
        Heard::Quiet => {}
        Heard::Got(_) => return Ok(Talk::Octets),
        Heard::End => return Ok(Talk::End),
        Heard::Fault => return Ok(Talk::Fault),
    }
    say(alloc, link, text)
}

/// The rounds from the second on.
fn say<L: Link>(alloc: Global, link: &mut L, text: &[u8]) -> Result<Talk, NoMem>
    ensures { Talks (L.seen link.old) text.now result (L.seen link.new) }
{
    let mut progress = Progress {
        sent: 0,
        received: Octets::new(),
        idle: 0,
    };
    for round in 2..ROUNDS_END {
        match take_turn(alloc, link, text, &mut progress)? {
            Turn::Going => match judge(alloc, text, &progress)? {
                Next::Go => {}
                Next::Answered(response) => return settle(alloc, link, round, response),
                Next::Octets => return Ok(Talk::Octets),
                Next::Quiet => return Ok(Talk::Quiet),
            },
            Turn::Fault => return Ok(Talk::Fault),
            Turn::End => return Ok(Talk::End),
        }
    }
    Err(NoMem)
}

/// One round: writes, then one read.
fn take_turn<L: Link>(
    alloc: Global,
    link: &mut L,
    text: &[u8],
    progress: &mut Progress,
) -> Result<Turn, NoMem>
    requires sent { progress.old.sent ≤ length text.now }
    requires idle { progress.old.idle < 10000 }
    ensures { Turns (L.seen link.old) text.now progress.old result (L.seen link.new) progress.new }
{
    match write_some(alloc, link, &text[progress.sent..])? {
        Wrote::Took(taken) => {
            progress.sent += taken;
            let waiting = text.len() - progress.sent;
            take_in(alloc, link, waiting, taken, progress)
        }
        Wrote::Fault => Ok(Turn::Fault),
    }
}

/// Writes until nothing is left, a write is quiet, or a round's writes are made.
fn write_some<L: Link>(alloc: Global, link: &mut L, output: &[u8]) -> Result<Wrote, NoMem>
    ensures { Writes (L.seen link.old) output.now result (L.seen link.new) }
{
    let mut sent = 0;
    for _ in 0..MOST_WRITES {
        if sent == output.len() {
            return Ok(Wrote::Took(sent));
        }
        match link.write(alloc, &output[sent..]) {
            LinkWrite::Took(0) => return Ok(Wrote::Fault),
            LinkWrite::Took(n) => sent += n,
            LinkWrite::Quiet => return Ok(Wrote::Took(sent)),
            LinkWrite::Failed => return Ok(Wrote::Fault),
            LinkWrite::NoMem => return Err(NoMem),
        }
    }
    Ok(Wrote::Took(sent))
}

/// The reading half of a round.
fn take_in<L: Link>(
    alloc: Global,
    link: &mut L,
    waiting: usize,
    taken: usize,
    progress: &mut Progress,
) -> Result<Turn, NoMem>
    requires { progress.old.idle < 10000 }
    ensures { TakesIn (L.seen link.old) waiting taken progress.old result (L.seen link.new) progress.new }
{
    match hear(alloc, link, waiting)? {
        Heard::Got(octets) => {
            progress.received.extend(alloc, octets.as_slice())?;
            progress.idle = 0;
            Ok(Turn::Going)
        }
        Heard::Quiet => {
            progress.idle = idle_after(progress.idle, taken);
            Ok(Turn::Going)
        }
        Heard::End => Ok(Turn::End),
        Heard::Fault => Ok(Turn::Fault),
    }
}

/// The idle rounds in a row, after a round in which nothing came.
fn idle_after(idle: u32, taken: usize) -> u32
    requires { idle < 10000 }
    ensures moved { 0 < taken → result ≡ 0 }
    ensures still { taken ≡ 0 → result ≡ idle + 1 }
{
    if taken > 0 { 0 } else { idle + 1 }
}

/// One read, where not too much output waits.
fn hear<L: Link>(alloc: Global, link: &mut L, waiting: usize) -> Result<Heard, NoMem>
    ensures heard { Hears (L.seen link.old) result (L.seen link.new) }
    ensures counted { waiting ≡ 0 → CountsQuiet (L.seen link.old) result (L.seen link.new) }
{
    if waiting > MOST_WAITING {
        return Ok(Heard::Quiet);
    }
    listen(alloc, link)
}

/// One read.
fn listen<L: Link>(alloc: Global, link: &mut L) -> Result<Heard, NoMem>
    ensures heard { Hears (L.seen link.old) result (L.seen link.new) }
    ensures counted { CountsQuiet (L.seen link.old) result (L.seen link.new) }
{
    let mut buffer = [0u8; 16384];
    match link.read(alloc, &mut buffer) {
        LinkRead::Got(0) => Ok(Heard::End),
        LinkRead::Got(n) => {
            let octets = Octets::build(alloc, &buffer[..n])?;
            Ok(Heard::Got(octets))
        }
        LinkRead::Quiet => Ok(Heard::Quiet),
        LinkRead::End => Ok(Heard::End),
        LinkRead::Failed => Ok(Heard::Fault),
        LinkRead::NoMem => Err(NoMem),
    }
}

/// Judges a round's progress.
fn judge(alloc: Global, text: &[u8], progress: &Progress) -> Result<Next, NoMem>
    ensures { Judges text.now progress.now result }
{
    match standing_of(alloc, progress.received.as_slice())? {
        Standing::Other => Ok(Next::Octets),
        Standing::Whole(response) => {
            if progress.sent == text.len() {
                Ok(Next::Answered(response))
            } else if progress.idle < MOST_IDLE {
                Ok(Next::Go)
            } else {
                Ok(Next::Quiet)
            }
        }
        Standing::More => {
            if progress.idle < MOST_IDLE {
                Ok(Next::Go)
            } else {
                Ok(Next::Quiet)
            }
        }
    }
}

/// Sees that nothing comes behind a whole answer.
fn settle<L: Link>(
    alloc: Global,
    link: &mut L,
    round: u64,
    response: Response,
) -> Result<Talk, NoMem>
    ensures { Settles (L.seen link.old) round response result (L.seen link.new) }
{
    match listen_on(alloc, link)? {
        Heard::Quiet => Ok(Talk::Answered { round, response }),
        Heard::Got(_) => Ok(Talk::Octets),
        Heard::End => Ok(Talk::End),
        Heard::Fault => Ok(Talk::Fault),
    }
}

/// One read in each of the rounds behind an answer, until one hears something.
fn listen_on<L: Link>(alloc: Global, link: &mut L) -> Result<Heard, NoMem>
    ensures heard { Hears (L.seen link.old) result (L.seen link.new) }
    ensures counted { CountsRounds (L.seen link.old) result (L.seen link.new) }
{
    for _ in 0..ROUNDS_BEHIND {
        match listen(alloc, link)? {
            Heard::Quiet => {}
            heard => return Ok(heard),
        }
    }
    Ok(Heard::Quiet)
}
