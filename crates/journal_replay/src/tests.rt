// Histories that were made by hand, line by line as a journal has them, and what may not stand in the place of an entry.

use journal_text::read_journal;
use model_values::{Config, History};
use net_base::{NoMem, Octets, PlainValue};
use pool_model::first_bad;
use std::alloc::Global;
use std::test::Fail;

mod alternatives;
mod ends;
mod one_get;
mod sharing;
mod streams;

/// The limits where nothing else is said.
const LIMITS: Config = Config {
    per_group: 6,
    total: 32,
    streams: 100,
    background: 2,
    last_stream: 2147483647,
    submissions: 5000,
};

/// Courses of entries that begin alike. A line is that of the next entry. Behind `! ` it is one that may not come next, and
/// at `=` the entries so far are a history.
struct Courses {
    config: Config,
    front: &'static str,
    behind: &'static [&'static str],
}

/// Adds the entry of a line.
fn add(alloc: Global, h: &mut History, line: &str) -> Result<(), NoMem> {
    let mut text = Octets::build(alloc, b"poolrun 1\n")?;
    text.extend(alloc, line.as_bytes())?;
    text.extend(alloc, b"\nend 1\n")?;
    let Ok(one) = read_journal(alloc, text.as_slice()) else {
        return Err(NoMem);
    };
    for e in one.as_slice() {
        h.push(alloc, e.copy(alloc)?)?;
    }
    Ok(())
}

/// Whether the entry of a line may not come next.
fn is_bad(alloc: Global, config: &Config, h: &History, line: &str) -> Result<bool, NoMem> {
    let mut tried = h.copy(alloc)?;
    add(alloc, &mut tried, line)?;
    Ok(first_bad(alloc, config, &tried)? == Some(tried.len() as u64))
}

/// Whether a line says what is so behind these entries. An entry is added.
fn holds(alloc: Global, config: &Config, h: &mut History, line: &str) -> Result<bool, NoMem> {
    if line == "=" {
        return Ok(first_bad(alloc, config, h)?.is_none());
    }
    match line.strip_prefix("! ") {
        Some(other) => is_bad(alloc, config, h, other),
        None => {
            add(alloc, h, line)?;
            Ok(true)
        }
    }
}

/// The first line of a part that doesn't hold.
fn wrong_in(
    alloc: Global,
    config: &Config,
    h: &mut History,
    part: &'static str,
) -> Result<Option<&'static str>, NoMem> {
    for line in part.lines() {
        if !holds(alloc, config, h, line)? {
            return Ok(Some(line));
        }
    }
    Ok(None)
}

/// The first line of courses that begin alike that doesn't hold.
fn wrong_of(alloc: Global, courses: &Courses) -> Result<Option<&'static str>, NoMem> {
    for behind in courses.behind {
        let mut h = History::new();
        for part in [courses.front, *behind] {
            let wrong = wrong_in(alloc, &courses.config, &mut h, part)?;
            if wrong.is_some() {
                return Ok(wrong);
            }
        }
    }
    Ok(None)
}

/// The first line of the courses that doesn't hold.
fn first_wrong(alloc: Global, all: &[Courses]) -> Result<Option<&'static str>, NoMem> {
    for courses in all {
        let wrong = wrong_of(alloc, courses)?;
        if wrong.is_some() {
            return Ok(wrong);
        }
    }
    Ok(None)
}

#[test]
fn one_get_goes_over_one_connection(rt: HostRuntime) -> Result<(), Fail> {
    assert_eq!(rt; first_wrong(rt.alloc(), &one_get::COURSES)?, None);
    Ok(())
}

#[test]
fn connections_are_shared_by_right(rt: HostRuntime) -> Result<(), Fail> {
    assert_eq!(rt; first_wrong(rt.alloc(), &sharing::COURSES)?, None);
    Ok(())
}

#[test]
fn streams_are_given_and_given_again(rt: HostRuntime) -> Result<(), Fail> {
    assert_eq!(rt; first_wrong(rt.alloc(), &streams::COURSES)?, None);
    Ok(())
}

#[test]
fn alternatives_break_and_come_back(rt: HostRuntime) -> Result<(), Fail> {
    assert_eq!(rt; first_wrong(rt.alloc(), &alternatives::COURSES)?, None);
    Ok(())
}

#[test]
fn exchanges_end_and_connections_make_room(rt: HostRuntime) -> Result<(), Fail> {
    assert_eq!(rt; first_wrong(rt.alloc(), &ends::COURSES)?, None);
    Ok(())
}
