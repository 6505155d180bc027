// What a line is answered with.

use crate::pool::answer_to_pool;
use serde_json::{Value, json};
use std::alloc::{AllocError, Global};

/// The answer to a line.
#[derive(Debug, Drop)]
pub enum Answer {
    Out(String),
    Bad(Bad),
}

/// What is wrong with a line.
#[derive(Clone, Copy, Debug, PartialEq, Eq)]
pub enum Bad {
    NotJson,
    NotAnObject,
    /// There is no member `kind`, or it is no text.
    NoKind,
    UnknownKind,
    /// A member that the kind wants isn't there, or is no text.
    NoMember,
    /// The scenario can't be read, or its limits are out of their ranges.
    BadScenario,
    BadJournal,
    /// The entry with this number, counted from 1, is of a call whose condition doesn't hold.
    Call(u64),
}

impl Answer {
    /// The answer as compact JSON, with its members in rising order.
    pub fn text(self, alloc: Global) -> Result<String, AllocError> {
        let value = match self {
            Answer::Out(text) => json!(in alloc; {"out": text})?,
            Answer::Bad(bad) => json!(in alloc; {"bad": bad.words(alloc)?})?,
        };
        value.to_string(alloc)
    }
}

impl Bad {
    fn words(self, alloc: Global) -> Result<String, AllocError> {
        match self {
            Bad::NotJson => String::from_str(alloc, "not-json"),
            Bad::NotAnObject => String::from_str(alloc, "not-an-object"),
            Bad::NoKind => String::from_str(alloc, "no-kind"),
            Bad::UnknownKind => String::from_str(alloc, "unknown-kind"),
            Bad::NoMember => String::from_str(alloc, "no-member"),
            Bad::BadScenario => String::from_str(alloc, "bad-scenario"),
            Bad::BadJournal => String::from_str(alloc, "bad-journal"),
            Bad::Call(place) => format!(in alloc; "call {place}"),
        }
    }
}

/// The answer to a line without its end.
pub fn answer_to(alloc: Global, line: &[u8]) -> Result<Answer, AllocError> {
    match Value::from_slice(alloc, line) {
        Ok(value) => answer_to_value(alloc, &value),
        Err(e) if e.is_memory() => Err(AllocError),
        Err(_) => Ok(Answer::Bad(Bad::NotJson)),
    }
}

/// The answer to the value of a line. Each kind has an arm here and a file of its own.
fn answer_to_value(alloc: Global, value: &Value) -> Result<Answer, AllocError> {
    let Some(members) = value.as_object() else {
        return Ok(Answer::Bad(Bad::NotAnObject));
    };
    match members.get("kind").and_then(Value::as_str) {
        None => Ok(Answer::Bad(Bad::NoKind)),
        Some("pool") => answer_to_pool(alloc, members),
        Some(_) => Ok(Answer::Bad(Bad::UnknownKind)),
    }
}
