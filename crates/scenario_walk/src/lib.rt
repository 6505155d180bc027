//! The walk through a value of JSON (RFC 8259) that gives a scenario: how the members of an object, the items of a list
//! and the values in them are read, each at its path (RFC 6901).
//!
//! A `Reads` gives what stands at a place, or the first fault there: `only` and `an_object` look at an object itself,
//! `required` and `optional` read its members, `ListOf` and `AnyListOf` its lists item by item. What a value must be is
//! said by the standard that it comes from: hosts by the URL Standard, sites by the HTML Standard, names by RFC 9525,
//! fields by RFC 9110.
#![tactic(auto)]

mod fault;
mod values;
mod walk;

pub use fault::ScenarioFault;
pub use values::{
    Address, Flag, GoodField, Host, MomentOrNone, Name, NetWord, PlainField, ProtoWord, Site, Text,
    TextWithin, Whole, text_of,
};
pub use walk::{
    AnyListOf, At, Given, ListOf, Reads, an_object, bad, below, below_item, is_among, items, only,
    optional, required, too_many,
};

#[cfg(test)]
mod tests;
