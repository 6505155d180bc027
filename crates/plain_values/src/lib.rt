//! Octets and lists that take no memory before their first item, values that can be copied whole and compared part by
//! part, and the one word for want of memory. Contracts see octets and lists as lists. `first_line` cuts octets behind
//! their first line, and `plus` adds.
//!
//! A list keeps what it has where there is no memory for more. What an octet means is said by whoever uses it (RFC 9110,
//! section 5.5, for the values of fields).
#![tactic(auto)]

mod line;
mod list;
mod memory;
mod octets;
mod sum;
mod value;

pub use line::{Cut, first_line};
pub use list::Listed;
pub use memory::NoMem;
pub use octets::{Octets, lower_case};
pub use sum::plus;
pub use value::PlainValue;

#[cfg(test)]
mod tests;
