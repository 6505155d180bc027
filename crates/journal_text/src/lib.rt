//! The journal of a list of entries, format 1: one line for each entry, between the line of the format and `end` with the
//! number of entries.
//!
//! `write_journal` writes just the text that the definition gives of entries, each line as `write_entry` does
//! (`journal_lines`). `read_journal` gives back the entries whose journal it reads, and refuses any other text with the
//! number of its first bad line, or as cut off. Whether the entries are a history of a pool is not asked. The format is
//! this project's own.
#![tactic(auto)]

mod faults;
mod journal;
mod reader;
mod writable;

pub use faults::JournalFault;
pub use journal::write_journal;
pub use journal_lines::write_entry;
pub use reader::read_journal;

#[cfg(test)]
mod tests;
