//! One line of a journal, format 1: an entry's moment, its caller, and the act with the pool's reply.
//!
//! `write_entry` writes just the text that the definition gives of an entry. `read_words` reads the words of a line: the
//! numbers of what it gives are of their types, and the line of each entry that can be written is read as that entry. The
//! format is this project's own.
#![tactic(auto)]

mod acts;
mod entry;
mod parts;
mod read_calls;
mod read_entry;
mod read_replies;
mod read_reports;
mod read_works;
mod replies;
mod reports;

pub use entry::write_entry;
pub use read_entry::read_words;
