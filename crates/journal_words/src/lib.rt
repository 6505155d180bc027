//! How the journal writes values: octets in lower-case hexadecimal, numbers in decimal, lists with commas, `-` for what is
//! empty; how words stand in a line, each behind one space; and how words are read back.
//!
//! Each writer writes just the text that its definition says, and each reader gives just what its definition says of a word,
//! which may be more than is written. The format is this project's own; what the values are is said by the Fetch Standard,
//! RFC 7838 and RFC 8164.
#![tactic(auto)]

mod faults;
mod line;
mod readers;
mod texts;
mod word_laws;

pub use faults::WordFault;
pub use line::{put, put_alt, put_number, put_proof, put_target};
pub use readers::{
    parts, read_address, read_addresses, read_alt, read_cause, read_credentials, read_deadline,
    read_either, read_fields, read_key, read_moment, read_names, read_octets, read_origin_word,
    read_proof, read_proto, read_security, read_stream, read_streams, read_target, read_u8,
    read_u16, read_u32, read_u64, read_way,
};
pub use texts::{
    addresses_text, cause_text, credentials_text, deadline_text, fields_text, hex_text, list_text,
    number_text, octets_text, origin_text, proto_text, security_text, streams_text, way_text,
};
pub use word_laws::{choices_are_read_back, numbers_are_read_back, parts_are_read_back};
