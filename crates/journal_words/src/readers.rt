// Words read back.
ghost use Rattle.std.specs.Prelude.{◌≡◌, ◌≤◌, ◌<◌, true, false, map, length, codes, IfOk, IfErr, IfSome, IsUtf8};
ghost use Rattle.partition_keys.specs.Sites.{site_of};
ghost use Rattle.journal_words.specs.Readers as spec;
ghost use Rattle.journal_words.specs.Readers.{Gives};

use crate::faults::WordFault;
use crate::texts::number_text;
use hex::{FromHex, FromHexError};
use model_values::Way;
use net_base::{
    Addresses, EndCause, Field, Fields, Listed, Moment, Names, Octets, Origin, Proto, Scheme,
    StreamList, StreamNo, Target, Via, number_in,
};
use partition_keys::{
    AltUpdate, Alternative, Alternatives, PartitionKey, Proof, SiteFault, Why, read_site,
};
use std::alloc::{AllocError, Global};

/// How a word is read.
trait ReadsWord<T> {
    ghost use Rattle.std.specs.Prelude.{ℕ, List};
    ghost use Rattle.journal_words.specs.Readers.{Reader};

    ghost reads: { Self → Reader T };

    fn read(&self, alloc: Global, word: &[u8]) -> Result<T, WordFault>
        ensures { Gives result (reads self.now word.now) };
}

// ---- parts

/// The parts of a text between the marks.
pub fn parts<'w>(alloc: Global, text: &'w [u8], mark: u8) -> Result<Vec<&'w [u8]>, AllocError>
    ensures { IfOk result (λ parts. map (λ p. p.now) parts.items ≡ spec.parts mark text.now) }
{
    text.split(|b| *b == mark).collect(alloc)
}

/// Each word, read like this.
#[tactic(auto, using(crate::proofs::ReaderLemmas::each_more, crate::proofs::ReaderLemmas::each_stop, crate::proofs::ReaderLemmas::each_done))]
fn each<T: Drop, R: ReadsWord<T>>(
    alloc: Global,
    words: &[&[u8]],
    reader: &R,
) -> Result<Listed<T>, WordFault>
    ensures { Gives result (spec.each (R.reads reader.now) (map (λ w. w.now) words.now)) }
{
    let mut all = Listed::new();
    for word in words {
        let item = reader.read(alloc, word)?;
        all.push(alloc, item)?;
    }
    Ok(all)
}

/// What commas part, read like this; `-` where there is nothing.
fn read_list<T: Drop, R: ReadsWord<T>>(
    alloc: Global,
    word: &[u8],
    reader: &R,
) -> Result<Listed<T>, WordFault>
    ensures { Gives result (spec.list (R.reads reader.now) word.now) }
{
    if word == b"-".as_slice() {
        return Ok(Listed::new());
    }
    let parts = parts(alloc, word, b',')?;
    each(alloc, parts.as_slice(), reader)
}

/// The place of the last mark.
fn last_place(text: &[u8], mark: u8) -> Option<usize>
    ensures place { result ≡ spec.last_place mark text.now }
    ensures within { IfSome result (λ i. i < length text.now) }
{
    let mut place = None;
    for (i, b) in text.iter().enumerate() {
        if *b == mark {
            place = Some(i);
        }
    }
    place
}

// ---- numbers and octets

/// The number, at most so large, whose decimal it is.
fn read_number(alloc: Global, word: &[u8], most: u64) -> Result<u64, WordFault>
    ensures gives { Gives result (spec.number most word.now) }
    ensures within { IfOk result (λ n. n ≤ most) }
{
    let Some(n) = number_in(word) else {
        return Err(WordFault::Unreadable);
    };
    let written = number_text(alloc, n)?;
    if n > most || written.as_slice() != word {
        return Err(WordFault::Unreadable);
    }
    Ok(n)
}

pub fn read_u64(alloc: Global, word: &[u8]) -> Result<u64, WordFault>
    ensures { Gives result (spec.number 18446744073709551615 word.now) }
{
    read_number(alloc, word, u64::MAX)
}

pub fn read_u32(alloc: Global, word: &[u8]) -> Result<u32, WordFault>
    ensures { Gives result (spec.number 4294967295 word.now) }
{
    Ok(read_number(alloc, word, u64::from(u32::MAX))? as u32)
}

pub fn read_u16(alloc: Global, word: &[u8]) -> Result<u16, WordFault>
    ensures { Gives result (spec.number 65535 word.now) }
{
    Ok(read_number(alloc, word, u64::from(u16::MAX))? as u16)
}

pub fn read_u8(alloc: Global, word: &[u8]) -> Result<u8, WordFault>
    ensures { Gives result (spec.number 255 word.now) }
{
    Ok(read_number(alloc, word, u64::from(u8::MAX))? as u8)
}

/// Octets in hexadecimal.
fn read_hex(alloc: Global, word: &[u8]) -> Result<Octets, WordFault>
    ensures { Gives result (spec.hex word.now) }
{
    match hex::decode(alloc, word) {
        Ok(bytes) => Ok(Octets::build(alloc, bytes.as_slice())?),
        Err(FromHexError::OutOfMemory) => Err(WordFault::NoMem),
        Err(_) => Err(WordFault::Unreadable),
    }
}

/// Octets in hexadecimal, `-` where there are none.
pub fn read_octets(alloc: Global, word: &[u8]) -> Result<Octets, WordFault>
    ensures { Gives result (spec.octets word.now) }
{
    if word == b"-".as_slice() {
        return Ok(Octets::new());
    }
    read_hex(alloc, word)
}

/// An address of 16 octets in hexadecimal.
pub fn read_address(word: &[u8]) -> Result<[u8; 16], WordFault>
    ensures gives { Gives result (spec.address word.now) }
    ensures no_memory { IfErr result (λ e. e ≡ WordFault.Unreadable) }
{
    match <[u8; 16] as FromHex>::from_hex(word) {
        Ok(address) => Ok(address),
        Err(_) => Err(WordFault::Unreadable),
    }
}

// ---- words for a choice

/// `+` for true and `-` for false.
pub fn read_credentials(word: &[u8]) -> Result<bool, WordFault>
    ensures gives { Gives result (spec.credentials word.now) }
    ensures no_memory { IfErr result (λ e. e ≡ WordFault.Unreadable) }
{
    read_either(word, "+", "-")
}

/// `secure` or `clear`.
pub fn read_security(word: &[u8]) -> Result<bool, WordFault>
    ensures gives { Gives result (spec.security word.now) }
    ensures no_memory { IfErr result (λ e. e ≡ WordFault.Unreadable) }
{
    read_either(word, "secure", "clear")
}

fn read_persist(word: &[u8]) -> Result<bool, WordFault>
    ensures { Gives result (spec.persist word.now) }
{
    read_either(word, "keep", "lose")
}

/// Whether it is the one word and not the other.
pub fn read_either(word: &[u8], yes: &str, no: &str) -> Result<bool, WordFault>
    ensures gives { Gives result (spec.either_word yes.now true no.now false word.now) }
    ensures no_memory { IfErr result (λ e. e ≡ WordFault.Unreadable) }
{
    if word == yes.as_bytes() {
        Ok(true)
    } else if word == no.as_bytes() {
        Ok(false)
    } else {
        Err(WordFault::Unreadable)
    }
}

/// `h1` or `h2`.
pub fn read_proto(word: &[u8]) -> Result<Proto, WordFault>
    ensures gives { Gives result (spec.proto word.now) }
    ensures no_memory { IfErr result (λ e. e ≡ WordFault.Unreadable) }
{
    if word == b"h1".as_slice() {
        Ok(Proto::H1)
    } else if word == b"h2".as_slice() {
        Ok(Proto::H2)
    } else {
        Err(WordFault::Unreadable)
    }
}

/// By which right an exchange uses a connection.
pub fn read_way(word: &[u8]) -> Result<Way, WordFault>
    ensures gives { Gives result (spec.way_of word.now) }
    ensures no_memory { IfErr result (λ e. e ≡ WordFault.Unreadable) }
{
    if word == b"direct".as_slice() {
        Ok(Way::Direct)
    } else if word == b"alternative".as_slice() {
        Ok(Way::Alternative)
    } else if word == b"coalesced".as_slice() {
        Ok(Way::Coalesced)
    } else {
        Err(WordFault::Unreadable)
    }
}

fn read_via(word: &[u8]) -> Result<Via, WordFault>
    ensures { Gives result (spec.via_of word.now) }
{
    if word == b"direct".as_slice() {
        Ok(Via::Direct)
    } else if word == b"h1".as_slice() {
        Ok(Via::Alternative(Proto::H1))
    } else if word == b"h2".as_slice() {
        Ok(Via::Alternative(Proto::H2))
    } else {
        Err(WordFault::Unreadable)
    }
}

fn read_condition(word: &[u8]) -> Result<Why, WordFault>
    ensures { Gives result (spec.condition word.now) }
{
    if word == b"status".as_slice() {
        Ok(Why::Status)
    } else if word == b"media".as_slice() {
        Ok(Why::Media)
    } else if word == b"json".as_slice() {
        Ok(Why::NotJson)
    } else if word == b"array".as_slice() {
        Ok(Why::NotArray)
    } else if word == b"absent".as_slice() {
        Ok(Why::Absent)
    } else if word == b"stale".as_slice() {
        Ok(Why::Stale)
    } else {
        Err(WordFault::Unreadable)
    }
}

/// A moment in milliseconds.
pub fn read_moment(alloc: Global, word: &[u8]) -> Result<Moment, WordFault>
    ensures { Gives result (spec.moment word.now) }
{
    Ok(Moment(read_u64(alloc, word)?))
}

/// A moment, `-` where there is none.
pub fn read_deadline(alloc: Global, word: &[u8]) -> Result<Option<Moment>, WordFault>
    ensures { Gives result (spec.deadline word.now) }
{
    if word == b"-".as_slice() {
        return Ok(None);
    }
    Ok(Some(read_moment(alloc, word)?))
}

/// The number of a stream.
pub fn read_stream(alloc: Global, word: &[u8]) -> Result<StreamNo, WordFault>
    ensures { Gives result (spec.stream word.now) }
{
    Ok(StreamNo(read_u32(alloc, word)?))
}

// ---- lists

#[derive(Drop)]
struct FieldWord;

impl ReadsWord<Field> for FieldWord {
    ghost reads = { λ _. spec.field };

    fn read(&self, alloc: Global, word: &[u8]) -> Result<Field, WordFault> {
        let parts = parts(alloc, word, b':')?;
        match parts.as_slice() {
            [name, digits] => Ok(Field {
                value: read_hex(alloc, digits)?,
                name: Octets::build(alloc, name)?,
            }),
            _ => Err(WordFault::Unreadable),
        }
    }
}

/// Fields, each as NAME:HEX, `-` where there are none.
pub fn read_fields(alloc: Global, word: &[u8]) -> Result<Fields, WordFault>
    ensures { Gives result (spec.list spec.field word.now) }
{
    read_list(alloc, word, &FieldWord)
}

#[derive(Drop)]
struct AddressWord;

impl ReadsWord<[u8; 16]> for AddressWord {
    ghost reads = { λ _. spec.address };

    fn read(&self, _alloc: Global, word: &[u8]) -> Result<[u8; 16], WordFault> {
        read_address(word)
    }
}

/// Addresses, each as 32 digits, `-` where there are none.
pub fn read_addresses(alloc: Global, word: &[u8]) -> Result<Addresses, WordFault>
    ensures { Gives result (spec.list spec.address word.now) }
{
    read_list(alloc, word, &AddressWord)
}

#[derive(Drop)]
struct StreamWord;

impl ReadsWord<StreamNo> for StreamWord {
    ghost reads = { λ _. spec.stream };

    fn read(&self, alloc: Global, word: &[u8]) -> Result<StreamNo, WordFault> {
        read_stream(alloc, word)
    }
}

/// Streams by their numbers, `-` where there are none.
pub fn read_streams(alloc: Global, word: &[u8]) -> Result<StreamList, WordFault>
    ensures { Gives result (spec.list spec.stream word.now) }
{
    read_list(alloc, word, &StreamWord)
}

#[derive(Drop)]
struct NameWord;

impl ReadsWord<Octets> for NameWord {
    ghost reads = { λ _. spec.name };

    fn read(&self, alloc: Global, word: &[u8]) -> Result<Octets, WordFault> {
        Ok(Octets::build(alloc, word)?)
    }
}

/// Names, `-` where there are none.
pub fn read_names(alloc: Global, word: &[u8]) -> Result<Names, WordFault>
    ensures { Gives result (spec.list spec.name word.now) }
{
    read_list(alloc, word, &NameWord)
}

// ---- sites, origins and targets

/// The text of a site, as a partition key without a second part.
pub fn read_key(alloc: Global, word: &[u8]) -> Result<PartitionKey, WordFault>
    ensures { Gives result (spec.key word.now) }
{
    match std::str::from_utf8(word) {
        Ok(_) => key_of_text(alloc, word),
        Err(_) => Err(WordFault::Unreadable),
    }
}

/// The same of a text in UTF-8.
fn key_of_text(alloc: Global, word: &[u8]) -> Result<PartitionKey, WordFault>
    requires { IsUtf8 word.now }
    ensures { Gives result (spec.key_in (site_of word.now)) }
{
    match read_site(alloc, word) {
        Ok(site) => Ok(PartitionKey { site, second: None }),
        Err(SiteFault::NoMem) => Err(WordFault::NoMem),
        Err(SiteFault::BadSite(_)) => Err(WordFault::Unreadable),
    }
}

/// HOST:PORT, parted at the last colon.
fn read_place(alloc: Global, word: &[u8]) -> Result<(Octets, u16), WordFault>
    ensures { Gives result (spec.place word.now) }
{
    let Some(i) = last_place(word, b':') else {
        return Err(WordFault::Unreadable);
    };
    let port = read_u16(alloc, &word[i + 1..])?;
    Ok((Octets::build(alloc, &word[..i])?, port))
}

fn read_origin_at(alloc: Global, scheme: Scheme, word: &[u8]) -> Result<Origin, WordFault>
    ensures { Gives result (spec.origin_at scheme word.now) }
{
    let (host, port) = read_place(alloc, word)?;
    Ok(Origin { scheme, host, port })
}

/// SCHEME://HOST:PORT.
pub fn read_origin_word(alloc: Global, word: &[u8]) -> Result<Origin, WordFault>
    ensures { Gives result (spec.origin word.now) }
{
    if word.starts_with(b"http://") {
        read_origin_at(alloc, Scheme::Http, &word[7..])
    } else if word.starts_with(b"https://") {
        read_origin_at(alloc, Scheme::Https, &word[8..])
    } else {
        Err(WordFault::Unreadable)
    }
}

/// HOST:PORT, `clear` or `secure`, and `direct`, `h1` or `h2`.
pub fn read_target(alloc: Global, words: &[&[u8]]) -> Result<Target, WordFault>
    ensures { Gives result (spec.target (map (λ w. w.now) words.now)) }
{
    let [place, secure, via] = words else {
        return Err(WordFault::Unreadable);
    };
    let (host, port) = read_place(alloc, place)?;
    Ok(Target {
        host,
        port,
        secure: read_security(secure)?,
        via: read_via(via)?,
    })
}

// ---- alternatives and proofs

#[derive(Drop)]
struct AlternativeWord;

impl ReadsWord<Alternative> for AlternativeWord {
    ghost reads = { λ _. spec.alternative };

    fn read(&self, alloc: Global, word: &[u8]) -> Result<Alternative, WordFault> {
        let parts = parts(alloc, word, b'/')?;
        read_alternative(alloc, parts.as_slice())
    }
}

fn read_alternative(alloc: Global, words: &[&[u8]]) -> Result<Alternative, WordFault>
    ensures { Gives result (spec.alternative_of (map (λ w. w.now) words.now)) }
{
    let [proto, host, port, expires, persist] = words else {
        return Err(WordFault::Unreadable);
    };
    Ok(Alternative {
        proto: read_proto(proto)?,
        port: read_u16(alloc, port)?,
        expires: read_moment(alloc, expires)?,
        persist: read_persist(persist)?,
        host: Octets::build(alloc, host)?,
        broken_until: Moment(0),
        proven_until: Moment(0),
    })
}

/// What is said of an origin's alternatives (RFC 7838, sections 3 and 4).
pub fn read_alt(alloc: Global, words: &[&[u8]]) -> Result<AltUpdate, WordFault>
    ensures { Gives result (spec.alt_of (map (λ w. w.now) words.now)) }
{
    match words {
        [word] => read_alt_word(word),
        [word, listed] => {
            if *word != b"set".as_slice() {
                return Err(WordFault::Unreadable);
            }
            Ok(AltUpdate::Set(read_list(alloc, listed, &AlternativeWord)?))
        }
        _ => Err(WordFault::Unreadable),
    }
}

fn read_alt_word(word: &[u8]) -> Result<AltUpdate, WordFault>
    ensures { Gives result (spec.either_word (codes "none") AltUpdate.None (codes "clear") AltUpdate.Clear word.now) }
{
    if word == b"none".as_slice() {
        Ok(AltUpdate::None)
    } else if word == b"clear".as_slice() {
        Ok(AltUpdate::Clear)
    } else {
        Err(WordFault::Unreadable)
    }
}

/// What the answer to a probe proves (RFC 8164, section 2.3).
pub fn read_proof(alloc: Global, words: &[&[u8]]) -> Result<Proof, WordFault>
    ensures { Gives result (spec.proof_of (map (λ w. w.now) words.now)) }
{
    match words {
        [word] => read_not_asked(word),
        [word, more] => read_asked(alloc, word, more),
        _ => Err(WordFault::Unreadable),
    }
}

fn read_not_asked(word: &[u8]) -> Result<Proof, WordFault>
    ensures { Gives result (spec.not_asked word.now) }
{
    if word == b"none".as_slice() {
        Ok(Proof::NotAsked)
    } else {
        Err(WordFault::Unreadable)
    }
}

fn read_asked(alloc: Global, word: &[u8], more: &[u8]) -> Result<Proof, WordFault>
    ensures { Gives result (spec.asked word.now more.now) }
{
    if word == b"until".as_slice() {
        Ok(Proof::Until(read_moment(alloc, more)?))
    } else if word == b"bad".as_slice() {
        Ok(Proof::NotValid(read_condition(more)?))
    } else {
        Err(WordFault::Unreadable)
    }
}

// ---- ends

/// Why a connection ended.
pub fn read_cause(alloc: Global, word: &[u8]) -> Result<EndCause, WordFault>
    ensures { Gives result (spec.cause word.now) }
{
    let parts = parts(alloc, word, b':')?;
    match parts.as_slice() {
        [word] => read_cause_word(word),
        [word, code, place] => read_broken(alloc, word, code, place),
        _ => Err(WordFault::Unreadable),
    }
}

fn read_cause_word(word: &[u8]) -> Result<EndCause, WordFault>
    ensures { Gives result (spec.cause_word word.now) }
{
    if word == b"dial".as_slice() {
        Ok(EndCause::DialFailed)
    } else if word == b"end".as_slice() {
        Ok(EndCause::End)
    } else if word == b"fault".as_slice() {
        Ok(EndCause::LinkFault)
    } else if word == b"done".as_slice() {
        Ok(EndCause::Done)
    } else {
        Err(WordFault::Unreadable)
    }
}

fn read_broken(alloc: Global, word: &[u8], code: &[u8], place: &[u8]) -> Result<EndCause, WordFault>
    ensures { Gives result (spec.broken word.now code.now place.now) }
{
    if word != b"broken".as_slice() {
        return Err(WordFault::Unreadable);
    }
    Ok(EndCause::Broken {
        code: read_u32(alloc, code)?,
        place: read_u64(alloc, place)?,
    })
}
