// Words put at the end of a line, each behind one space.
ghost use Rattle.std.specs.Prelude.{◌≡◌, [], ◌∷◌, ◌++◌, OnOk};
ghost use Rattle.std.specs.Fmt.{decimal};
ghost use Rattle.journal_words.specs.Words as spec;
ghost use Rattle.journal_words.specs.Words.{spaced_words};

use crate::texts::{
    alternatives_text, condition_text, host_and_port, number_text, security_text, via_text,
};
use net_base::{NoMem, Octets, Target};
use partition_keys::{AltUpdate, Proof};
use std::alloc::Global;

/// Puts one word.
pub fn put(alloc: Global, line: &mut Octets, word: &[u8]) -> Result<(), NoMem>
    ensures { OnOk result (line.new ≡ line.old ++ spaced_words (word.now ∷ [])) }
{
    line.push(alloc, b' ')?;
    line.extend(alloc, word)
}

/// Puts a number in decimal.
pub fn put_number(alloc: Global, line: &mut Octets, n: u64) -> Result<(), NoMem>
    ensures { OnOk result (line.new ≡ line.old ++ spaced_words (decimal n ∷ [])) }
{
    let digits = number_text(alloc, n)?;
    put(alloc, line, digits.as_slice())
}

/// Puts HOST:PORT, `clear` or `secure`, and `direct`, `h1` or `h2`.
pub fn put_target(alloc: Global, line: &mut Octets, t: &Target) -> Result<(), NoMem>
    ensures { OnOk result (line.new ≡ line.old ++ spaced_words (spec.target_words t.now)) }
{
    let place = host_and_port(alloc, &t.host, t.port)?;
    put(alloc, line, place.as_slice())?;
    put(alloc, line, security_text(t.secure).as_bytes())?;
    put(alloc, line, via_text(t.via).as_bytes())
}

/// Puts what is said of an origin's alternatives (RFC 7838, sections 3 and 4).
pub fn put_alt(alloc: Global, line: &mut Octets, alt: &AltUpdate) -> Result<(), NoMem>
    ensures { OnOk result (line.new ≡ line.old ++ spaced_words (spec.alt_words alt.now)) }
{
    match alt {
        AltUpdate::None => put(alloc, line, b"none"),
        AltUpdate::Clear => put(alloc, line, b"clear"),
        AltUpdate::Set(list) => {
            put(alloc, line, b"set")?;
            let list = alternatives_text(alloc, list)?;
            put(alloc, line, list.as_slice())
        }
    }
}

/// Puts what the answer to a probe proves (RFC 8164, section 2.3).
pub fn put_proof(alloc: Global, line: &mut Octets, proof: Proof) -> Result<(), NoMem>
    ensures { OnOk result (line.new ≡ line.old ++ spaced_words (spec.proof_words proof)) }
{
    match proof {
        Proof::NotAsked => put(alloc, line, b"none"),
        Proof::Until(moment) => {
            put(alloc, line, b"until")?;
            put_number(alloc, line, moment.0)
        }
        Proof::NotValid(why) => {
            put(alloc, line, b"bad")?;
            put(alloc, line, condition_text(why).as_bytes())
        }
    }
}
