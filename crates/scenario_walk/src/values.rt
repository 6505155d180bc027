// The values that members have.
ghost use Rattle.std.specs.Prelude.{◌≡◌, ◌≤◌, IfOk};
ghost use Rattle.std.specs.List.{list_all};
ghost use Rattle.serde_json.specs.View.{view};
ghost use Rattle.scenario_walk.specs.Faults.{Gives, GivesText, below};
ghost use Rattle.scenario_walk.specs.Values as spec;

use crate::fault::ScenarioFault;
use crate::walk::{At, Reads, any_items, bad, below};
use edge_traits::NetKind;
use hex::FromHex;
use net_base::{Field, Moment, Octets, Proto, is_field, is_name, is_plain_host};
use partition_keys::{PartitionKey, SiteFault, read_site};
use serde_json::Value;
use std::alloc::Global;

/// `true` or `false`.
#[derive(Drop)]
pub struct Flag;

impl Reads<bool> for Flag {
    ghost reads = { λ _. spec.flag };

    fn read(&self, alloc: Global, at: &At) -> Result<bool, ScenarioFault> {
        match at.value.as_bool() {
            Some(b) => Ok(b),
            None => Err(bad(alloc, at.path.as_slice())),
        }
    }
}

/// The text that the value is.
pub fn text_of<'v>(alloc: Global, at: &At<'v>) -> Result<&'v str, ScenarioFault>
    ensures { GivesText result (spec.text at.now.path (view at.now.value.now)) }
{
    match at.value.as_str() {
        Some(text) => Ok(text),
        None => Err(bad(alloc, at.path.as_slice())),
    }
}

/// A text.
#[derive(Drop)]
pub struct Text;

impl Reads<Octets> for Text {
    ghost reads = { λ _. spec.text };

    fn read(&self, alloc: Global, at: &At) -> Result<Octets, ScenarioFault> {
        let text = text_of(alloc, at)?;
        Ok(Octets::build(alloc, text.as_bytes())?)
    }
}

/// A text of at most so many octets.
#[derive(Drop)]
pub struct TextWithin {
    pub most: usize,
}

impl Reads<Octets> for TextWithin {
    ghost reads = { λ it. spec.text_within it.most };

    fn read(&self, alloc: Global, at: &At) -> Result<Octets, ScenarioFault> {
        let text = text_of(alloc, at)?;
        if text.len() > self.most {
            return Err(bad(alloc, at.path.as_slice()));
        }
        Ok(Octets::build(alloc, text.as_bytes())?)
    }
}

/// A whole number from the one to the other.
#[derive(Drop)]
pub struct Whole<N> {
    pub least: N,
    pub most: N,
}

fn number_of(alloc: Global, at: &At, least: u64, most: u64) -> Result<u64, ScenarioFault>
    ensures gives { Gives result (spec.whole least most at.now.path (view at.now.value.now)) }
    ensures within { IfOk result (λ n. (least ≤ n) × (n ≤ most)) }
{
    match at.value.as_u64() {
        Some(n) if n >= least && n <= most => Ok(n),
        _ => Err(bad(alloc, at.path.as_slice())),
    }
}

impl Reads<u8> for Whole<u8> {
    ghost reads = { λ it. spec.whole it.least it.most };

    fn read(&self, alloc: Global, at: &At) -> Result<u8, ScenarioFault> {
        let n = number_of(alloc, at, u64::from(self.least), u64::from(self.most))?;
        Ok(n as u8)
    }
}

impl Reads<u16> for Whole<u16> {
    ghost reads = { λ it. spec.whole it.least it.most };

    fn read(&self, alloc: Global, at: &At) -> Result<u16, ScenarioFault> {
        let n = number_of(alloc, at, u64::from(self.least), u64::from(self.most))?;
        Ok(n as u16)
    }
}

impl Reads<u32> for Whole<u32> {
    ghost reads = { λ it. spec.whole it.least it.most };

    fn read(&self, alloc: Global, at: &At) -> Result<u32, ScenarioFault> {
        let n = number_of(alloc, at, u64::from(self.least), u64::from(self.most))?;
        Ok(n as u32)
    }
}

impl Reads<u64> for Whole<u64> {
    ghost reads = { λ it. spec.whole it.least it.most };

    fn read(&self, alloc: Global, at: &At) -> Result<u64, ScenarioFault> {
        number_of(alloc, at, self.least, self.most)
    }
}

/// `inner` or `tcp`.
#[derive(Drop)]
pub struct NetWord;

impl Reads<NetKind> for NetWord {
    ghost reads = { λ _. spec.word spec.net_word };

    fn read(&self, alloc: Global, at: &At) -> Result<NetKind, ScenarioFault> {
        let word = text_of(alloc, at)?;
        if word == "inner" {
            Ok(NetKind::Inner)
        } else if word == "tcp" {
            Ok(NetKind::Tcp)
        } else {
            Err(bad(alloc, at.path.as_slice()))
        }
    }
}

/// `h1` or `h2`.
#[derive(Drop)]
pub struct ProtoWord;

impl Reads<Proto> for ProtoWord {
    ghost reads = { λ _. spec.word spec.proto_word };

    fn read(&self, alloc: Global, at: &At) -> Result<Proto, ScenarioFault> {
        let word = text_of(alloc, at)?;
        if word == "h1" {
            Ok(Proto::H1)
        } else if word == "h2" {
            Ok(Proto::H2)
        } else {
            Err(bad(alloc, at.path.as_slice()))
        }
    }
}

/// A host that is written as the URL Standard's parser reads it.
#[derive(Drop)]
pub struct Host;

impl Reads<Octets> for Host {
    ghost reads = { λ _. spec.host };

    fn read(&self, alloc: Global, at: &At) -> Result<Octets, ScenarioFault> {
        let host = text_of(alloc, at)?;
        if !is_plain_host(alloc, host)? {
            return Err(bad(alloc, at.path.as_slice()));
        }
        Ok(Octets::build(alloc, host.as_bytes())?)
    }
}

/// A name that an identity may show (RFC 9525, section 6.3).
#[derive(Drop)]
pub struct Name;

impl Reads<Octets> for Name {
    ghost reads = { λ _. spec.name };

    fn read(&self, alloc: Global, at: &At) -> Result<Octets, ScenarioFault> {
        let name = text_of(alloc, at)?;
        if !is_name(name.as_bytes()) {
            return Err(bad(alloc, at.path.as_slice()));
        }
        Ok(Octets::build(alloc, name.as_bytes())?)
    }
}

/// An address of 16 octets, as 32 lower-case hexadecimal digits.
#[derive(Drop)]
pub struct Address;

impl Reads<[u8; 16]> for Address {
    ghost reads = { λ _. spec.address };

    fn read(&self, alloc: Global, at: &At) -> Result<[u8; 16], ScenarioFault> {
        let digits = text_of(alloc, at)?;
        match address_of(digits) {
            Some(address) => Ok(address),
            None => Err(bad(alloc, at.path.as_slice())),
        }
    }
}

fn address_of(digits: &str) -> Option<[u8; 16]>
    ensures { result ≡ spec.address_of digits.now }
{
    if !are_lower_digits(digits.as_bytes()) {
        return None;
    }
    <[u8; 16] as FromHex>::from_hex(digits).ok()
}

fn are_lower_digits(digits: &[u8]) -> bool
    ensures { result ≡ list_all spec.is_lower_digit digits.now }
{
    digits.iter().all(|c| is_lower_digit(*c))
}

fn is_lower_digit(c: u8) -> bool
    ensures { result ≡ spec.is_lower_digit c }
{
    b"0123456789abcdef".contains(&c)
}

/// The text of a site, as a partition key of one part.
#[derive(Drop)]
pub struct Site;

impl Reads<PartitionKey> for Site {
    ghost reads = { λ _. spec.site };

    fn read(&self, alloc: Global, at: &At) -> Result<PartitionKey, ScenarioFault> {
        let text = text_of(alloc, at)?;
        match read_site(alloc, text.as_bytes()) {
            Ok(site) => Ok(PartitionKey { site, second: None }),
            Err(SiteFault::NoMem) => Err(ScenarioFault::NoMem),
            Err(SiteFault::BadSite(_)) => Err(bad(alloc, at.path.as_slice())),
        }
    }
}

/// A moment, or null for none.
#[derive(Drop)]
pub struct MomentOrNone;

impl Reads<Option<Moment>> for MomentOrNone {
    ghost reads = { λ _. spec.moment_or_none };

    fn read(&self, alloc: Global, at: &At) -> Result<Option<Moment>, ScenarioFault> {
        if at.value.is_null() {
            return Ok(None);
        }
        match at.value.as_u64() {
            Some(n) => Ok(Some(Moment(n))),
            None => Err(bad(alloc, at.path.as_slice())),
        }
    }
}

/// A field: a list of two texts, its name and its value.
#[derive(Drop)]
pub struct PlainField;

impl Reads<Field> for PlainField {
    ghost reads = { λ _. spec.field };

    fn read(&self, alloc: Global, at: &At) -> Result<Field, ScenarioFault> {
        match any_items(alloc, at)? {
            [name, value] => Ok(Field {
                name: part(alloc, at, "0", name)?,
                value: part(alloc, at, "1", value)?,
            }),
            _ => Err(bad(alloc, at.path.as_slice())),
        }
    }
}

/// A part of a field.
fn part(alloc: Global, at: &At, place: &str, value: &Value) -> Result<Octets, ScenarioFault>
    ensures { Gives result (spec.text (below at.now.path place.now) (view value.now)) }
{
    let path = below(alloc, at.path.as_slice(), place)?;
    Text.read(alloc, &At { path, value })
}

/// A field whose name and value are good. It may be one that requests leave to the pool.
#[derive(Drop)]
pub struct GoodField;

impl Reads<Field> for GoodField {
    ghost reads = { λ _. spec.good_field };

    fn read(&self, alloc: Global, at: &At) -> Result<Field, ScenarioFault> {
        let field = PlainField.read(alloc, at)?;
        if !is_field(&field) {
            return Err(bad(alloc, at.path.as_slice()));
        }
        Ok(field)
    }
}
