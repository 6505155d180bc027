// Octets, which contracts see as a list of numbers.
ghost use Rattle.std.specs.Prelude.{◌≡◌, [], ◌∷◌, ◌++◌, ◌<◌, length, slice_get, IfOk, OnOk, OnErr, OnSome};
ghost use Rattle.std.specs.Option.{option_copied};
ghost use Rattle.std.specs.Str.{str_to_ascii_lowercase};

use crate::memory::NoMem;
use crate::value::PlainValue;
use std::alloc::Global;
use std::marker::Model;

/// A list of octets: a name, a value, a body.
#[derive(Debug, Drop)]
pub struct Octets {
    bytes: Option<Vec<u8>>,
}

impl Model for Octets {
    ghost use Rattle.std.specs.Prelude.{List, ℕ};
    ghost use Rattle.std.specs.Coded.{coded_list, coded_ℕ};
    ghost use Rattle.plain_values.specs.Lists.{items_of};

    ghost Value = { List ℕ };

    ghost coded = { coded_list coded_ℕ };

    ghost view = { λ it. items_of it.bytes };
}

impl Octets {
    /// No octets.
    pub fn new() -> Octets
        ensures { result ≡ [] }
    {
        Octets { bytes: None }
    }

    /// A copy of the octets given.
    pub fn build(alloc: Global, bytes: &[u8]) -> Result<Octets, NoMem>
        ensures { IfOk result (λ it. it ≡ bytes.now) }
    {
        match Vec::from_slice(alloc, bytes) {
            Ok(items) => Ok(Octets { bytes: Some(items) }),
            Err(_) => Err(NoMem),
        }
    }

    /// All octets, in order.
    pub fn as_slice(&self) -> &[u8]
        ensures { result.now ≡ self.now }
    {
        match &self.bytes {
            None => &[],
            Some(bytes) => bytes.as_slice(),
        }
    }

    /// How many octets there are.
    pub fn len(&self) -> usize
        ensures { result ≡ length self.now }
    {
        self.as_slice().len()
    }

    /// The octet at an index, counted from 0.
    pub fn get(&self, i: usize) -> Option<&u8>
        ensures value { option_copied result ≡ slice_get self.now i }
        ensures within { OnSome result (i < length self.now) }
    {
        self.as_slice().get(i)
    }

    /// Adds octets at the end. After `NoMem` they are as before.
    pub fn extend(&mut self, alloc: Global, more: &[u8]) -> Result<(), NoMem>
        ensures ok { OnOk result (self.new ≡ self.old ++ more.now) }
        ensures err { OnErr result (self.new ≡ self.old) }
    {
        match &mut self.bytes {
            Some(bytes) => match bytes.extend_from_slice(more) {
                Ok(()) => Ok(()),
                Err(_) => Err(NoMem),
            },
            None => match Vec::from_slice(alloc, more) {
                Ok(bytes) => {
                    self.bytes = Some(bytes);
                    Ok(())
                }
                Err(_) => Err(NoMem),
            },
        }
    }

    /// Adds an octet at the end. After `NoMem` they are as before.
    pub fn push(&mut self, alloc: Global, item: u8) -> Result<(), NoMem>
        ensures ok { OnOk result (self.new ≡ self.old ++ item ∷ []) }
        ensures err { OnErr result (self.new ≡ self.old) }
    {
        self.extend(alloc, &[item])
    }
}

impl PlainValue for Octets {
    fn copy(&self, alloc: Global) -> Result<Octets, NoMem> {
        Octets::build(alloc, self.as_slice())
    }

    fn same(&self, other: &Octets) -> bool {
        self.as_slice() == other.as_slice()
    }
}

/// The octets with ASCII letters in lower case.
pub fn lower_case(alloc: Global, text: &[u8]) -> Result<Octets, NoMem>
    ensures { IfOk result (λ it. it ≡ str_to_ascii_lowercase text.now) }
{
    let bytes: Vec<u8> = text.iter().map(|b| b.to_ascii_lowercase()).collect(alloc)?;
    Octets::build(alloc, bytes.as_slice())
}
