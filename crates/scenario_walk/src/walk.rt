// The walk through a value of JSON: a value and its path, members and items.
ghost use Rattle.std.specs.Prelude.{◌≡◌, [], ◌++◌, map, not, find, string_bytes, decimal, IfOk, OnOk};
ghost use Rattle.std.specs.List.{flat_map};
ghost use Rattle.std.specs.Option.{option_copied};
ghost use Rattle.std.specs.BTreeMap.{keys};
ghost use Rattle.serde_json.specs.View.{view, members_view};
ghost use Rattle.scenario_walk.specs.Faults as spec;
ghost use Rattle.scenario_walk.specs.Faults.{Gives, GivesItems, IsFault};
ghost use Rattle.scenario_walk.specs.Values as values;
ghost use Rattle.scenario_walk.specs.declared.fault.ScenarioFault.TheVariants as fault;

use crate::fault::ScenarioFault;
use net_base::{Listed, NoMem, Octets};
use serde_json::{Map, Value};
use std::alloc::Global;

/// A value and its path in the whole value, as a JSON pointer.
#[derive(Drop)]
pub struct At<'v> {
    pub path: Octets,
    pub value: &'v Value,
}

/// How a value is read at its path: what it gives, or the first fault in it.
pub trait Reads<T> {
    ghost use Rattle.std.specs.Prelude.{ℕ, List, Result};
    ghost use Rattle.serde_json.specs.Data.{Data};
    ghost use Rattle.scenario_walk.specs.declared.fault.ScenarioFault.{ScenarioFault};

    ghost reads: { Self → List ℕ → Data → Result T ScenarioFault };

    fn read(&self, alloc: Global, at: &At) -> Result<T, ScenarioFault>
        ensures { Gives result (reads self.now at.now.path (view at.now.value.now)) };
}

// ---- paths

/// The path of a member.
pub fn below(alloc: Global, path: &[u8], part: &str) -> Result<Octets, NoMem>
    ensures { IfOk result (λ p. p ≡ spec.below path.now part.now) }
{
    let mut text = Octets::build(alloc, path)?;
    text.push(alloc, b'/')?;
    escape_onto(alloc, &mut text, part.as_bytes())?;
    Ok(text)
}

/// The path of an item.
pub fn below_item(alloc: Global, path: &[u8], place: usize) -> Result<Octets, NoMem>
    ensures { IfOk result (λ p. p ≡ spec.below path.now (decimal place)) }
{
    let part = format!(in alloc; "{place}")?;
    below(alloc, path, part.as_str())
}

fn escape_onto(alloc: Global, text: &mut Octets, part: &[u8]) -> Result<(), NoMem>
    ensures { OnOk result (text.new ≡ text.old ++ flat_map spec.escape_octet part.now) }
{
    for b in part {
        escape_octet_onto(alloc, text, *b)?;
    }
    Ok(())
}

fn escape_octet_onto(alloc: Global, text: &mut Octets, b: u8) -> Result<(), NoMem>
    ensures { OnOk result (text.new ≡ text.old ++ spec.escape_octet b) }
{
    match b {
        b'~' => text.extend(alloc, b"~0"),
        b'/' => text.extend(alloc, b"~1"),
        _ => text.push(alloc, b),
    }
}

/// The path as it is shown.
fn shown(alloc: Global, path: &[u8]) -> Result<Octets, NoMem>
    ensures { IfOk result (λ p. p ≡ spec.shown path.now) }
{
    if path.is_empty() {
        Octets::build(alloc, b"/")
    } else {
        Octets::build(alloc, path)
    }
}

/// The fault of a value that doesn't fit.
pub fn bad(alloc: Global, path: &[u8]) -> ScenarioFault
    ensures { IsFault result (fault.BadValue (spec.shown path.now)) }
{
    match shown(alloc, path) {
        Ok(path) => ScenarioFault::BadValue(path),
        Err(NoMem) => ScenarioFault::NoMem,
    }
}

/// The fault of a list or a sum that is too large.
pub fn too_many(alloc: Global, path: &[u8], n: u64) -> ScenarioFault
    ensures { IsFault result (fault.TooMany (spec.shown path.now) n) }
{
    match shown(alloc, path) {
        Ok(path) => ScenarioFault::TooMany(path, n),
        Err(NoMem) => ScenarioFault::NoMem,
    }
}

// ---- members

/// Sees to it that the value is an object.
pub fn an_object(alloc: Global, at: &At) -> Result<(), ScenarioFault>
    ensures { Gives result (spec.an_object at.now.path (view at.now.value.now)) }
{
    match at.value.as_object() {
        Some(_) => Ok(()),
        None => Err(bad(alloc, at.path.as_slice())),
    }
}

/// Sees to it that the value is an object and has no members but these.
pub fn only(alloc: Global, at: &At, names: &[&str]) -> Result<(), ScenarioFault>
    ensures { Gives result (spec.only (map (λ name. name.now) names.now) at.now.path (view at.now.value.now)) }
{
    let Some(members) = at.value.as_object() else {
        return Err(bad(alloc, at.path.as_slice()));
    };
    match first_unknown(members, names) {
        None => Ok(()),
        Some(name) => {
            let path = below(alloc, at.path.as_slice(), name)?;
            Err(ScenarioFault::Unsupported(path))
        }
    }
}

/// The first name that isn't among these.
#[tactic(auto, using(crate::proofs::WalkLemmas::first_unknown_key))]
fn first_unknown<'m>(members: &'m Map<String, Value>, names: &[&str]) -> Option<&'m str>
    ensures { option_copied result ≡ spec.first_unknown (map (λ name. name.now) names.now) (members_view members.now.entries) }
{
    match unknown_key(members, names) {
        Some(key) => Some(key.as_str()),
        None => None,
    }
}

fn unknown_key<'m>(members: &'m Map<String, Value>, names: &[&str]) -> Option<&'m String>
    ensures { option_copied result ≡ find (λ k. not (spec.is_among (map (λ name. name.now) names.now) (string_bytes k))) (keys members.now) }
{
    members.keys().find(|key| !is_among(names, key.as_str()))
}

/// Whether the text is one of these.
pub fn is_among(names: &[&str], text: &str) -> bool
    ensures { result ≡ spec.is_among (map (λ name. name.now) names.now) text.now }
{
    names.iter().any(|name| text == *name)
}

/// A member that has to be there.
pub fn required<T, R: Reads<T>>(
    alloc: Global,
    at: &At,
    name: &str,
    reader: &R,
) -> Result<T, ScenarioFault>
    ensures { Gives result (spec.required name.now (R.reads reader.now) at.now.path (view at.now.value.now)) }
{
    let path = below(alloc, at.path.as_slice(), name)?;
    match at.value.get(name) {
        Some(value) => reader.read(alloc, &At { path, value }),
        None => Err(bad(alloc, path.as_slice())),
    }
}

/// A member with a default.
pub fn optional<T: Drop, R: Reads<T>>(
    alloc: Global,
    at: &At,
    name: &str,
    default: T,
    reader: &R,
) -> Result<T, ScenarioFault>
    ensures { Gives result (spec.optional name.now default (R.reads reader.now) at.now.path (view at.now.value.now)) }
{
    match at.value.get(name) {
        Some(value) => {
            let path = below(alloc, at.path.as_slice(), name)?;
            reader.read(alloc, &At { path, value })
        }
        None => Ok(default),
    }
}

// ---- items

/// The items of a list of any length.
#[tactic(auto, using(crate::proofs::WalkLemmas::list_of_items_of))]
pub(crate) fn any_items<'v>(alloc: Global, at: &At<'v>) -> Result<&'v [Value], ScenarioFault>
    ensures { GivesItems result (spec.any_items at.now.path (view at.now.value.now)) }
{
    match at.value.as_array() {
        Some(items) => Ok(items.as_slice()),
        None => Err(bad(alloc, at.path.as_slice())),
    }
}

/// The items of a list that has at most so many.
pub fn items<'v>(alloc: Global, at: &At<'v>, most: usize) -> Result<&'v [Value], ScenarioFault>
    ensures { GivesItems result (spec.items most at.now.path (view at.now.value.now)) }
{
    let items = any_items(alloc, at)?;
    if items.len() > most {
        return Err(too_many(alloc, at.path.as_slice(), items.len() as u64));
    }
    Ok(items)
}

/// Each item, read at its place.
#[tactic(auto, using(crate::proofs::WalkLemmas::each_more, crate::proofs::WalkLemmas::each_stop, crate::proofs::WalkLemmas::each_done))]
fn each<T: Drop, R: Reads<T>>(
    alloc: Global,
    path: &[u8],
    items: &[Value],
    reader: &R,
) -> Result<Listed<T>, ScenarioFault>
    ensures { Gives result (spec.each_behind (λ before. R.reads reader.now) path.now [] (map view items.now)) }
{
    let mut all = Listed::new();
    for (place, value) in items.iter().enumerate() {
        let path = below_item(alloc, path, place)?;
        let item = reader.read(alloc, &At { path, value })?;
        all.push(alloc, item)?;
    }
    Ok(all)
}

/// A list of at most so many, whose items are read like this.
#[derive(Drop)]
pub struct ListOf<R> {
    pub most: usize,
    pub item: R,
}

impl<T: Drop, R: Reads<T>> Reads<Listed<T>> for ListOf<R> {
    ghost reads = { λ it. spec.list it.most (R.reads it.item) };

    fn read(&self, alloc: Global, at: &At) -> Result<Listed<T>, ScenarioFault> {
        let items = items(alloc, at, self.most)?;
        each(alloc, at.path.as_slice(), items, &self.item)
    }
}

/// A list of any length, whose items are read like this.
#[derive(Drop)]
pub struct AnyListOf<R> {
    pub item: R,
}

impl<T: Drop, R: Reads<T>> Reads<Listed<T>> for AnyListOf<R> {
    ghost reads = { λ it. spec.any_list (R.reads it.item) };

    fn read(&self, alloc: Global, at: &At) -> Result<Listed<T>, ScenarioFault> {
        let items = any_items(alloc, at)?;
        each(alloc, at.path.as_slice(), items, &self.item)
    }
}

/// What the value gives, as a member that is there.
#[derive(Drop)]
pub struct Given<R>(pub R);

impl<T, R: Reads<T>> Reads<Option<T>> for Given<R> {
    ghost reads = { λ it. values.some (R.reads it.0) };

    fn read(&self, alloc: Global, at: &At) -> Result<Option<T>, ScenarioFault> {
        Ok(Some(self.0.read(alloc, at)?))
    }
}
