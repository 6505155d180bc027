// What becomes of the alternatives of origins (RFC 7838).
ghost use Rattle.std.specs.Prelude.{◌≡◌, ◌∷◌, not, filter, find, map, IfOk, OnOk};
ghost use Rattle.std.specs.Option.{option_copied};
ghost use Rattle.model_changes.specs.Alternatives as spec;
ghost use Rattle.model_authority.specs.Ways as ways;

use model_authority::{
    alternative_parts, is_row_of, parts_of_target, same_octets, same_proto, same_target,
};
use model_values::{AltRow, BROKEN_FOR, MOST_ORIGINS};
use net_base::{Listed, Moment, NoMem, Origin, PlainValue, Target};
use partition_keys::{AltUpdate, Alternative, Alternatives, PartitionKey, Proof};
use std::alloc::Global;

/// What is noted of an alternative: up to this moment it counts as broken, or http exchanges may use it.
#[derive(Clone, Copy, Debug, PartialEq, Eq)]
pub enum Mark {
    Broken(Moment),
    Proven(Moment),
}

/// A sum of moments, which stays at the greatest moment.
fn later_by(n: u64, m: Moment) -> Moment
    ensures { result ≡ spec.later_by n m }
{
    Moment(m.0.saturating_add(n))
}

// ---- one alternative

/// Whether the two are one service: protocol, host and port are equal.
fn is_same_service(a: &Alternative, b: &Alternative) -> bool
    ensures { result ≡ spec.is_same_service a.now b.now }
{
    same_proto(a.proto, b.proto) && same_octets(&a.host, &b.host) && a.port == b.port
}

/// Whether the alternative is where this target leads.
fn leads_to(t: &Target, a: &Alternative) -> bool
    ensures { result ≡ spec.leads_to t.now a.now }
{
    same_target(&parts_of_target(t), &alternative_parts(a))
}

/// The alternative of the list that is this one's service.
fn service_in<'a>(old: &'a [Alternative], a: &Alternative) -> Option<&'a Alternative>
    ensures { option_copied result ≡ find (spec.is_same_service a.now) old.now }
{
    old.iter().find(|b| is_same_service(a, b))
}

/// A copy of the alternative. What was known of the service stays known.
fn marked_as_before(
    alloc: Global,
    old: &[Alternative],
    a: &Alternative,
) -> Result<Alternative, NoMem>
    ensures { IfOk result (λ b. b ≡ spec.marked_as_before old.now a.now) }
{
    let mut marked = a.copy(alloc)?;
    match service_in(old, a) {
        None => Ok(marked),
        Some(before) => {
            marked.broken_until = before.broken_until;
            marked.proven_until = before.proven_until;
            Ok(marked)
        }
    }
}

/// The alternative is marked so.
fn marked(mut a: Alternative, mark: Mark) -> Alternative
    ensures { result ≡ spec.marked mark a }
{
    match mark {
        Mark::Broken(until) => a.broken_until = until,
        Mark::Proven(until) => a.proven_until = until,
    }
    a
}

/// A copy of the alternative, marked so where the target leads to it.
fn marked_at(alloc: Global, t: &Target, mark: Mark, a: &Alternative) -> Result<Alternative, NoMem>
    ensures { IfOk result (λ b. b ≡ spec.marked_at t.now mark a.now) }
{
    let copy = a.copy(alloc)?;
    Ok(if leads_to(t, a) {
        marked(copy, mark)
    } else {
        copy
    })
}

// ---- the alternatives of one origin

/// The list, with what was known of each service.
fn marked_list(
    alloc: Global,
    old: &[Alternative],
    list: &[Alternative],
) -> Result<Alternatives, NoMem>
    ensures { IfOk result (λ all. all ≡ map (spec.marked_as_before old.now) list.now) }
{
    let mut all = Listed::new();
    for a in list {
        all.push(alloc, marked_as_before(alloc, old, a)?)?;
    }
    Ok(all)
}

/// The list, where what the target leads to is marked so.
fn list_marked_at(
    alloc: Global,
    t: &Target,
    mark: Mark,
    list: &[Alternative],
) -> Result<Alternatives, NoMem>
    ensures { IfOk result (λ all. all ≡ map (spec.marked_at t.now mark) list.now) }
{
    let mut all = Listed::new();
    for a in list {
        all.push(alloc, marked_at(alloc, t, mark, a)?)?;
    }
    Ok(all)
}

/// The list without what the target leads to.
fn list_without(alloc: Global, t: &Target, list: &[Alternative]) -> Result<Alternatives, NoMem>
    ensures { IfOk result (λ kept. kept ≡ filter (λ a. not (spec.leads_to t.now a)) list.now) }
{
    let mut kept = Listed::new();
    for a in list {
        if !leads_to(t, a) {
            kept.push(alloc, a.copy(alloc)?)?;
        }
    }
    Ok(kept)
}

/// Those of the list that persist.
fn persistent_list(alloc: Global, list: &[Alternative]) -> Result<Alternatives, NoMem>
    ensures { IfOk result (λ kept. kept ≡ filter (λ a. a.persist) list.now) }
{
    let mut kept = Listed::new();
    for a in list {
        if a.persist {
            kept.push(alloc, a.copy(alloc)?)?;
        }
    }
    Ok(kept)
}

// ---- rows

/// The row of this origin in this partition.
fn row_of<'a>(key: &PartitionKey, origin: &Origin, rows: &'a [AltRow]) -> Option<&'a AltRow>
    ensures { option_copied result ≡ find (ways.is_row_of key.now origin.now) rows.now }
{
    rows.iter().find(|row| is_row_of(key, origin, row))
}

/// The alternatives of this origin in this partition.
fn list_before<'a>(key: &PartitionKey, origin: &Origin, rows: &'a [AltRow]) -> &'a [Alternative]
    ensures { result.now ≡ ways.list_of (find (ways.is_row_of key.now origin.now) rows.now) }
{
    match row_of(key, origin, rows) {
        None => &[],
        Some(row) => row.list.as_slice(),
    }
}

/// The alternative is marked so, in the row of its origin.
fn with_marked_in(
    alloc: Global,
    row: &mut AltRow,
    key: &PartitionKey,
    origin: &Origin,
    t: &Target,
    mark: Mark,
) -> Result<(), NoMem>
    ensures { OnOk result (row.new ≡ spec.with_marked_in key.now origin.now t.now mark row.old) }
{
    if is_row_of(key, origin, row) {
        let list = list_marked_at(alloc, t, mark, row.list.as_slice())?;
        row.list = list;
    }
    Ok(())
}

/// The alternative is dropped, in the row of its origin.
fn without_target_in(
    alloc: Global,
    row: &mut AltRow,
    key: &PartitionKey,
    origin: &Origin,
    t: &Target,
) -> Result<(), NoMem>
    ensures { OnOk result (row.new ≡ spec.without_target_in key.now origin.now t.now row.old) }
{
    if is_row_of(key, origin, row) {
        let list = list_without(alloc, t, row.list.as_slice())?;
        row.list = list;
    }
    Ok(())
}

/// The alternatives that don't persist are dropped.
fn persistent_in(alloc: Global, row: &mut AltRow) -> Result<(), NoMem>
    ensures { OnOk result (row.new ≡ spec.persistent_in row.old) }
{
    let list = persistent_list(alloc, row.list.as_slice())?;
    row.list = list;
    Ok(())
}

// ---- all rows

/// The rows without that of this origin in this partition.
fn other_rows(rows: &mut Vec<AltRow>, key: &PartitionKey, origin: &Origin)
    ensures { rows.new.items ≡ spec.other_rows key.now origin.now rows.old.items }
{
    rows.retain(|row| !is_row_of(key, origin, row));
}

/// The row stands at the front.
fn put_first(rows: &mut Vec<AltRow>, row: AltRow) -> Result<(), NoMem>
    ensures { OnOk result (rows.new.items ≡ row ∷ rows.old.items) }
{
    match rows.insert(0, row) {
        Ok(()) => Ok(()),
        Err(_) => Err(NoMem),
    }
}

/// The row of this origin with this list. What was known of each service stays known.
fn new_row(
    alloc: Global,
    rows: &[AltRow],
    key: &PartitionKey,
    origin: &Origin,
    list: &[Alternative],
) -> Result<AltRow, NoMem>
    ensures { IfOk result (λ row. row ≡ record { key = key.now; origin = origin.now; list = map (spec.marked_as_before (ways.list_of (find (ways.is_row_of key.now origin.now) rows.now))) list.now }) }
{
    let list = marked_list(alloc, list_before(key, origin, rows), list)?;
    Ok(AltRow {
        key: key.copy(alloc)?,
        origin: origin.copy(alloc)?,
        list,
    })
}

/// The origin's list in its place at the front. The origins that were set last are kept.
#[tactic(auto, unfolding(crate::specs::Alternatives::with_list))]
fn with_list(
    alloc: Global,
    rows: &mut Vec<AltRow>,
    key: &PartitionKey,
    origin: &Origin,
    list: &[Alternative],
) -> Result<(), NoMem>
    ensures { OnOk result (rows.new.items ≡ spec.with_list key.now origin.now list.now rows.old.items) }
{
    let row = new_row(alloc, rows.as_slice(), key, origin, list)?;
    other_rows(rows, key, origin);
    put_first(rows, row)?;
    rows.truncate(MOST_ORIGINS);
    Ok(())
}

/// A list takes the place of the one before, `clear` drops it (RFC 7838, sections 3.1 and 3).
#[tactic(auto, unfolding(crate::specs::Alternatives::updated_alternatives))]
pub fn updated_alternatives(
    alloc: Global,
    rows: &mut Vec<AltRow>,
    key: &PartitionKey,
    origin: &Origin,
    update: &AltUpdate,
) -> Result<(), NoMem>
    ensures { OnOk result (rows.new.items ≡ spec.updated_alternatives key.now origin.now update.now rows.old.items) }
{
    match update {
        AltUpdate::None => Ok(()),
        AltUpdate::Clear => {
            other_rows(rows, key, origin);
            Ok(())
        }
        AltUpdate::Set(list) => with_list(alloc, rows, key, origin, list.as_slice()),
    }
}

/// In the row of this origin, the alternative is marked so.
fn marked_in_all(
    alloc: Global,
    rows: &mut [AltRow],
    key: &PartitionKey,
    origin: &Origin,
    t: &Target,
    mark: Mark,
) -> Result<(), NoMem>
    ensures { OnOk result (rows.new ≡ map (spec.with_marked_in key.now origin.now t.now mark) rows.old) }
{
    for row in rows.iter_mut() {
        with_marked_in(alloc, row, key, origin, t, mark)?;
    }
    Ok(())
}

/// The alternative failed (RFC 7838, section 2.4), and counts as broken for five minutes.
#[tactic(auto, unfolding(crate::specs::Alternatives::broken_alternatives))]
pub fn broken_alternatives(
    alloc: Global,
    rows: &mut [AltRow],
    key: &PartitionKey,
    origin: &Origin,
    t: &Target,
    now: Moment,
) -> Result<(), NoMem>
    ensures { OnOk result (rows.new ≡ spec.broken_alternatives key.now origin.now t.now now rows.old) }
{
    let until = later_by(BROKEN_FOR, now);
    marked_in_all(alloc, rows, key, origin, t, Mark::Broken(until))
}

/// The origin's http exchanges may use the alternative before the proven moment (RFC 8164, section 2.3).
#[tactic(auto, unfolding(crate::specs::Alternatives::proven_alternatives))]
pub fn proven_alternatives(
    alloc: Global,
    rows: &mut [AltRow],
    key: &PartitionKey,
    origin: &Origin,
    t: &Target,
    proof: Proof,
) -> Result<(), NoMem>
    ensures { OnOk result (rows.new ≡ spec.proven_alternatives key.now origin.now t.now proof rows.old) }
{
    match proof {
        Proof::NotAsked => Ok(()),
        Proof::NotValid(_) => Ok(()),
        Proof::Until(m) => marked_in_all(alloc, rows, key, origin, t, Mark::Proven(m)),
    }
}

/// The alternative said that it isn't one (RFC 7838, section 6).
#[tactic(auto, unfolding(crate::specs::Alternatives::dropped_alternatives))]
pub fn dropped_alternatives(
    alloc: Global,
    rows: &mut [AltRow],
    key: &PartitionKey,
    origin: &Origin,
    t: &Target,
) -> Result<(), NoMem>
    ensures { OnOk result (rows.new ≡ spec.dropped_alternatives key.now origin.now t.now rows.old) }
{
    for row in rows.iter_mut() {
        without_target_in(alloc, row, key, origin, t)?;
    }
    Ok(())
}

/// When the network changes, the alternatives that don't persist are dropped (RFC 7838, section 2.2).
#[tactic(auto, unfolding(crate::specs::Alternatives::persistent_alternatives))]
pub fn persistent_alternatives(alloc: Global, rows: &mut [AltRow]) -> Result<(), NoMem>
    ensures { OnOk result (rows.new ≡ spec.persistent_alternatives rows.old) }
{
    for row in rows.iter_mut() {
        persistent_in(alloc, row)?;
    }
    Ok(())
}
