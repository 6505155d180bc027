// What is counted in the abstract pool.
ghost use Rattle.std.specs.Prelude.{◌≡◌, count_by};
ghost use Rattle.partition_keys.specs.Equality as equality;
ghost use Rattle.model_settling.specs.Counts as spec;

use model_authority::{GroupParts, is_gone, is_leased, is_opening, parts_of_group, same_group};
use model_values::{AbstractPool, Connection, Exchange};

/// Whether the connection has this group.
pub fn in_group(g: &GroupParts, c: &Connection) -> bool
    ensures { result ≡ equality.same_group c.now.group g.now }
{
    same_group(&parts_of_group(&c.group), g)
}

/// Whether the connection isn't gone.
pub fn is_present(c: &Connection) -> bool
    ensures { result ≡ spec.is_present c.now }
{
    !is_gone(c.phase)
}

/// Whether the connection isn't gone and has this group.
fn is_present_in(g: &GroupParts, c: &Connection) -> bool
    ensures { result ≡ spec.is_present_in g.now c.now }
{
    is_present(c) && in_group(g, c)
}

/// Whether the connection isn't up yet and has this group.
pub fn is_opening_in(g: &GroupParts, c: &Connection) -> bool
    ensures { result ≡ spec.is_opening_in g.now c.now }
{
    is_opening(c.phase) && in_group(g, c)
}

/// Whether the exchange is in the background and has a lease.
fn is_background_lease(e: &Exchange) -> bool
    ensures { result ≡ spec.is_background_lease e.now }
{
    e.ask.background && is_leased(&e.status)
}

/// How many of these connections aren't gone.
fn count_present(list: &[Connection]) -> usize
    ensures { result ≡ count_by spec.is_present list.now }
{
    let mut n = 0usize;
    for c in list {
        if is_present(c) {
            n += 1;
        }
    }
    n
}

/// How many connections aren't gone.
#[tactic(auto, unfolding(crate::specs::Counts::count_total))]
pub fn count_total(s: &AbstractPool) -> usize
    ensures { result ≡ spec.count_total s.now }
{
    count_present(s.connections.as_slice())
}

/// How many connections of a group aren't gone.
#[tactic(auto, unfolding(crate::specs::Counts::count_in_group))]
pub fn count_in_group(s: &AbstractPool, g: &GroupParts) -> usize
    ensures { result ≡ spec.count_in_group s.now g.now }
{
    s.connections
        .as_slice()
        .iter()
        .filter(|c| is_present_in(g, c))
        .count()
}

/// How many connections of a group aren't up yet.
#[tactic(auto, unfolding(crate::specs::Counts::openings_of))]
pub fn openings_of(s: &AbstractPool, g: &GroupParts) -> usize
    ensures { result ≡ spec.openings_of s.now g.now }
{
    s.connections
        .as_slice()
        .iter()
        .filter(|c| is_opening_in(g, c))
        .count()
}

/// How many of these exchanges are in the background and have a lease.
fn count_background_leases(list: &[Exchange]) -> usize
    ensures { result ≡ count_by spec.is_background_lease list.now }
{
    let mut n = 0usize;
    for e in list {
        if is_background_lease(e) {
            n += 1;
        }
    }
    n
}

/// How many exchanges in the background have a lease.
#[tactic(auto, unfolding(crate::specs::Counts::background_leases))]
pub fn background_leases(s: &AbstractPool) -> usize
    ensures { result ≡ spec.background_leases s.now }
{
    count_background_leases(s.exchanges.as_slice())
}
