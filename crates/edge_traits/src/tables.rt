// The lists that a dialer in memory keeps, with room for the lines to come.
ghost use Rattle.std.specs.Prelude.{ℕ, ◌≡◌, ◌≤◌, ◌+◌, ◌∷◌, ◌++◌, [], length, map, slice_get, Some, OnOk, vec_capacity};
ghost use Rattle.edge_traits.specs.BookLinks.{place_of, allowances};
ghost use Rattle.edge_traits.specs.Dialers.{TakenOut};

use crate::book_links::OutLink;
use net_base::{ConnNo, Identity, NoMem, Target};
use std::alloc::Global;

/// A link that was retired, with what went over it.
#[derive(Debug, Drop)]
pub struct RetiredLink {
    pub conn: ConnNo,
    pub written: Vec<u8>,
    pub received: Vec<u8>,
}

/// A dial that answered: whom its link shows, or nothing where it failed.
#[derive(Debug, Drop)]
pub struct DialAttempt {
    pub conn: ConnNo,
    pub target: Target,
    pub identity: Option<Identity>,
}

/// The places of the links that are out, the log and the records. Each link that is out has its place in the log.
#[derive(Debug, Drop)]
pub(crate) struct Tables {
    pub out: Vec<OutLink>,
    pub log: Vec<RetiredLink>,
    pub records: Vec<DialAttempt>,
    ghost room: { length log.items + length out.items ≤ vec_capacity log },
}

impl Tables {
    ghost use Rattle.edge_traits.specs.Tables.{TablesSame, TablesHaveRoom};

    /// Nothing, with no room.
    pub(crate) fn new(alloc: Global) -> Tables
        ensures out { result.out.items ≡ [] }
        ensures log { result.log.items ≡ [] }
        ensures records { result.records.items ≡ [] }
    {
        Tables {
            out: Vec::new(alloc),
            log: Vec::new(alloc),
            records: Vec::new(alloc),
        }
    }

    /// Room for one more of each.
    pub(crate) fn reserve(&mut self) -> Result<(), NoMem>
        ensures same { TablesSame self.old self.new }
        ensures room { OnOk result (TablesHaveRoom self.new) }
    {
        self.out.reserve(1)?;
        self.records.reserve(1)?;
        self.log.reserve(self.out.len() + 1)?;
        Ok(())
    }

    /// A dial that came up.
    #[tactic(auto, using(crate::proofs::BookPlaces::allowances_push))]
    pub(crate) fn add_up(&mut self, place: OutLink, line: DialAttempt)
        requires { TablesHaveRoom self.old }
        ensures out { self.new.out.items ≡ self.old.out.items ++ place ∷ [] }
        ensures sum { allowances self.new.out.items ≡ allowances self.old.out.items + place.allowance }
        ensures log { self.new.log.items ≡ self.old.log.items }
        ensures records { self.new.records.items ≡ self.old.records.items ++ line ∷ [] }
    {
        self.out.push_reserved(place);
        self.records.push_reserved(line);
    }

    /// A dial that failed.
    pub(crate) fn add_failed(&mut self, line: DialAttempt)
        requires { TablesHaveRoom self.old }
        ensures out { self.new.out.items ≡ self.old.out.items }
        ensures log { self.new.log.items ≡ self.old.log.items }
        ensures records { self.new.records.items ≡ self.old.records.items ++ line ∷ [] }
    {
        self.records.push_reserved(line);
    }

    /// A link that is retired.
    pub(crate) fn take_back(&mut self, place: OutLink, line: RetiredLink)
        requires { (at : ℕ) × (slice_get (map place_of self.old.out.items) at ≡ Some (place_of place)) }
        ensures taken { TakenOut (map place_of self.old.out.items) (Some (place_of place)) (map place_of self.new.out.items) }
        ensures sum { allowances self.old.out.items ≡ allowances self.new.out.items + place.allowance }
        ensures log { self.new.log.items ≡ self.old.log.items ++ line ∷ [] }
        ensures records { self.new.records.items ≡ self.old.records.items }
    {
        take_out(&mut self.out, place);
        self.log.push_reserved(line);
    }
}

/// Takes one of them that is this place out.
fn take_out(out: &mut Vec<OutLink>, place: OutLink)
    requires { (at : ℕ) × (slice_get (map place_of out.old.items) at ≡ Some (place_of place)) }
    ensures taken { TakenOut (map place_of out.old.items) (Some (place_of place)) (map place_of out.new.items) }
    ensures sum { allowances out.old.items ≡ allowances out.new.items + place.allowance }
    ensures len { length out.new.items + 1 ≡ length out.old.items }
{
    let at = find_out(out, place);
    out.remove(at);
}

/// Where it is among them.
fn find_out(out: &[OutLink], place: OutLink) -> usize
    requires { (at : ℕ) × (slice_get out.now at ≡ Some place) }
    ensures { slice_get out.now result ≡ Some place }
{
    for (i, other) in out.iter().enumerate() {
        if *other == place {
            return i;
        }
    }
    unreachable!()
}
