// What every dialer in memory keeps.
ghost use Rattle.std.specs.Prelude.{ℕ, ◌≡◌, ◌≤◌, ◌+◌, ◌∷◌, ◌++◌, [], Some, None, map, slice_get};
ghost use Rattle.edge_traits.specs.Dialers.{TakenOut};
ghost use Rattle.edge_traits.specs.BookLinks.{place_of, allowances};
ghost use Rattle.edge_traits.specs.Tables.{line_of, record_of, out_items, log_lines, dial_records};
ghost use Rattle.edge_traits.specs.declared.dialer.TheConstants.{MOST_OCTETS};

use crate::book_links::{NO_TALLY, OutLink, Tally};
use crate::dialer::{MOST_OCTETS, NetKind};
use crate::tables::{DialAttempt, RetiredLink, Tables};
use net_base::{ConnNo, Identity, NoMem, Peer, PeerBook, PlainValue, Target};
use std::alloc::Global;

/// What a dialer was staged with.
#[derive(Debug, Drop)]
pub(crate) struct Staged {
    pub net: NetKind,
    pub peers: PeerBook,
}

/// The books of a dialer in memory: its counts, how many octets its links may still be given, the places of the links
/// that are out, the log and the records, and what was staged. Contracts see all of it. The places of a link's line
/// and record are reserved before its dial, so `retire` takes no memory.
#[derive(Debug, Drop)]
pub struct Books {
    tally: Tally,
    left: u64,
    tables: Option<Tables>,
    staged: Option<Staged>,
    ghost within: { left + allowances (out_items tables) ≤ MOST_OCTETS },
    ghost none_out: { staged ≡ None → out_items tables ≡ [] },
}

impl Books {
    ghost use Rattle.std.specs.Prelude.{length, IsSome, OnOk, OnErr};
    ghost use Rattle.edge_traits.specs.Counts.{no_counts};
    ghost use Rattle.edge_traits.specs.Counted.{one_fault};
    ghost use Rattle.edge_traits.specs.Dialers.{IsOut, DialedUp, DialFailed, Retires};
    ghost use Rattle.edge_traits.specs.BookLinks.{counts_of, upper_half, out_link_view};
    ghost use Rattle.edge_traits.specs.Books.{books_view, unused_view, peers_of, HasRoom};

    /// Nothing was dialed, and nothing staged. It takes no memory.
    pub fn new() -> Books
        ensures { books_view result ≡ unused_view }
    {
        Books {
            tally: NO_TALLY,
            left: MOST_OCTETS,
            tables: None,
            staged: None,
        }
    }

    /// Keeps a copy of the peers. After `NoMem` nothing has changed.
    pub fn stage(&mut self, alloc: Global, net: NetKind, peers: &PeerBook) -> Result<(), NoMem>
        ensures ok { OnOk result (books_view self.new ≡ record (books_view self.old) { staged = Some (record { net = net; peers = peers.now }) }) }
        ensures err { OnErr result (books_view self.new ≡ books_view self.old) }
    {
        let peers = peers.copy(alloc)?;
        self.staged = Some(Staged { net, peers });
        Ok(())
    }

    /// The peers that were staged, none before.
    pub fn peers(&self) -> &[Peer]
        ensures { result.now ≡ peers_of (books_view self.now).staged }
    {
        match &self.staged {
            None => &[],
            Some(staged) => staged.peers.as_slice(),
        }
    }

    /// The links that were retired, in order.
    pub fn log(&self) -> &[RetiredLink]
        ensures { (books_view self.now).log ≡ Some (map line_of result.now) }
    {
        match &self.tables {
            None => &[],
            Some(tables) => tables.log.as_slice(),
        }
    }

    /// The dials that answered, in order.
    pub fn records(&self) -> &[DialAttempt]
        ensures { (books_view self.now).records ≡ Some (map record_of result.now) }
    {
        match &self.tables {
            None => &[],
            Some(tables) => tables.records.as_slice(),
        }
    }

    /// Reserves the places of one more dial: its link's, its record's and its link's line's. What contracts see stays.
    pub fn reserve(&mut self, alloc: Global) -> Result<(), NoMem>
        ensures view { books_view self.new ≡ books_view self.old }
        ensures room { OnOk result (HasRoom self.new) }
    {
        match &mut self.tables {
            Some(tables) => tables.reserve(),
            None => {
                let mut tables = Tables::new(alloc);
                tables.reserve()?;
                self.tables = Some(tables);
                Ok(())
            }
        }
    }

    /// A dial came up: its link is out, with the half of what is left, rounded up.
    pub fn came_up(&mut self, conn: ConnNo, target: Target, identity: Identity) -> OutLink
        requires room { HasRoom self.old }
        requires staged { IsSome (books_view self.old).staged }
        ensures place { result ≡ record { conn = conn.0; allowance = upper_half (books_view self.old).left } }
        ensures law { DialedUp (books_view self.old) (books_view self.new) conn.0 target (out_link_view result no_counts [] []) identity }
        ensures counts { (books_view self.new).counts ≡ (books_view self.old).counts }
        ensures left { (books_view self.new).left + result.allowance ≡ (books_view self.old).left }
    {
        let place = OutLink {
            conn: conn.0,
            allowance: self.left - self.left / 2,
        };
        let line = DialAttempt {
            conn,
            target,
            identity: Some(identity),
        };
        self.left -= place.allowance;
        if let Some(tables) = &mut self.tables {
            tables.add_up(place, line);
        }
        place
    }

    /// A dial failed, which counts as a fault.
    pub fn failed(&mut self, conn: ConnNo, target: Target)
        requires { HasRoom self.old }
        ensures law { DialFailed (books_view self.old) (books_view self.new) conn.0 target }
        ensures counts { (books_view self.new).counts ≡ one_fault (books_view self.old).counts }
        ensures left { (books_view self.new).left ≡ (books_view self.old).left }
        ensures out { (books_view self.new).out ≡ (books_view self.old).out }
    {
        let line = DialAttempt {
            conn,
            target,
            identity: None,
        };
        self.tally.faults = self.tally.faults.saturating_add(1);
        if let Some(tables) = &mut self.tables {
            tables.add_failed(line);
        }
    }

    /// A link that is out is retired, with its counts and the octets that were written to it and received from it. It
    /// takes no memory.
    pub fn retire(
        &mut self,
        conn: ConnNo,
        place: OutLink,
        tally: Tally,
        written: Vec<u8>,
        received: Vec<u8>,
    )
        requires out { IsOut conn.0 (Some (place_of place)) (books_view self.old).out }
        requires gave { length received.items ≤ place.allowance }
        ensures law { Retires (books_view self.old) (books_view self.new) conn.0 (out_link_view place (counts_of tally) written.items received.items) }
        ensures left { (books_view self.new).left + length received.items ≡ (books_view self.old).left + place.allowance }
    {
        let back = place.allowance - received.len() as u64;
        let line = RetiredLink {
            conn,
            written,
            received,
        };
        take_back(&mut self.tables, place, line);
        self.left += back;
        self.tally.add(tally);
    }
}

/// A link that is out is no longer out, and its line stands in the log.
fn take_back(tables: &mut Option<Tables>, place: OutLink, line: RetiredLink)
    requires { (at : ℕ) × (slice_get (map place_of (out_items tables.old)) at ≡ Some (place_of place)) }
    ensures taken { TakenOut (map place_of (out_items tables.old)) (Some (place_of place)) (map place_of (out_items tables.new)) }
    ensures sum { allowances (out_items tables.old) ≡ allowances (out_items tables.new) + place.allowance }
    ensures log { log_lines tables.new ≡ log_lines tables.old ++ line_of line ∷ [] }
    ensures records { dial_records tables.new ≡ dial_records tables.old }
{
    if let Some(tables) = tables {
        tables.take_back(place, line);
    }
}
