// A dialer in memory.
ghost use Rattle.std.specs.Prelude.{◌≡◌, ◌≤◌, ◌⊎◌, length, map, slice_get, Some, IfOk, IfSome, IsNone, Contains};
ghost use Rattle.edge_traits.specs.Script.{link_view};

use crate::book_links::OutLink;
use crate::books::Books;
use crate::dialer::{Dialed, Dialer, NetKind};
use crate::link_step::LinkSteps;
use crate::script_link::ScriptLink;
use crate::script_part::{ScriptLinks, ScriptPart};
use crate::tables::{DialAttempt, RetiredLink};
use net_base::{ConnNo, Identity, NoMem, PeerBook, PlainValue, Target};
use std::alloc::Global;

/// A dialer in memory. Each dial gives a link that plays the next part, with half of what is left as its allowance,
/// rounded up. A dial fails where its number was given, and where no part is left; one for which there is no memory
/// isn't counted.
#[derive(Drop)]
pub struct MemDialer {
    links: ScriptLinks,
    next: usize,
    dial_fails: Vec<u64>,
    dials: u64,
    books: Books,
}

/// Copies of what a part gives: what its link plays, and whom it shows, once for the caller and once for the record.
#[derive(Drop)]
struct PartCopies {
    steps: LinkSteps,
    write_fails: Vec<u64>,
    shown: Identity,
    kept: Identity,
}

impl MemDialer {
    ghost use Rattle.edge_traits.specs.Books.{unused_view};
    ghost use Rattle.edge_traits.specs.Tables.{line_of, record_of};
    ghost use Rattle.edge_traits.specs.MemDialer.{dialer_view, dialer_state, new_parts};

    /// A dialer of these parts, which fails at the dials whose numbers are given. Dials are counted from 1.
    pub fn build(alloc: Global, links: ScriptLinks, dial_fails: &[u64]) -> Result<MemDialer, NoMem>
        ensures view { IfOk result (λ it. dialer_view it ≡ unused_view) }
        ensures parts { IfOk result (λ it. dialer_state it ≡ new_parts links dial_fails.now) }
    {
        Ok(MemDialer {
            links,
            next: 0,
            dial_fails: Vec::from_slice(alloc, dial_fails)?,
            dials: 0,
            books: Books::new(),
        })
    }

    /// The links that were retired, in order.
    pub fn log(&self) -> &[RetiredLink]
        ensures { (dialer_view self.now).log ≡ Some (map line_of result.now) }
    {
        self.books.log()
    }

    /// The dials that answered, in order.
    pub fn records(&self) -> &[DialAttempt]
        ensures { (dialer_view self.now).records ≡ Some (map record_of result.now) }
    {
        self.books.records()
    }
}

impl Dialer for MemDialer {
    type Link = ScriptLink;

    ghost use Rattle.std.specs.Prelude.{IsSome, OnOk, OnErr};
    ghost use Rattle.edge_traits.specs.Dialers.{IsOut, Dials, Retires};
    ghost use Rattle.edge_traits.specs.MemDialer.{dialer_view, dialer_none_out, dialer_within, dialer_state, DialPlays, RetiresPart};

    ghost seen = { dialer_view };

    ghost none_out = { dialer_none_out };

    ghost within = { dialer_within };

    fn stage(&mut self, alloc: Global, net: NetKind, peers: &PeerBook) -> Result<(), NoMem>
        requires { IsNone (dialer_view self.old).staged }
        ensures ok { OnOk result (dialer_view self.new ≡ record (dialer_view self.old) { staged = Some (record { net = net; peers = peers.now }) }) }
        ensures err { OnErr result (dialer_view self.new ≡ dialer_view self.old) }
        ensures parts { dialer_state self.new ≡ dialer_state self.old }
    {
        self.books.stage(alloc, net, peers)
    }

    fn dial(&mut self, alloc: Global, conn: ConnNo, target: &Target) -> Dialed<ScriptLink>
        requires { IsSome (dialer_view self.old).staged }
        ensures answer { Dials link_view (dialer_view self.old) conn.0 target.now result (dialer_view self.new) }
        ensures exact { DialPlays (dialer_state self.old) conn.0 result (dialer_state self.new) }
    {
        if self.books.reserve(alloc).is_err() {
            return Dialed::NoMem;
        }
        let Ok(target) = target.copy(alloc) else {
            return Dialed::NoMem;
        };
        let call = self.dials.saturating_add(1);
        let Some(part) = part_at(self.links.as_slice(), self.next, &self.dial_fails, call) else {
            self.dials = call;
            self.books.failed(conn, target);
            return Dialed::Failed;
        };
        let Ok(copies) = copy_part(alloc, part) else {
            return Dialed::NoMem;
        };
        let PartCopies {
            steps,
            write_fails,
            shown,
            kept,
        } = copies;
        self.dials = call;
        self.next += 1;
        let place = self.books.came_up(conn, target, kept);
        let link = ScriptLink::at_place(alloc, steps, write_fails, Some(conn), place.allowance);
        Dialed::Up(link, shown)
    }

    fn retire(&mut self, conn: ConnNo, link: ScriptLink)
        requires { IsOut conn.0 (link_view link).place (dialer_view self.old).out }
        ensures law { Retires (dialer_view self.old) (dialer_view self.new) conn.0 (link_view link) }
        ensures exact { RetiresPart (dialer_state self.old) (dialer_state self.new) (link_view link) }
    {
        let place = OutLink {
            conn: conn.0,
            allowance: link.allowance,
        };
        let tally = link.tally;
        let (written, received) = link.into_bytes();
        self.books.retire(conn, place, tally, written, received);
    }
}

/// The part of the next dial: none where that dial's number is among those that fail, and past the last part.
fn part_at<'a>(
    links: &'a [ScriptPart],
    next: usize,
    dial_fails: &[u64],
    call: u64,
) -> Option<&'a ScriptPart>
    ensures none { IsNone result → (Contains dial_fails.now call ⊎ length links.now ≤ next) }
    ensures unlisted { IfSome result (λ _. Contains dial_fails.now call → ⊥) }
    ensures part { IfSome result (λ part. slice_get links.now next ≡ Some part.now) }
{
    if dial_fails.contains(&call) {
        None
    } else {
        links.get(next)
    }
}

/// Copies of what a part gives.
fn copy_part(alloc: Global, part: &ScriptPart) -> Result<PartCopies, NoMem>
    ensures steps { IfOk result (λ it. it.steps ≡ part.now.steps) }
    ensures write_fails { IfOk result (λ it. it.write_fails.items ≡ part.now.write_fails) }
    ensures shown { IfOk result (λ it. it.shown ≡ part.now.identity) }
    ensures kept { IfOk result (λ it. it.kept ≡ part.now.identity) }
{
    Ok(PartCopies {
        steps: part.steps.copy(alloc)?,
        write_fails: Vec::from_slice(alloc, part.write_fails.as_slice())?,
        shown: part.identity.copy(alloc)?,
        kept: part.identity.copy(alloc)?,
    })
}
