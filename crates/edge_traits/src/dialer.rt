// What makes links.
ghost use Rattle.std.specs.Prelude.{◌≡◌, ◌≤◌, [], None, IsSome, IsNone, OnOk, OnErr};
ghost use Rattle.edge_traits.specs.Dialers.{DialerView, Stages, Dials, Retires, IsOut};
ghost use Rattle.edge_traits.specs.declared.dialer.TheConstants.{MOST_OCTETS};

use crate::link::Link;
use net_base::{ConnNo, Identity, NoMem, PeerBook, Target};
use std::alloc::Global;

/// How many octets all links of a dialer give at most.
pub const MOST_OCTETS: u64 = 4294967296;

/// The net in which peers are dialed: scripted peers in memory, or TCP over loopback.
#[derive(Clone, Copy, Debug, PartialEq, Eq)]
pub enum NetKind {
    Inner,
    Tcp,
}

/// What a dial answers.
#[derive(Drop)]
pub enum Dialed<L> {
    /// A link, and what its other side has shown of itself.
    Up(L, Identity),
    /// The dial failed.
    Failed,
    /// There was no memory.
    NoMem,
}

/// A dialer: it makes links, and takes them back with what went over them.
pub trait Dialer: Drop {
    type Link: Link;

    /// The counts, what is left for links to give, the links that are out, the log, the records, and what was staged.
    ghost seen: { Self → DialerView };

    /// Hands in the peers that are dialed from now on. It comes once. After `NoMem` nothing has changed.
    fn stage(&mut self, alloc: Global, net: NetKind, peers: &PeerBook) -> Result<(), NoMem>
        requires { IsNone (seen self.old).staged }
        ensures ok { OnOk result (Stages (seen self.old) (seen self.new) net peers.now) }
        ensures err { OnErr result (seen self.new ≡ seen self.old) };

    /// Dials a target for a connection. It reserves the place of the link's line in the log, so that `retire` takes no
    /// memory.
    fn dial(&mut self, alloc: Global, conn: ConnNo, target: &Target) -> Dialed<Self::Link>
        requires { IsSome (seen self.old).staged }
        ensures { Dials Self.Link.seen (seen self.old) conn.0 target.now result (seen self.new) };

    /// Takes back a link that this dialer's `dial` gave for the connection and that wasn't retired yet.
    fn retire(&mut self, conn: ConnNo, link: Self::Link)
        requires { IsOut conn.0 (Self.Link.seen link).place (seen self.old).out }
        ensures { Retires (seen self.old) (seen self.new) conn.0 (Self.Link.seen link) };

    /// Before it was staged, no link is out.
    ghost none_out: { (dialer : Self) → (seen dialer).staged ≡ None → (seen dialer).out ≡ [] };

    /// Never are more than `MOST_OCTETS` octets left for its links to be given.
    ghost within: { (dialer : Self) → (seen dialer).left ≤ MOST_OCTETS };
}
