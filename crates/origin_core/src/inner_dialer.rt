// The dialer of scripted origins in memory.
ghost use Rattle.std.specs.Prelude.{◌≡◌, ◌+◌, [], ◌∷◌, IfOk, IsNone, IsSome, OnOk, OnErr, find, Some};
ghost use Rattle.std.specs.Option.{option_copied};
ghost use Rattle.edge_traits.specs.Dialers.{Stages, Dials, Retires, IsOut};
ghost use Rattle.edge_traits.specs.Books.{unused_view, peers_of};
ghost use Rattle.origin_core.specs.InnerLinks.{link_view};
ghost use Rattle.origin_core.specs.InnerDialers as spec;
ghost use Rattle.origin_core.specs.InnerDialers.{identity_of, AreCopies};

use crate::inner_link::InnerLink;
use edge_traits::{Books, Dialed, Dialer, NetKind};
use net_base::{ActKind, ConnNo, Identity, NoMem, Peer, PeerAct, PeerBook, PlainValue, Target};
use std::alloc::Global;

/// A dialer that runs scripted origins in memory and tells all octets. Whatever a peer's protocol, its links put what
/// an HTTP/1.1 origin puts: only HTTP/1.1 peers are scripted yet.
#[derive(Debug, Drop)]
pub struct InnerDialer {
    books: Books,
}

/// Copies of the peer that a dial reaches, and of what it shows: one for the caller, one for the record.
#[derive(Debug, Drop)]
struct PeerCopies {
    peer: Peer,
    shown: Identity,
    kept: Identity,
}

impl InnerDialer {
    ghost use Rattle.origin_core.specs.InnerDialers.{dialer_view};

    /// A dialer that has dialed nothing. It takes no memory.
    pub fn new() -> InnerDialer
        ensures { dialer_view result ≡ unused_view }
    {
        InnerDialer {
            books: Books::new(),
        }
    }
}

impl Dialer for InnerDialer {
    type Link = InnerLink;

    ghost use Rattle.origin_core.specs.InnerDialers.{dialer_view, dialer_within, dialer_none_out, DialsPeer, DialsExactly};

    ghost seen = { dialer_view };

    /// Keeps a copy of the peers.
    fn stage(&mut self, alloc: Global, net: NetKind, peers: &PeerBook) -> Result<(), NoMem> {
        self.books.stage(alloc, net, peers)
    }

    /// Comes up with the first peer that has the target's host, port and security; fails exactly where there is none,
    /// or where a `nodial` act of that peer fits the connection. The link may give the half of what is left, rounded up.
    fn dial(&mut self, alloc: Global, conn: ConnNo, target: &Target) -> Dialed<InnerLink>
        requires { IsSome (dialer_view self.old).staged }
        ensures law { Dials link_view (dialer_view self.old) conn.0 target.now result (dialer_view self.new) }
        ensures peer { DialsPeer (peers_of (dialer_view self.old).staged) conn.0 target.now result }
        ensures exact { DialsExactly (dialer_view self.old) result (dialer_view self.new) }
    {
        if self.books.reserve(alloc).is_err() {
            return Dialed::NoMem;
        }
        let Ok(recorded) = target.copy(alloc) else {
            return Dialed::NoMem;
        };
        let Ok(found) = copy_peer(alloc, self.books.peers(), conn, target) else {
            return Dialed::NoMem;
        };
        let Some(PeerCopies { peer, shown, kept }) = found else {
            self.books.failed(conn, recorded);
            return Dialed::Failed;
        };
        let place = self.books.came_up(conn, recorded, kept);
        Dialed::Up(InnerLink::dialed(alloc, peer, place), shown)
    }

    /// What the link didn't give of its allowance comes back.
    fn retire(&mut self, conn: ConnNo, link: InnerLink)
        requires { IsOut conn.0 (link_view link).place (dialer_view self.old).out }
        ensures law { Retires (dialer_view self.old) (dialer_view self.new) conn.0 (link_view link) }
        ensures back { (dialer_view self.new).left + (link_view link).gave ≡ (dialer_view self.old).left + (link_view link).allowance }
    {
        let place = link.place;
        let tally = link.tally;
        let (written, received) = link.into_octets();
        self.books.retire(conn, place, tally, written, received);
    }

    ghost none_out = { dialer_none_out };

    ghost within = { dialer_within };
}

/// Copies of the peer that a dial reaches.
fn copy_peer(
    alloc: Global,
    peers: &[Peer],
    conn: ConnNo,
    target: &Target,
) -> Result<Option<PeerCopies>, NoMem>
    ensures { IfOk result (AreCopies peers.now conn.0 target.now) }
{
    match reached(peers, conn, target) {
        None => Ok(None),
        Some(peer) => Ok(Some(PeerCopies {
            peer: peer.copy(alloc)?,
            shown: identity_of(alloc, peer)?,
            kept: identity_of(alloc, peer)?,
        })),
    }
}

/// What a peer shows of itself.
fn identity_of(alloc: Global, peer: &Peer) -> Result<Identity, NoMem>
    ensures { IfOk result (λ it. it ≡ spec.identity_of peer.now) }
{
    Ok(Identity {
        names: peer.names.copy(alloc)?,
        secure: peer.secure,
        proto: peer.proto,
        address: peer.address,
    })
}

/// The peer that a dial reaches.
fn reached<'a>(peers: &'a [Peer], conn: ConnNo, target: &Target) -> Option<&'a Peer>
    ensures { option_copied result ≡ spec.reached peers.now conn.0 target.now }
{
    match first_at(peers, target) {
        None => None,
        Some(peer) => {
            if refuses(conn, peer) {
                return None;
            }
            Some(peer)
        }
    }
}

/// The first peer with the target's host, port and security.
fn first_at<'a>(peers: &'a [Peer], target: &Target) -> Option<&'a Peer>
    ensures { option_copied result ≡ find (spec.is_at target.now) peers.now }
{
    peers.iter().find(|peer| is_at(target, peer))
}

/// Whether a peer has the target's host, port and security.
fn is_at(target: &Target, peer: &Peer) -> bool
    ensures { result ≡ spec.is_at target.now peer.now }
{
    peer.host.as_slice() == target.host.as_slice()
        && peer.port == target.port
        && same_security(peer.secure, target.secure)
}

/// Whether both are secured, or neither.
fn same_security(a: bool, b: bool) -> bool
    ensures { result ≡ spec.same_security a b }
{
    if a { b } else { !b }
}

/// Whether a `nodial` act of a peer fits a connection.
fn refuses(conn: ConnNo, peer: &Peer) -> bool
    ensures { result ≡ spec.refuses conn.0 peer.now }
{
    peer.acts.as_slice().iter().any(|act| is_refusal(conn, act))
}

/// Whether an act is a `nodial` of this connection, or of each.
fn is_refusal(conn: ConnNo, act: &PeerAct) -> bool
    ensures { result ≡ spec.is_refusal conn.0 act.now }
{
    is_act_of(conn, &act.conn) && is_no_dial(&act.kind)
}

/// Whether an act with this connection is one of the connection.
fn is_act_of(conn: ConnNo, own: &Option<ConnNo>) -> bool
    ensures { result ≡ spec.is_act_of conn.0 own.now }
{
    match own {
        None => true,
        Some(own) => own.0 == conn.0,
    }
}

/// Whether an act is a `nodial`.
fn is_no_dial(kind: &ActKind) -> bool
    ensures { result ≡ spec.is_no_dial kind.now }
{
    matches!(kind, ActKind::NoDial)
}

#[cfg(test)]
mod tests;
