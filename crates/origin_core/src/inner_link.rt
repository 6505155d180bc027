// A link to a scripted origin in memory.
ghost use Rattle.std.specs.Prelude.{◌≡◌, ◌≤◌, ◌<◌, ◌++◌, [], length};
ghost use Rattle.plain_values.specs.Fronts.{IsFrontOf};
ghost use Rattle.origin_core.specs.ScriptedOrigin.{IsOriginAt, put_of};

use crate::scripted_origin::ScriptedOrigin;
use edge_traits::{Link, LinkRead, LinkWrite, NO_TALLY, OutLink, Tally, put_front};
use net_base::Peer;
use std::alloc::Global;

/// A link to a scripted peer. Whatever the peer's protocol, it puts what an HTTP/1.1 origin puts: only HTTP/1.1 peers
/// are scripted yet.
#[derive(Debug, Drop)]
pub struct InnerLink {
    pub(crate) peer: Peer,
    pub(crate) origin: ScriptedOrigin,
    pub(crate) written: Vec<u8>,
    pub(crate) received: Vec<u8>,
    pub(crate) tally: Tally,
    pub(crate) place: OutLink,
    ghost within: { length received.items ≤ place.allowance },
    ghost short: { length written.items < 18446744073709551615 },
    ghost origin_at: { IsOriginAt peer written.items origin },
    ghost given: { IsFrontOf received.items (put_of origin) },
}

impl InnerLink {
    ghost use Rattle.edge_traits.specs.Counts.{no_counts};
    ghost use Rattle.edge_traits.specs.BookLinks.{out_link_view};
    ghost use Rattle.origin_core.specs.InnerLinks.{link_view, peer_of};

    /// A link as it comes from its dial. It takes no memory.
    pub(crate) fn dialed(alloc: Global, peer: Peer, place: OutLink) -> InnerLink
        ensures view { link_view result ≡ out_link_view place no_counts [] [] }
        ensures peer { peer_of result ≡ peer }
    {
        InnerLink {
            peer,
            origin: ScriptedOrigin::new(),
            written: Vec::new(alloc),
            received: Vec::new(alloc),
            tally: NO_TALLY,
            place,
        }
    }

    /// What was written to it, and what was received from it.
    pub(crate) fn into_octets(self) -> (Vec<u8>, Vec<u8>)
        ensures written { result.0 ≡ self.written }
        ensures received { result.1 ≡ self.received }
    {
        (self.written, self.received)
    }
}

impl Link for InnerLink {
    ghost use Rattle.std.specs.Prelude.{◌⊎◌};
    ghost use Rattle.edge_traits.specs.Links.{LinkReads, LinkWrites, LinkKeeps};
    ghost use Rattle.origin_core.specs.InnerLinks.{link_view, link_within, peer_of, ReadsPut, CountsRead};

    ghost seen = { link_view };

    /// Gives the next octets of what the origin puts for what was written. It never fails, and counts each Quiet and each
    /// End once.
    #[tactic(auto, using(plain_values::proofs::Fronts::front_on))]
    fn read(&mut self, alloc: Global, buf: &mut [u8]) -> LinkRead
        requires { 0 < length buf.old }
        ensures answer { LinkReads (link_view self.old) (length buf.old) buf.new result (link_view self.new) }
        ensures keeps { LinkKeeps (link_view self.old) (link_view self.new) }
        ensures used_up { (link_view self.old).gave ≡ (link_view self.old).allowance → result ≡ LinkRead.End }
        ensures puts { ReadsPut self.old result self.new }
        ensures peer { peer_of self.new ≡ peer_of self.old }
        ensures counted { CountsRead (link_view self.old).counts result (link_view self.new).counts }
    {
        let room = self.place.allowance - self.received.len() as u64;
        if room == 0 {
            self.tally.ends = self.tally.ends.saturating_add(1);
            return LinkRead::End;
        }
        let Ok(over) = self
            .origin
            .answer(alloc, &self.peer, self.written.as_slice())
        else {
            return LinkRead::NoMem;
        };
        let piece = next_piece(self.origin.put(), self.received.as_slice(), buf.len(), room);
        if piece.is_empty() {
            if over {
                self.tally.ends = self.tally.ends.saturating_add(1);
                return LinkRead::End;
            }
            self.tally.read_quiets = self.tally.read_quiets.saturating_add(1);
            return LinkRead::Quiet;
        }
        if self.received.extend_from_slice(piece).is_err() {
            return LinkRead::NoMem;
        }
        put_front(buf, piece);
        LinkRead::Got(piece.len())
    }

    /// Takes the whole piece. It never fails, and counts nothing.
    #[tactic(auto, using(crate::proofs::Origins::origin_longer))]
    fn write(&mut self, _alloc: Global, piece: &[u8]) -> LinkWrite
        requires { 0 < length piece.now }
        ensures answer { LinkWrites (link_view self.old) piece.now result (link_view self.new) }
        ensures keeps { LinkKeeps (link_view self.old) (link_view self.new) }
        ensures full { (link_view self.old).took ≡ 18446744073709551615
            → (result ≡ LinkWrite.Failed) ⊎ (result ≡ LinkWrite.NoMem) }
        ensures whole { (result ≡ LinkWrite.Took (length piece.now)) ⊎ (result ≡ LinkWrite.NoMem) }
        ensures peer { peer_of self.new ≡ peer_of self.old }
        ensures counted { (link_view self.new).counts ≡ (link_view self.old).counts }
    {
        if self.written.extend_from_slice(piece).is_err() {
            return LinkWrite::NoMem;
        }
        LinkWrite::Took(piece.len())
    }

    ghost within = { link_within };
}

/// The next octets of what was put, behind those that were given.
fn next_piece<'a>(put: &'a [u8], given: &[u8], most: usize, room: u64) -> &'a [u8]
    requires front { IsFrontOf given.now put.now }
    requires some { 0 < most }
    requires left { 0 < room }
    ensures next { IsFrontOf (given.now ++ result.now) put.now }
    ensures most { length result.now ≤ most }
    ensures room { length result.now ≤ room }
    ensures all { result.now ≡ [] → put.now ≡ given.now }
{
    let at = given.len();
    let n = (put.len() - at)
        .min(most)
        .min(usize::try_from(room).unwrap_or(usize::MAX));
    &put[at..at + n]
}
