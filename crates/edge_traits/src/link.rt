// One connection's octets, both ways.
ghost use Rattle.std.specs.Prelude.{◌≡◌, ◌⊎◌, ◌<◌, length};
ghost use Rattle.edge_traits.specs.Links.{LinkView, LinkReads, LinkWrites, LinkKeeps, IsWithinAllowance};

use std::alloc::Global;

/// What a read of a link answers.
#[derive(Debug, Drop)]
pub enum LinkRead {
    /// So many octets stand at the front of the buffer. None means the end.
    Got(usize),
    /// Nothing is there now.
    Quiet,
    /// The other side has ended, or the link's allowance is used up.
    End,
    /// The read failed.
    Failed,
    /// There was no memory, and nothing of the link has changed.
    NoMem,
}

/// What a write to a link answers.
#[derive(Debug, Drop)]
pub enum LinkWrite {
    /// So many octets of the front of the piece were taken. None counts as a fault.
    Took(usize),
    /// Nothing can be taken now.
    Quiet,
    /// The write failed.
    Failed,
    /// There was no memory, and nothing of the link has changed.
    NoMem,
}

/// A link: the octets of one connection, both ways.
pub trait Link: Drop {
    /// The link's place, its allowance, how much it gave and took, its counts, and what was written and received where
    /// it tells that.
    ghost seen: { Self → LinkView };

    /// Reads into a buffer that isn't empty. Once the link gave all of its allowance, it answers `End`.
    fn read(&mut self, alloc: Global, buf: &mut [u8]) -> LinkRead
        requires { 0 < length buf.old }
        ensures answer { LinkReads (seen self.old) (length buf.old) buf.new result (seen self.new) }
        ensures keeps { LinkKeeps (seen self.old) (seen self.new) }
        ensures used_up { (seen self.old).gave ≡ (seen self.old).allowance → result ≡ LinkRead.End };

    /// Writes a piece that isn't empty. Once the link took 18446744073709551615 octets, it answers `Failed` or `NoMem`.
    fn write(&mut self, alloc: Global, piece: &[u8]) -> LinkWrite
        requires { 0 < length piece.now }
        ensures answer { LinkWrites (seen self.old) piece.now result (seen self.new) }
        ensures keeps { LinkKeeps (seen self.old) (seen self.new) }
        ensures full { (seen self.old).took ≡ 18446744073709551615
            → (result ≡ LinkWrite.Failed) ⊎ (result ≡ LinkWrite.NoMem) };

    /// It gives no more than its allowance, and takes no more than 18446744073709551615 octets.
    ghost within: { (link : Self) → IsWithinAllowance (seen link) };
}
