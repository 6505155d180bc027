// A source in memory that fails where it is told to.
ghost use Rattle.std.specs.Prelude.{◌≡◌, ◌≤◌, ◌<◌, IfOk, vec_len};

use crate::octet_copy::put_front;
use crate::source::{Source, SourceRead};
use net_base::NoMem;
use std::alloc::Global;

/// A source in memory. It gives at most so many octets in a call, and fails at the calls whose numbers it was given.
#[derive(Drop)]
pub struct MemSource {
    bytes: Vec<u8>,
    at: usize,
    piece: usize,
    fails: Vec<u64>,
    calls: u64,
    faults: u64,
    ghost within: { at ≤ vec_len bytes },
    ghost some: { 0 < piece },
}

impl MemSource {
    ghost use Rattle.std.specs.Prelude.{Some};
    ghost use Rattle.edge_traits.specs.MemSources.{source_state, source_view};

    /// A source of the octets given, at most `piece` in a call. Calls are counted from 1.
    pub fn build(
        alloc: Global,
        bytes: &[u8],
        piece: usize,
        fails: &[u64],
    ) -> Result<MemSource, NoMem>
        requires { 1 ≤ piece }
        ensures state { IfOk result (λ it. source_state it ≡ record { left = bytes.now; piece = piece; fails = fails.now; calls = 0; faults = 0 }) }
        ensures view { IfOk result (λ it. source_view it ≡ record { faults = 0; left = Some bytes.now }) }
    {
        Ok(MemSource {
            bytes: Vec::from_slice(alloc, bytes)?,
            at: 0,
            piece,
            fails: Vec::from_slice(alloc, fails)?,
            calls: 0,
            faults: 0,
        })
    }
}

impl Source for MemSource {
    ghost use Rattle.std.specs.Prelude.{length};
    ghost use Rattle.edge_traits.specs.Sources.{SourceReads};
    ghost use Rattle.edge_traits.specs.MemSources.{source_state, source_view, SourcePlays};

    ghost seen = { source_view };

    fn read(&mut self, buf: &mut [u8]) -> SourceRead
        requires { 0 < length buf.old }
        ensures answer { SourceReads (source_view self.old) (length buf.old) buf.new result (source_view self.new) }
        ensures exact { SourcePlays (source_state self.old) (length buf.old) result (source_state self.new) }
    {
        self.calls = self.calls.saturating_add(1);
        if self.fails.contains(&self.calls) {
            self.faults = self.faults.saturating_add(1);
            return SourceRead::Failed;
        }
        let n = (self.bytes.len() - self.at).min(buf.len()).min(self.piece);
        if n == 0 {
            return SourceRead::End;
        }
        put_front(buf, &self.bytes[self.at..self.at + n]);
        self.at += n;
        SourceRead::Got(n)
    }
}
