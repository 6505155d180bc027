// A sink in memory that fails where it is told to.
ghost use Rattle.std.specs.Prelude.{◌≡◌, ◌≤◌, ◌<◌, [], IfOk};

use crate::sink::{Sink, SinkWrite};
use net_base::NoMem;
use std::alloc::Global;

/// A sink in memory. It takes at most so many octets in a call, and fails at the calls whose numbers it was given. A call
/// for which there is no memory isn't counted.
#[derive(Drop)]
pub struct MemSink {
    written: Vec<u8>,
    piece: usize,
    fails: Vec<u64>,
    calls: u64,
    faults: u64,
    ghost some: { 0 < piece },
}

impl MemSink {
    ghost use Rattle.std.specs.Prelude.{Some};
    ghost use Rattle.edge_traits.specs.MemSinks.{sink_state, sink_view};

    /// A sink that takes at most `piece` octets in a call. Calls are counted from 1.
    pub fn build(alloc: Global, piece: usize, fails: &[u64]) -> Result<MemSink, NoMem>
        requires { 1 ≤ piece }
        ensures state { IfOk result (λ it. sink_state it ≡ record { written = []; piece = piece; fails = fails.now; calls = 0; faults = 0 }) }
        ensures view { IfOk result (λ it. sink_view it ≡ record { faults = 0; written = Some [] }) }
    {
        Ok(MemSink {
            written: Vec::new(alloc),
            piece,
            fails: Vec::from_slice(alloc, fails)?,
            calls: 0,
            faults: 0,
        })
    }

    /// All that was written.
    pub fn written(&self) -> &[u8]
        ensures { (sink_view self.now).written ≡ Some result.now }
    {
        &self.written
    }
}

impl Sink for MemSink {
    ghost use Rattle.std.specs.Prelude.{length};
    ghost use Rattle.edge_traits.specs.Sinks.{SinkWrites};
    ghost use Rattle.edge_traits.specs.MemSinks.{sink_state, sink_view, SinkPlays};

    ghost seen = { sink_view };

    fn write(&mut self, _alloc: Global, piece: &[u8]) -> SinkWrite
        requires { 0 < length piece.now }
        ensures answer { SinkWrites (sink_view self.old) piece.now result (sink_view self.new) }
        ensures exact { SinkPlays (sink_state self.old) piece.now result (sink_state self.new) }
    {
        let call = self.calls.saturating_add(1);
        if self.fails.contains(&call) {
            self.calls = call;
            self.faults = self.faults.saturating_add(1);
            return SinkWrite::Failed;
        }
        let n = piece.len().min(self.piece);
        if self.written.extend_from_slice(&piece[..n]).is_err() {
            return SinkWrite::NoMem;
        }
        self.calls = call;
        SinkWrite::Took(n)
    }
}
