// A sink in memory that never fails.
ghost use Rattle.std.specs.Prelude.{◌≡◌, []};

use crate::sink::{Sink, SinkWrite};
use net_base::Octets;
use std::alloc::Global;

/// A sink in memory that never fails. It takes each piece whole.
#[derive(Drop)]
pub struct SteadySink {
    written: Octets,
}

impl SteadySink {
    ghost use Rattle.std.specs.Prelude.{Some};
    ghost use Rattle.edge_traits.specs.MemSinks.{steady_view};

    /// A sink to which nothing was written.
    pub fn new() -> SteadySink
        ensures { steady_view result ≡ record { faults = 0; written = Some [] } }
    {
        SteadySink {
            written: Octets::new(),
        }
    }

    /// All that was written.
    pub fn written(&self) -> &[u8]
        ensures { (steady_view self.now).written ≡ Some result.now }
    {
        self.written.as_slice()
    }
}

impl Sink for SteadySink {
    ghost use Rattle.std.specs.Prelude.{◌<◌, length};
    ghost use Rattle.edge_traits.specs.Sinks.{SinkWrites};
    ghost use Rattle.edge_traits.specs.MemSinks.{steady_view, steady_written, SteadyPlays};

    ghost seen = { steady_view };

    fn write(&mut self, alloc: Global, piece: &[u8]) -> SinkWrite
        requires { 0 < length piece.now }
        ensures answer { SinkWrites (steady_view self.old) piece.now result (steady_view self.new) }
        ensures exact { SteadyPlays (steady_written self.old) piece.now result (steady_written self.new) }
    {
        match self.written.extend(alloc, piece) {
            Ok(()) => SinkWrite::Took(piece.len()),
            Err(_) => SinkWrite::NoMem,
        }
    }
}
