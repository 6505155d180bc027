// Standard output as a sink.
ghost use Rattle.std.specs.Prelude.{◌≡◌};

use edge_traits::{Sink, SinkWrite};
use std::alloc::Global;
use std::io::Write;

/// Standard output. It tells no octets.
#[derive(Drop)]
pub struct StdoutSink<W: Write + Drop> {
    writer: W,
    faults: u64,
}

impl<W: Write + Drop> StdoutSink<W> {
    pub fn new(writer: W) -> StdoutSink<W>
        ensures { result.faults ≡ 0 }
    {
        StdoutSink { writer, faults: 0 }
    }
}

impl<W: Write + Drop> Sink for StdoutSink<W> {
    ghost use Rattle.std.specs.Prelude.{None};

    ghost seen = { λ s. record { faults = s.faults; written = None } };

    fn write(&mut self, _alloc: Global, piece: &[u8]) -> SinkWrite {
        match self.writer.write(piece) {
            Ok(n) if n > 0 => SinkWrite::Took(n),
            _ => {
                self.faults = self.faults.saturating_add(1);
                SinkWrite::Failed
            }
        }
    }
}
