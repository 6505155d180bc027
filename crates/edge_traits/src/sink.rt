// Where octets go.
ghost use Rattle.std.specs.Prelude.{◌<◌, length};
ghost use Rattle.edge_traits.specs.Sinks.{SinkView, SinkWrites};

use std::alloc::Global;

/// What a write to a sink answers.
#[derive(Debug, Drop)]
pub enum SinkWrite {
    /// So many octets of the front of the piece were taken. None counts as a fault.
    Took(usize),
    /// The write failed.
    Failed,
    /// There was no memory, and nothing has changed.
    NoMem,
}

/// A sink for octets, as a program's output.
pub trait Sink: Drop {
    /// The count of faults, and the octets written where the sink tells them.
    ghost seen: { Self → SinkView };

    /// Writes a piece that isn't empty.
    fn write(&mut self, alloc: Global, piece: &[u8]) -> SinkWrite
        requires { 0 < length piece.now }
        ensures { SinkWrites (seen self.old) piece.now result (seen self.new) };
}
