// Where octets come from.
ghost use Rattle.std.specs.Prelude.{◌<◌, length};
ghost use Rattle.edge_traits.specs.Sources.{SourceView, SourceReads};

/// What a read of a source answers.
#[derive(Debug, Drop)]
pub enum SourceRead {
    /// So many octets stand at the front of the buffer. None means that there are none left.
    Got(usize),
    /// There are none left.
    End,
    /// The read failed.
    Failed,
}

/// A source of octets, as a program's input.
pub trait Source: Drop {
    /// The count of faults, and the octets left where the source tells them.
    ghost seen: { Self → SourceView };

    /// Reads into a buffer that isn't empty.
    fn read(&mut self, buf: &mut [u8]) -> SourceRead
        requires { 0 < length buf.old }
        ensures { SourceReads (seen self.old) (length buf.old) buf.new result (seen self.new) };
}
