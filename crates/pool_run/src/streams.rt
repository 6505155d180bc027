// Input read to its end, and output written whole.
ghost use Rattle.pool_run.specs.Streams.{ReadsInput, WritesText};

use edge_traits::{Sink, SinkWrite, Source, SourceRead};
use net_base::{NoMem, Octets};
use std::alloc::Global;

/// The most octets of an input, 64 MiB.
pub(crate) const MOST_INPUT: usize = 67108864;

/// The octets that one read asks for.
const PIECE_OCTETS: usize = 16384;

/// What reading an input came to.
#[derive(Debug, Drop)]
pub enum Input {
    /// All octets, at most `MOST_INPUT`.
    All(Octets),
    /// There are more.
    TooMany,
    /// A read failed.
    Failed,
}

/// What writing a text came to.
#[derive(Clone, Copy, Debug, PartialEq, Eq)]
pub enum Output {
    Whole,
    /// A write failed, or took nothing.
    Failed,
    /// The sink had no memory.
    NoMem,
}

/// Reads a source to its end, or past the most octets of an input.
pub(crate) fn read_input<S: Source>(alloc: Global, source: &mut S) -> Result<Input, NoMem>
    ensures { ReadsInput (S.seen source.old) result (S.seen source.new) }
{
    let mut octets = Octets::new();
    let mut buffer = [0; PIECE_OCTETS];
    while octets.len() <= MOST_INPUT {
        match source.read(&mut buffer) {
            SourceRead::Got(0) => return Ok(Input::All(octets)),
            SourceRead::Got(n) => octets.extend(alloc, &buffer[..n])?,
            SourceRead::End => return Ok(Input::All(octets)),
            SourceRead::Failed => return Ok(Input::Failed),
        }
    }
    Ok(Input::TooMany)
}

/// Writes a text.
pub(crate) fn write_text<K: Sink>(alloc: Global, sink: &mut K, text: &[u8]) -> Output
    ensures { WritesText (K.seen sink.old) text.now result (K.seen sink.new) }
{
    let mut at = 0;
    while at < text.len() {
        match sink.write(alloc, &text[at..]) {
            SinkWrite::Took(0) => return Output::Failed,
            SinkWrite::Took(n) => at += n,
            SinkWrite::Failed => return Output::Failed,
            SinkWrite::NoMem => return Output::NoMem,
        }
    }
    Output::Whole
}
