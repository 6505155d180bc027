// A source in memory that never fails.
ghost use Rattle.std.specs.Prelude.{◌≡◌, ◌≤◌, IfOk, vec_len};

use crate::octet_copy::put_front;
use crate::source::{Source, SourceRead};
use net_base::NoMem;
use std::alloc::Global;

/// A source in memory that never fails. It gives all that is left, or as much as the buffer holds.
#[derive(Drop)]
pub struct SteadySource {
    bytes: Vec<u8>,
    at: usize,
    ghost within: { at ≤ vec_len bytes },
}

impl SteadySource {
    ghost use Rattle.std.specs.Prelude.{Some};
    ghost use Rattle.edge_traits.specs.MemSources.{steady_view};

    /// A source of the octets given.
    pub fn build(alloc: Global, bytes: &[u8]) -> Result<SteadySource, NoMem>
        ensures { IfOk result (λ it. steady_view it ≡ record { faults = 0; left = Some bytes.now }) }
    {
        Ok(SteadySource {
            bytes: Vec::from_slice(alloc, bytes)?,
            at: 0,
        })
    }
}

impl Source for SteadySource {
    ghost use Rattle.std.specs.Prelude.{◌<◌, length};
    ghost use Rattle.edge_traits.specs.Sources.{SourceReads};
    ghost use Rattle.edge_traits.specs.MemSources.{steady_view, steady_left, SteadyPlays};

    ghost seen = { steady_view };

    fn read(&mut self, buf: &mut [u8]) -> SourceRead
        requires { 0 < length buf.old }
        ensures answer { SourceReads (steady_view self.old) (length buf.old) buf.new result (steady_view self.new) }
        ensures exact { SteadyPlays (steady_left self.old) (length buf.old) result (steady_left self.new) }
    {
        let n = (self.bytes.len() - self.at).min(buf.len());
        if n == 0 {
            return SourceRead::End;
        }
        put_front(buf, &self.bytes[self.at..self.at + n]);
        self.at += n;
        SourceRead::Got(n)
    }
}
