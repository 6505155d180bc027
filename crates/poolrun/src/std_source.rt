// Standard input as a source.
ghost use Rattle.std.specs.Prelude.{◌≡◌, ◌≤◌, length, IfOk};

use edge_traits::{Source, SourceRead};
use std::io;
use std::io::Read;

/// Standard input. It tells no octets.
#[derive(Drop)]
pub struct StdinSource<R: Read + Drop> {
    reader: R,
    faults: u64,
}

impl<R: Read + Drop> StdinSource<R> {
    pub fn new(reader: R) -> StdinSource<R>
        ensures { result.faults ≡ 0 }
    {
        StdinSource { reader, faults: 0 }
    }
}

impl<R: Read + Drop> Source for StdinSource<R> {
    ghost use Rattle.std.specs.Prelude.{None};

    ghost seen = { λ s. record { faults = s.faults; left = None } };

    fn read(&mut self, buf: &mut [u8]) -> SourceRead {
        match read_through(&mut self.reader, buf) {
            Ok(0) => SourceRead::End,
            Ok(n) => SourceRead::Got(n),
            Err(_) => {
                self.faults = self.faults.saturating_add(1);
                SourceRead::Failed
            }
        }
    }
}

/// A read, made again where a signal interrupted it.
fn read_through<R: Read>(reader: &mut R, buf: &mut [u8]) -> io::Result<usize>
    ensures { IfOk result (λ n. n ≤ length buf.new) }
{
    for _ in 0..u64::MAX {
        match reader.read(buf) {
            Err(e) if e.kind() == io::ErrorKind::Interrupted => {}
            other => return other,
        }
    }
    reader.read(buf)
}
