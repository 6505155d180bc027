use super::*;
use std::io::Read;
use std::test::Fail;

/// Gives these octets, one a read, and then fails.
#[derive(Drop)]
struct Failing<'a> {
    octets: &'a [u8],
}

impl Read for Failing<'_> {
    fn read(&mut self, buf: &mut [u8]) -> io::Result<usize> {
        match (self.octets.split_first(), buf.first_mut()) {
            (Some((octet, rest)), Some(place)) => {
                *place = *octet;
                self.octets = rest;
                Ok(1)
            }
            _ => Err(io::Error::from(io::ErrorKind::BrokenPipe)),
        }
    }
}

#[test]
fn lines_before_a_failed_read_are_answered(rt: HostRuntime) -> Result<(), Fail> {
    let alloc = rt.alloc();
    let mut input = BufReader::new(
        alloc,
        Failing {
            octets: b"{}\n{\"kind\"",
        },
    )?;
    let mut output = Vec::new(alloc);
    let end = answer_lines(alloc, &mut input, &mut output);
    assert_eq!(rt; end, Err(Stop::ReadFailed));
    assert_eq!(rt; output.as_slice(), b"{\"bad\":\"no-kind\"}\n".as_slice());
    Ok(())
}

#[test]
fn a_failed_write_ends_the_lines(rt: HostRuntime) {
    let mut input: &[u8] = b"{}\n[]\n{}\n";
    let mut room = [0; 20];
    let mut output = room.as_mut_slice();
    let end = answer_lines(rt.alloc(), &mut input, &mut output);
    assert_eq!(rt; end, Err(Stop::WriteFailed));
    assert_eq!(rt; room.as_slice(), b"{\"bad\":\"no-kind\"}\n{\"".as_slice());
}

#[test]
fn a_line_longer_than_a_read_is_one_line(rt: HostRuntime) -> Result<(), Fail> {
    let alloc = rt.alloc();
    let mut line = vec![in alloc; b' '; 20000]?;
    line.extend_from_slice(b"{}\n[]")?;
    let mut input = BufReader::new(alloc, line.as_slice())?;
    let mut output = Vec::new(alloc);
    assert_eq!(rt; answer_lines(alloc, &mut input, &mut output), Ok(()));
    assert_eq!(rt;
        output.as_slice(),
        b"{\"bad\":\"no-kind\"}\n{\"bad\":\"not-an-object\"}\n".as_slice()
    );
    Ok(())
}
