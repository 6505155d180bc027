// Where a pair parts.
ghost use Rattle.std.specs.Prelude.{MatchOption};
ghost use Rattle.journal_replay.specs.Pairs.{HasNoSeparator, IsPair};

use plain_values::first_line;

/// What stands before the first line that is the separator, and what stands behind it.
#[derive(Drop)]
pub(crate) struct Pair<'t> {
    pub(crate) scenario: &'t [u8],
    pub(crate) journal: &'t [u8],
}

/// Parts octets at the first line that is the separator.
pub(crate) fn parts_of<'t>(bytes: &'t [u8]) -> Option<Pair<'t>>
    ensures { MatchOption result (HasNoSeparator bytes.now) (λ pair. IsPair bytes.now pair.scenario.now pair.journal.now) }
{
    let mut read = 0;
    let mut rest = bytes;
    while let Some(cut) = first_line(rest) {
        if cut.line == b"--".as_slice() {
            return Some(Pair {
                scenario: &bytes[..read],
                journal: cut.behind,
            });
        }
        read += cut.line.len() + 1;
        rest = cut.behind;
    }
    None
}
