// Why octets are no journal.

/// Why octets are no journal.
#[derive(Clone, Copy, Debug, PartialEq, Eq)]
pub enum JournalFault {
    /// There was no memory.
    NoMem,
    /// The line with this number, counted from 1, is the first that is none of a journal. An `end` line with another
    /// number than that of the entries is such a line too.
    BadLine(u64),
    /// There is no `end` line, and every whole line is good.
    Truncated,
}

impl From<net_base::NoMem> for JournalFault {
    ghost use Rattle.std.specs.Prelude.{◌≡◌};
    ghost use Rattle.journal_text.specs.declared.faults.JournalFault.TheVariants as fault;

    ghost from_gives = { λ _ e. e ≡ fault.NoMem };

    fn from(_: net_base::NoMem) -> JournalFault {
        JournalFault::NoMem
    }
}
