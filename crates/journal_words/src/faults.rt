// Why a word can't be read.

/// Why a word, or a few words, can't be read.
#[derive(Clone, Copy, Debug, PartialEq, Eq)]
pub enum WordFault {
    /// There was no memory.
    NoMem,
    /// They aren't what the journal writes for any value of this kind that has a word of its own.
    Unreadable,
}

impl From<net_base::NoMem> for WordFault {
    ghost use Rattle.std.specs.Prelude.{◌≡◌};
    ghost use Rattle.journal_words.specs.declared.faults.WordFault.TheVariants as fault;

    ghost from_gives = { λ _ e. e ≡ fault.NoMem };

    fn from(_: net_base::NoMem) -> WordFault {
        WordFault::NoMem
    }
}

impl From<std::alloc::AllocError> for WordFault {
    ghost use Rattle.std.specs.Prelude.{◌≡◌};
    ghost use Rattle.journal_words.specs.declared.faults.WordFault.TheVariants as fault;

    ghost from_gives = { λ _ e. e ≡ fault.NoMem };

    fn from(_: std::alloc::AllocError) -> WordFault {
        WordFault::NoMem
    }
}
