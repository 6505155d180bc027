// What a pair is judged to be.
use net_base::NoMem;
use scenario_text::ScenarioFault;

/// What the journal of a pair is judged to be.
#[derive(Clone, Copy, Debug, PartialEq, Eq)]
pub enum Verdict {
    /// It is that of a history, which has so many entries.
    Legal(u64),
    /// The line of the journal, counted from 1, that is the first to keep it from being that of a history.
    Illegal(u64),
}

/// Why octets are no pair that can be judged.
#[derive(Debug, Drop)]
pub enum ReplayFault {
    /// There was no memory.
    NoMem,
    /// No line is exactly `--`.
    NoJournal,
    /// What stands before that line is no scenario.
    Scenario(ScenarioFault),
    /// The line of the journal, counted from 1, that is the first that is none of a journal.
    Line(u64),
    /// The journal has no `end` line, and every whole line of it is good.
    Truncated,
}

impl From<NoMem> for ReplayFault {
    ghost use Rattle.std.specs.Prelude.{◌≡◌};
    ghost use Rattle.journal_replay.specs.declared.verdict.ReplayFault.TheVariants as fault;

    ghost from_gives = { λ _ e. e ≡ fault.NoMem };

    fn from(_: NoMem) -> ReplayFault {
        ReplayFault::NoMem
    }
}
