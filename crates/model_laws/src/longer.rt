// Which calls make a history longer.
ghost use Rattle.model_laws.specs.LongerLaws.{CallsMakeHistories, DueIgnoresEntries, LateIgnoresEntries};

/// A legal call at the state that a history leaves, and behind it entries of the pool itself up to a settled state, make a history.
#[tactic(auto, using(crate::proofs::LongerLemmas::calls_make_histories))]
pub fn calls_make_histories()
    ensures { CallsMakeHistories }
{}

/// What is due is due whatever the number of entries.
#[tactic(auto, using(crate::proofs::LongerLemmas::due_ignores_entries))]
pub fn due_ignores_entries()
    ensures { DueIgnoresEntries }
{}

/// A look is late where something is due once the greatest moment alone is raised to its own.
pub fn late_ignores_entries()
    ensures { LateIgnoresEntries }
{}
