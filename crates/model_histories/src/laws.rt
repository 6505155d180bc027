// Laws of histories, each a fact without a computation.
ghost use Rattle.model_histories.specs.Reading.{OwnReadingsGrow};
ghost use Rattle.model_histories.specs.Working.{HoldsAsStateSays, ReportsAsStateSays, EndsAsStateSays, WorksAsStateSays, WantedAreUntouched};

/// In each history, what a caller holds of a connection by its own entries alone is what the pool's state says: whether it
/// works on the connection, how many octets were sent, whether it was opened, and which streams were started.
#[tactic(auto, using(crate::proofs::WorkingLemmas::holds_as_state_says))]
pub fn holds_as_state_says()
    ensures { HoldsAsStateSays }
{}

/// In each history, what a caller may report at a port is what is legal for it at the state.
#[tactic(auto, using(crate::proofs::AllowedLemmas::reports_as_state_says))]
pub fn reports_as_state_says()
    ensures { ReportsAsStateSays }
{}

/// In each history, how a caller may give up a connection at a port is what is legal for it at the state.
#[tactic(auto, using(crate::proofs::AllowedLemmas::ends_as_state_says))]
pub fn ends_as_state_says()
    ensures { EndsAsStateSays }
{}

/// In each history, a caller may ask a port for the orders of just those connections that the state has as its own and
/// as open, draining or closing, with no fewer octets sent.
#[tactic(auto, using(crate::proofs::AllowedLemmas::works_as_state_says))]
pub fn works_as_state_says()
    ensures { WorksAsStateSays }
{}

/// In each history, no entry of a worker is about a connection that is wanted: who is to dial it has said nothing of it.
#[tactic(auto, using(crate::proofs::WantedLemmas::wanted_are_untouched))]
pub fn wanted_are_untouched()
    ensures { WantedAreUntouched }
{}

/// When more entries come, what a caller has said before stays as it was read, and what it says in them stands behind it.
#[tactic(auto, using(crate::proofs::SaidLemmas::own_readings_grow))]
pub fn own_readings_grow()
    ensures { OwnReadingsGrow }
{}
