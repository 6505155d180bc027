// Ends are final: of exchanges, of connections, and of the pool.
ghost use Rattle.model_laws.specs.EndLaws.{EndedStaysEnded, GoneStaysGone, ConnectionsGoForward, ClosingOnesStartNothing, ClosedOnesAreGone, NothingBeginsAfterShutdown, NothingIsOpenAfterShutdown};

/// In a history an exchange that has ended stays so, with its outcome.
#[tactic(auto, using(crate::proofs::EndedLemmas::ended_stays_ended))]
pub fn ended_stays_ended()
    ensures { EndedStaysEnded }
{}

/// In a history a connection that is gone stays gone.
#[tactic(auto, using(crate::proofs::GoneLemmas::gone_stays_gone))]
pub fn gone_stays_gone()
    ensures { GoneStaysGone }
{}

/// In a history a connection never goes back in the order of its phases: one that drains or closes isn't open again.
pub fn connections_go_forward()
    ensures { ConnectionsGoForward }
{}

/// In a history a worker that takes the orders of a connection that closes is to start nothing.
#[tactic(auto, using(crate::proofs::SoundLemmas::closing_ones_start_nothing))]
pub fn closing_ones_start_nothing()
    ensures { ClosingOnesStartNothing }
{}

/// In a history a connection is gone behind the entry by which its worker gives it up.
#[tactic(auto, using(crate::proofs::GoneLemmas::closed_ones_are_gone))]
pub fn closed_ones_are_gone()
    ensures { ClosedOnesAreGone }
{}

/// Behind the shutdown of a history no submission is accepted, no connection is opened ahead, wanted or dialed, and no exchange is
/// assigned.
pub fn nothing_begins_after_shutdown()
    ensures { NothingBeginsAfterShutdown }
{}

/// Behind the shutdown of a history every exchange has ended, and no connection is wanted, open or draining.
pub fn nothing_is_open_after_shutdown()
    ensures { NothingIsOpenAfterShutdown }
{}
