// What the pool does by itself.
ghost use Rattle.model_laws.specs.SettlingLaws.{SettlingIsDetermined, SettlingFalls, SettlingIsBounded, SettlingEnds, NoneWaits};

/// At each state at most one entry of the pool itself is legal.
pub fn settling_is_determined()
    ensures { SettlingIsDetermined }
{}

/// Each entry of the pool itself leaves less to do: exchanges that have no end or wait, connections that there is room for or
/// that are open.
#[tactic(auto, using(crate::proofs::SettlingFalls::settling_falls))]
pub fn settling_falls()
    ensures { SettlingFalls }
{}

/// So what is left to do at a state bounds how many entries of the pool itself come behind it.
#[tactic(auto, using(crate::proofs::SettlingFalls::settling_is_bounded))]
pub fn settling_is_bounded()
    ensures { SettlingIsBounded }
{}

/// From each state finitely many entries of the pool itself lead to a settled one.
#[tactic(auto, using(crate::proofs::SettlingLemmas::settling_ends))]
pub fn settling_ends()
    ensures { SettlingEnds }
{}

/// At each settled state no eligible exchange has a usable connection or room.
pub fn none_waits()
    ensures { NoneWaits }
{}
