// Which connection an exchange is assigned to.
ghost use Rattle.model_laws.specs.AlternativeLaws.{AlternativesAreFresh};
ghost use Rattle.model_laws.specs.ApartLaws.{KeepsApart};
ghost use Rattle.model_laws.specs.EndLaws.{OnlyOpenOnesAreAssigned};

/// At each Assign of a history the partition keys and the credentials of exchange and connection are equal, and an
/// https exchange goes only to a connection whose identity is secure and covers its host.
#[tactic(auto, using(crate::proofs::AssignedLemmas::keeps_apart))]
pub fn keeps_apart()
    ensures { KeepsApart }
{}

/// At each Assign of a history by the alternative way the connection goes to an alternative of the exchange's origin in its
/// partition that is fresh at the greatest moment so far, speaks its protocol, and has a secure identity that covers the
/// origin's host. For https it was opened for an https origin. For http it was opened for this very origin, the alternative
/// speaks HTTP/2, and it is proven or the exchange is a probe.
#[tactic(auto, using(crate::proofs::AssignedLemmas::alternatives_are_fresh))]
pub fn alternatives_are_fresh()
    ensures { AlternativesAreFresh }
{}

/// At each Assign of a history the connection is open: one that drains, closes or is gone gets no exchange.
#[tactic(auto, using(crate::proofs::AssignedLemmas::only_open_ones_are_assigned))]
pub fn only_open_ones_are_assigned()
    ensures { OnlyOpenOnesAreAssigned }
{}
