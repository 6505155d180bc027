// Who dials a connection, and where it goes.
ghost use Rattle.model_laws.specs.DialLaws.{WantedOnesAreUntouched, DialsAreFirst, ConnectionsAreDialedOnce, TargetsAreOfGroups, EntriesAreTheDialers, CallersHaveDialed, NewOnesGoWhereTheyMay};

/// At each state of a history no entry so far is about a connection that is wanted: so it is new to whoever is to dial it.
#[tactic(auto, using(crate::proofs::DialedLemmas::wanted_ones_are_untouched))]
pub fn wanted_ones_are_untouched()
    ensures { WantedOnesAreUntouched }
{}

/// At each Dial of a history the connection is wanted, no entry so far is about it, and the Dial's target is its group's.
#[tactic(auto, using(crate::proofs::DialedLemmas::dials_are_first))]
pub fn dials_are_first()
    ensures { DialsAreFirst }
{}

/// In a history a connection is dialed at most once.
pub fn connections_are_dialed_once()
    ensures { ConnectionsAreDialedOnce }
{}

/// At each state of a history a connection was dialed once, to the target of its group, where a caller has it, and else never.
#[tactic(auto, using(crate::proofs::DialedLemmas::targets_are_of_groups))]
pub fn targets_are_of_groups()
    ensures { TargetsAreOfGroups }
{}

/// In a history each entry about a connection is its Dial, or comes behind the Dial of the same caller.
pub fn entries_are_the_dialers()
    ensures { EntriesAreTheDialers }
{}

/// At each state of a history the caller that has a connection dialed it.
#[tactic(auto, using(crate::proofs::DialedLemmas::callers_have_dialed))]
pub fn callers_have_dialed()
    ensures { CallersHaveDialed }
{}

/// At each entry of a history behind which there is a connection that wasn't there before, it is wanted by a Want for its exchange, of
/// whose partition key, credentials and origin its group is, or opened ahead for those that the call names. It goes to that origin
/// itself, or to an alternative that is noted for the origin in this partition, hasn't expired at the greatest moment so far and
/// doesn't count as broken; for http that speaks HTTP/2, and the origin has proven it or the exchange is a probe.
#[tactic(auto, using(crate::proofs::WantedLemmas::new_ones_go_where_they_may))]
pub fn new_ones_go_where_they_may()
    ensures { NewOnesGoWhereTheyMay }
{}
