// The limits of a pool are kept.
ghost use Rattle.model_laws.specs.AlternativeLaws.{AlternativesAreFew};
ghost use Rattle.model_laws.specs.LimitLaws.{WantsStayBelowLimits, ConnectionsStayWithinLimits, AssignsHavePlace, StreamsStayWithinLimits, ExchangesWaitAgainFiveTimes};

/// At each Want of a history the connections that aren't gone are below the total, and those of the exchange's group below
/// the group's limit.
#[tactic(auto, using(crate::proofs::AssignedLemmas::wants_stay_below_limits))]
pub fn wants_stay_below_limits()
    ensures { WantsStayBelowLimits }
{}

/// At each state of a history the connections that aren't gone are no more than the total, and those of each group no more
/// than a group's limit.
pub fn connections_stay_within_limits()
    ensures { ConnectionsStayWithinLimits }
{}

/// At each Assign of a history the connection's live streams are fewer than the peer allows and than `streams` of the limits on
/// HTTP/2, and none on HTTP/1.1, and its next stream is at most `last_stream`.
#[tactic(auto, using(crate::proofs::AssignedLemmas::assigns_have_place))]
pub fn assigns_have_place()
    ensures { AssignsHavePlace }
{}

/// At each state of a history the live streams of an HTTP/2 connection are no more than `streams` of the limits, and an
/// HTTP/1.1 connection has one at most.
#[tactic(auto, using(crate::proofs::SoundLemmas::streams_stay_within_limits))]
pub fn streams_stay_within_limits()
    ensures { StreamsStayWithinLimits }
{}

/// In a history an exchange waits again at most five times.
#[tactic(auto, using(crate::proofs::AgainLemmas::exchanges_wait_again_five_times))]
pub fn exchanges_wait_again_five_times()
    ensures { ExchangesWaitAgainFiveTimes }
{}

/// At each state of a history at most 1024 pairs of a partition key and an origin have alternatives.
#[tactic(auto, using(crate::proofs::SoundLemmas::alternatives_are_few))]
pub fn alternatives_are_few()
    ensures { AlternativesAreFew }
{}
