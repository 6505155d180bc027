// When a lease ends whose start was handed, by the word of a worker that keeps the rules of `KeepsItsWord`.
ghost use Rattle.model_laws.specs.OverLaws.{HandedLeasesAreLive, LeasesEndByTheirOver, MovedLeasesEndAtTheirOver, LeasesBeforeOthersEndAtTheirOver};

/// At each state of a history, a stream whose start was handed is live while an exchange has the lease on it, where who dials the
/// connection keeps its word.
pub fn handed_leases_are_live()
    ensures { HandedLeasesAreLive }
{}

/// Where who dials the connection keeps its word, the entry that ends a stream ends its lease, or finds it ended.
pub fn leases_end_by_their_over()
    ensures { LeasesEndByTheirOver }
{}

/// And where an exchange waits again whose start was handed, its lease ended by the entry that ended its stream.
pub fn moved_leases_end_at_their_over()
    ensures { MovedLeasesEndAtTheirOver }
{}

/// So it is where the exchange has a later lease.
pub fn leases_before_others_end_at_their_over()
    ensures { LeasesBeforeOthersEndAtTheirOver }
{}
