// A worker's turn stays lawful, whatever others do meanwhile.
ghost use Rattle.model_laws.specs.WorkerLaws.{WorkersWordsStayLegal, WorkersMayGoOnTaking, WorkersMayGoOnAsking, OthersChangeNoOwnCalls};

/// A worker's report, or its giving up of its connection, stays legal when a history goes on by entries of others.
pub fn workers_words_stay_legal()
    ensures { WorkersWordsStayLegal }
{}

/// Where a worker may take the orders of its connection, and a history goes on by entries of others, the connection has no
/// orders then, or it may take those that it has.
#[tactic(auto, using(crate::proofs::WorkerLemmas::workers_may_go_on_taking))]
pub fn workers_may_go_on_taking()
    ensures { WorkersMayGoOnTaking }
{}

/// A worker that may ask for the orders of its connection may still ask when a history goes on by entries of others.
#[tactic(auto, using(crate::proofs::WorkerLemmas::workers_may_go_on_asking))]
pub fn workers_may_go_on_asking()
    ensures { WorkersMayGoOnAsking }
{}

/// Entries of others change nothing of what is read off a list of entries as a caller's own calls, nor of the orders that these
/// gave it.
pub fn others_change_no_own_calls()
    ensures { OthersChangeNoOwnCalls }
{}
