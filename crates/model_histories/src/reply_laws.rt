// A law of replies, a fact without a computation.
ghost use Rattle.model_histories.specs.ReplyLaws.{RepliesAreComputed};

/// At each state a submission, a cancel, a change of urgency, a call to open ahead, addresses and a shutdown have one reply each,
/// which is the one that is computed; and the connection that is to be dialed is the one that is computed, to the target of
/// its group.
pub fn replies_are_computed()
    ensures { RepliesAreComputed }
{}
