// What holds of every state that a history goes through.
ghost use Rattle.model_laws.specs.Sound.{StandingIsSound, ReachedIsSound};

/// Each state that a history goes through is sound: its leases are on streams of connections that were opened and aren't gone,
/// no stream is leased twice, and none that was started has an unsent lease; streams have numbers below the next one, none
/// before their connection is up, and one that closes starts none; the streams that a connection was given rise, odd on
/// HTTP/2, and on HTTP/1.1 the live one is the last; a start that is ordered is of the exchange with the lease on its stream,
/// which isn't handed yet, and each such lease has its start ordered; no exchange has moved more than five times;
/// connections, live streams and submissions are within their limits; at most one row is of an origin and of a host in a
/// partition and of a group; and after a shutdown each exchange has ended and no connection is wanted, open or draining.
pub fn reached_is_sound()
    ensures { ReachedIsSound }
{}

/// So is each state that entries lead to which each may stand where they stand: in the middle of a call too, while the pool
/// settles.
#[tactic(auto, using(crate::proofs::SoundLemmas::standing_is_sound))]
pub fn standing_is_sound()
    ensures { StandingIsSound }
{}
