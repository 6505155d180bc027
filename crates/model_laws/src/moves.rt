// Exchanges wait again and are sent again only where they may be.
ghost use Rattle.model_laws.specs.MoveLaws.{MovesAreLawful, LostExchangesStayLost};

/// Each entry of a history that makes an exchange wait again is one by which it may move.
#[tactic(auto, using(crate::proofs::MoveLemmas::moves_are_lawful))]
pub fn moves_are_lawful()
    ensures { MovesAreLawful }
{}

/// An exchange that has a lease on a connection when that ends, and whose start was handed to it, has ended as lost from then
/// on where its method isn't idempotent, something of its answer was heard, or it was sent again once before because a
/// connection ended (RFC 9110, section 9.2.2).
pub fn lost_exchanges_stay_lost()
    ensures { LostExchangesStayLost }
{}
