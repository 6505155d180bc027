// A law of ways, a fact without a computation.
ghost use Rattle.model_authority.specs.WayLaws.{WayIsFirst};

/// The way that is computed is the first that holds: directly, over an alternative, or coalesced. There is one exactly where
/// the exchange may use the connection in some way.
pub fn way_is_first()
    ensures { WayIsFirst }
{}
