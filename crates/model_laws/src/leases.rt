// One lease at a time.
ghost use Rattle.model_laws.specs.LeaseLaws.{AssignsBeginLeases, LeasesDontOverlap, StreamsAreLeasedOnce};

/// Each Assign of a history begins a lease.
pub fn assigns_begin_leases()
    ensures { AssignsBeginLeases }
{}

/// Of two leases of one exchange the first has ended before the second begins.
pub fn leases_dont_overlap()
    ensures { LeasesDontOverlap }
{}

/// At each state of a history no two exchanges have a lease on one stream of one connection.
pub fn streams_are_leased_once()
    ensures { StreamsAreLeasedOnce }
{}
