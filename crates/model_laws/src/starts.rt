// What a worker is told to start.
ghost use Rattle.model_laws.specs.StartLaws.{StartsAreHandedUnderALease, StartsAreHandedWithinTheirLease, StartsAreHandedOnce, StartsRise, WorkersStartInOrder};

/// At each Orders of a history each start is of the exchange that has the lease on its stream, which wasn't handed before: so the
/// start of an exchange that has moved, has ended or was cancelled isn't handed.
pub fn starts_are_handed_under_a_lease()
    ensures { StartsAreHandedUnderALease }
{}

/// In a history the start of a stream is handed while its lease lasts.
pub fn starts_are_handed_within_their_lease()
    ensures { StartsAreHandedWithinTheirLease }
{}

/// In a history the start of a stream is handed by one entry at most.
pub fn starts_are_handed_once()
    ensures { StartsAreHandedOnce }
{}

/// In a history the streams of a connection's starts rise, in the order in which they are handed.
pub fn starts_rise()
    ensures { StartsRise }
{}

/// In a history, by the entries of a caller about one connection: the streams whose starts it is handed rise, up to the last one; on
/// HTTP/2 they are odd; on HTTP/1.1 a start comes alone, and only behind entries that end each stream handed before.
pub fn workers_start_in_order()
    ensures { WorkersStartInOrder }
{}
