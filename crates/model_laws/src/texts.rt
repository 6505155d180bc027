// What is read off a history, and what the state says of the same.
ghost use Rattle.model_laws.specs.TextLaws.{ExchangesAreSubmissions, AcceptedOnesAreExchanges, MarksHaveOneOrder, OrdersAreTheDialers, StartsAreOrders, OwnEntriesAreCalls};

/// Behind any entries the exchange of a number is the accepted submission of that number, but for its urgency, or there is
/// neither.
#[tactic(auto, using(crate::proofs::AskedLemmas::exchanges_are_submissions))]
pub fn exchanges_are_submissions()
    ensures { ExchangesAreSubmissions }
{}

/// In a history an accepted submission has the number of submissions accepted so far, and from then on the exchange of that number
/// is its caller's and asks for it.
pub fn accepted_ones_are_exchanges()
    ensures { AcceptedOnesAreExchanges }
{}

/// At each Orders of a history each mark has one order: a start that of its exchange's request, dressed for the target of the
/// connection's group. It is read with the entries before, and stays the same with any more of the history.
pub fn marks_have_one_order()
    ensures { MarksHaveOneOrder }
{}

/// In a history the orders of a connection are those that the entries of the one who dials it give, in order.
pub fn orders_are_the_dialers()
    ensures { OrdersAreTheDialers }
{}

/// The starts of a connection are those of its orders that start a stream.
pub fn starts_are_orders()
    ensures { StartsAreOrders }
{}

/// The entries of a caller, with the orders that they give, are its calls, in order.
pub fn own_entries_are_calls()
    ensures { OwnEntriesAreCalls }
{}
