// Histories and their bad places.
ghost use Rattle.model_laws.specs.PlaceLaws.{HistoriesHaveNoBadPlace, HistoriesHaveNoFirstBadPlace, FirstBadPlaceIsOne, BeginningsAreHistories};

/// A list of entries is a history exactly where no place of it is bad.
pub fn histories_have_no_bad_place()
    ensures { HistoriesHaveNoBadPlace }
{}

/// A list of entries is a history exactly where no place of it is the first bad one.
pub fn histories_have_no_first_bad_place()
    ensures { HistoriesHaveNoFirstBadPlace }
{}

/// No list has two first bad places.
#[tactic(auto, using(crate::proofs::PlaceLemmas::first_bad_place_is_one))]
pub fn first_bad_place_is_one()
    ensures { FirstBadPlaceIsOne }
{}

/// Each beginning of a history that ends at a settled state is a history.
#[tactic(auto, using(crate::proofs::PlaceLemmas::beginnings_are_histories))]
pub fn beginnings_are_histories()
    ensures { BeginningsAreHistories }
{}
