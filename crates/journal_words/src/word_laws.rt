// Laws of words, each a fact without a computation: what is written for a value is read back as that value. A value that a
// program holds has numbers of its types, which the laws ask for since a statement's numbers may be any.
ghost use Rattle.journal_words.specs.WordLaws.{NumbersAreReadBack, ChoicesAreReadBack, PartsAreReadBack};

/// Numbers, moments, deadlines, streams, octets and addresses are read back from their words.
pub fn numbers_are_read_back()
    ensures { NumbersAreReadBack }
{}

/// Choices are read back from their words: credentials, security, protocols, ways, causes of ends and proofs.
pub fn choices_are_read_back()
    ensures { ChoicesAreReadBack }
{}

/// Fields, names, partition keys, origins, targets and what is said of alternatives are read back from their words, where they
/// have some.
pub fn parts_are_read_back()
    ensures { PartsAreReadBack }
{}
