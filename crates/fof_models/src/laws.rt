ghost use Rattle.fof_models.specs.Laws.{UniversalIsTrueOfEach, ExistentialIsTrueOfSome, PrefixesAreQuantifiers, PrefixesAreTrueOfTuples, EntriesStandAtPlaces, TablesAreFunctions, ModelsAreTables};

/// A universal formula is true exactly where its body is true of each element.
pub fn universal_is_true_of_each()
    ensures { UniversalIsTrueOfEach }
{}

/// An existential formula is true exactly where its body is true of some element.
pub fn existential_is_true_of_some()
    ensures { ExistentialIsTrueOfSome }
{}

/// A prefix of one quantifier more is the prefix under one more.
pub fn prefixes_are_quantifiers()
    ensures { PrefixesAreQuantifiers }
{}

/// A formula under a prefix of quantifiers is true exactly where it is true of each tuple of
/// elements, or of some.
pub fn prefixes_are_true_of_tuples()
    ensures { PrefixesAreTrueOfTuples }
{}

/// The value of a function at a tuple stands in its table at the tuple's place.
pub fn entries_stand_at_places()
    ensures { EntriesStandAtPlaces }
{}

/// Well-formed tables and functions that fit a signature are the same structures.
pub fn tables_are_functions()
    ensures { TablesAreFunctions }
{}

/// A sound problem has a model of tables exactly where it has one of functions.
pub fn models_are_tables()
    ensures { ModelsAreTables }
{}
