//! What translations promise, as calls that do nothing.

ghost use Rattle.enc_marks.specs.Laws.{TypeSchemesAreByType, SchemesFit};
ghost use Rattle.enc_marks.specs.Laws.{TranslationsAreWellFormed, OnlyMarkedSymbolsOccur};
ghost use Rattle.enc_marks.specs.Laws.{ConstructorsHaveNumbers, TypesHaveTheirTerms};
ghost use Rattle.enc_marks.specs.Laws.{TranslationsCanBeNamed};

/// Guards, tags, the cover schemes and type arguments alone are by type.
pub fn type_schemes_are_by_type()
    ensures { TypeSchemesAreByType }
{}

/// The choices of each scheme fit the problems that it applies to.
pub fn schemes_fit()
    ensures { SchemesFit }
{}

/// The untyped problem that a normal problem is encoded as is well formed and within the bounds of
/// counting, where the choices fit the normal problem and that is so of it.
pub fn translations_are_well_formed()
    ensures { TranslationsAreWellFormed }
{}

/// Each symbol that occurs in a translation is a marked one.
pub fn only_marked_symbols_occur()
    ensures { OnlyMarkedSymbolsOccur }
{}

/// The number of a constructor by an encoded problem's marks is that under which it occurs there.
pub fn constructors_have_numbers()
    ensures { ConstructorsHaveNumbers }
{}

/// A type as a term by an encoded problem's marks is its term there, where its constructors occur.
pub fn types_have_their_terms()
    ensures { TypesHaveTheirTerms }
{}

/// The names of an encoded problem can be written, where those of the normal problem can be.
pub fn translations_can_be_named()
    ensures { TranslationsCanBeNamed }
{}
