//! What the list of sorts promises, as calls that do nothing.

ghost use Rattle.tf_naked.specs.SortLaws.{SortsHoldTypes, SortsStandOnce, SortsAreTypes};

/// The sorts of a normal problem hold the types that occur: those that symbols are declared with,
/// those at binders, and their arguments; and where the problem has no type variables, those of
/// its terms and of the places where terms stand.
pub fn sorts_hold_types()
    ensures { SortsHoldTypes }
{}

/// Each sort stands once in the list of sorts.
pub fn sorts_stand_once()
    ensures { SortsStandOnce }
{}

/// The sorts of a sound problem without type variables are types without variables.
pub fn sorts_are_types()
    ensures { SortsAreTypes }
{}
