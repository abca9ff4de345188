//! That naked places and naked variables say the same, as calls that do nothing.

ghost use Rattle.tf_naked.specs.NakedLaws.{
  NakedPlacesAreOfNakedVariables,
  BindersAreTold,
  NoPlaceIsNaked,
  NakedVariablesHaveNakedTypes,
  NakedTypesAreSorts,
};

/// A formula has a naked place of a type exactly where it has a naked variable of that type.
pub fn naked_places_are_of_naked_variables()
    ensures { NakedPlacesAreOfNakedVariables }
{}

/// The list of a formula's universal binders tells of each binder how its variable stands in its
/// body.
pub fn binders_are_told()
    ensures { BindersAreTold }
{}

/// A problem has no naked place exactly where the variable of no universal binder is naked.
pub fn no_place_is_naked()
    ensures { NoPlaceIsNaked }
{}

/// The types of a problem's naked places are those of its naked variables.
pub fn naked_variables_have_naked_types()
    ensures { NakedVariablesHaveNakedTypes }
{}

/// The type of a naked place is one of the sorts.
pub fn naked_types_are_sorts()
    ensures { NakedTypesAreSorts }
{}
