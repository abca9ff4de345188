//! The laws that whoever holds numbers can cite.

ghost use Rattle.tf_types.specs.Laws.{NumbersTellTypesApart, NumbersKeepTheirTypes, MatchesBindWhatOccurs};

/// Two numbers of a table are equal exactly where they denote equal types.
pub fn numbers_tell_types_apart()
    ensures { NumbersTellTypesApart }
{}

/// A number denotes what it did, whatever is added to its table.
pub fn numbers_keep_their_types()
    ensures { NumbersKeepTheirTypes }
{}

/// A match binds what was bound, and the variables that occur in its patterns.
pub fn matches_bind_what_occurs()
    ensures { MatchesBindWhatOccurs }
{}
