//! When schemes apply, as calls that do nothing.

ghost use Rattle.enc_marks.specs.AppliesLaws.{AppliesExactly, NamesTellPolymorphic};

/// A scheme applies to a well-typed problem exactly where there is no cause to refuse it: no type
/// variable where it asks for none, and no place that it can't take.
pub fn schemes_apply_exactly()
    ensures { AppliesExactly }
{}

/// A problem has a first name with type variables exactly where it has type variables.
pub fn names_tell_polymorphic()
    ensures { NamesTellPolymorphic }
{}
