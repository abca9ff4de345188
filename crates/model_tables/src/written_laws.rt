//! What is promised of the text that is written for a structure, as calls that do nothing.

ghost use Rattle.model_tables.specs.WrittenLaws.{TypedTextIsItsTable, UntypedTextIsItsTable};
ghost use Rattle.model_tables.specs.WrittenLaws.{OneTypedStructure, OneUntypedStructure};

/// The text that is written for a well-formed typed structure is a table of it, and of no other.
pub fn typed_text_is_its_table()
    ensures { TypedTextIsItsTable }
{}

/// The text that is written for a well-formed untyped structure is a table of it, and of no other.
pub fn untyped_text_is_its_table()
    ensures { UntypedTextIsItsTable }
{}

/// A text is a typed table of at most one structure.
pub fn one_typed_structure()
    ensures { OneTypedStructure }
{}

/// A text is an untyped table of at most one structure.
pub fn one_untyped_structure()
    ensures { OneUntypedStructure }
{}
