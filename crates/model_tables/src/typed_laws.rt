//! What is promised of texts as typed tables, as calls that do nothing.

ghost use Rattle.model_tables.specs.TypedLaws.{TypedTextsAreTables, TypedTablesAreSaid};
ghost use Rattle.model_tables.specs.TypedLaws.{TypedTablesAreNotRefused};

/// A text that says a typed table without a fault is the table of its structure, which is within
/// the limit on entries. The signature has to have a constructor, and names that differ.
pub fn a_typed_text_is_a_table()
    ensures { TypedTextsAreTables }
{}

/// A typed table of a structure within the limit on entries says a table without a fault, and its
/// structure is this one.
pub fn a_typed_table_is_said()
    ensures { TypedTablesAreSaid }
{}

/// A typed table of a structure within the limit on entries is not refused.
pub fn a_typed_table_is_not_refused()
    ensures { TypedTablesAreNotRefused }
{}
