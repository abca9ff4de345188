//! What the definitions promise one another, as calls that do nothing.

ghost use Rattle.model_tables.specs.Laws.{OneVerdict, ItemsAreOneForEach, UntypedTextsAreTables};
ghost use Rattle.model_tables.specs.Laws.{UntypedTablesAreSaid, UntypedTablesAreNotRefused};

/// Whatever is asked of a table, a text has at most one verdict: one table that it says without a
/// fault, or one refusal at one place.
pub fn a_text_has_one_verdict()
    ensures { OneVerdict }
{}

/// A text that says a table without a fault has one item for each constructor and symbol of which
/// a table is asked, and no other item.
pub fn a_table_has_one_item_for_each()
    ensures { ItemsAreOneForEach }
{}

/// A text that says an untyped table without a fault is a table of the structure that the table
/// gives, for which the problem's names have to be one for each symbol and to differ. The structure
/// is within the limit on entries.
pub fn an_untyped_text_is_a_table()
    ensures { UntypedTextsAreTables }
{}

/// A text that is an untyped table of a structure within the limit on entries says a table without
/// a fault, and the table gives that structure.
pub fn an_untyped_table_is_said()
    ensures { UntypedTablesAreSaid }
{}

/// A text that is an untyped table of a structure within the limit on entries is refused for no
/// fault.
pub fn an_untyped_table_is_not_refused()
    ensures { UntypedTablesAreNotRefused }
{}
