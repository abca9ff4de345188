//! The two forms of tables, and the kinds of their items.

/// A table of a typed structure, or of an untyped one.
#[derive(Clone, Copy, Debug, PartialEq, Eq)]
pub enum Form {
    Typed,
    Untyped,
}

/// What an item of a table is about, by its first word.
#[derive(Clone, Copy, Debug, PartialEq, Eq)]
pub enum Kind {
    Constructor,
    Symbol,
    Function,
    Predicate,
}
