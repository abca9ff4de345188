/// Where a term stands.
#[derive(Debug, Clone, Copy)]
pub enum Position {
    /// An argument place, and whether it is the cover of a parameter.
    Argument(bool),
    /// A side of an equation, and whether that is positive.
    Side(bool),
}

/// What a term is.
#[derive(Debug, Clone, Copy)]
pub enum Kind {
    /// A variable of a universal binder.
    Universal,
    /// A variable of an existential binder.
    Existential,
    /// A symbol that is applied.
    Applied,
}
