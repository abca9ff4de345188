//! Words that are told apart by name: languages and connectives.

/// The language of an entry.
#[derive(Clone, Copy, Debug)]
pub enum Language {
    /// Typed first-order form.
    Tff,
    /// First-order form.
    Fof,
}

/// A connective that joins two formulas and is not repeated.
#[derive(Clone, Copy, Debug)]
pub enum Connective {
    /// `=>`.
    Implies,
    /// `<=`.
    If,
    /// `<=>`.
    Iff,
    /// `<~>`.
    Xor,
    /// `~&`.
    Nand,
    /// `~|`.
    Nor,
}
