//! Words that have one spelling.

/// A word that has one spelling: a mark, a keyword or a Dollar word.
#[derive(Clone, Copy, Debug)]
pub enum Fixed {
    /// `(`.
    Open,
    /// `)`.
    Close,
    /// `[`.
    OpenSquare,
    /// `]`.
    CloseSquare,
    /// `,`.
    Comma,
    /// `.`.
    Dot,
    /// `:`.
    Colon,
    /// `=`.
    Equal,
    /// `!=`.
    Unequal,
    /// `~`.
    Not,
    /// `&`.
    And,
    /// `|`.
    Or,
    /// `!`.
    ForAll,
    /// `?`.
    Exists,
    /// `!>`.
    TypeForAll,
    /// `>`.
    Greater,
    /// `*`.
    Star,
    /// `type`.
    Type,
    /// `$i`.
    Individuals,
    /// `$o`.
    Truth,
    /// `$tType`.
    Types,
    /// `$true`.
    True,
    /// `$false`.
    False,
}
