//! Why a text is refused.

ghost use Rattle.std.specs.Prelude.{◌≡◌};
ghost use Rattle.tptp_syntax.specs.RefusalNumbers.{number_of};

use thiserror::Error;

/// Why a text spells no file within the limits. A place is that of the refused word, or the end of
/// the text, in bytes counted from 0.
#[derive(Clone, Copy, Debug, PartialEq, Eq, Error)]
pub enum ReadError {
    /// A byte can neither begin nor continue a word.
    #[error("bad byte at {at}")]
    BadByte { at: usize },
    /// A block comment or a quoted text has no end.
    #[error("unclosed at {at}")]
    Unclosed { at: usize },
    /// The word may not stand here, or the text ends too early.
    #[error("syntax at {at}")]
    Syntax { at: usize },
    /// The word is nested deeper than 400.
    #[error("too deep at {at}")]
    TooDeep { at: usize },
    /// A Lower word other than `tff`, `fof` and `include` stands in the place of a language.
    #[error("language at {at}")]
    Language { at: usize },
    /// A Lower word that is no role here stands in the place of a role.
    #[error("role at {at}")]
    Role { at: usize },
    /// A Number, `$int`, `$rat` or `$real` stands where a term, an atom or a type may begin.
    #[error("number at {at}")]
    Number { at: usize },
    /// A Distinct word or `$distinct` stands where a term or an atom may begin.
    #[error("distinct object at {at}")]
    DistinctObject { at: usize },
    /// `include` stands in the place of a language.
    #[error("include at {at}")]
    Include { at: usize },
    /// The text has more than 16,777,216 bytes.
    #[error("too long {length}")]
    TooLong { length: usize },
    #[error("no memory")]
    Memory,
}

impl ReadError {
    /// The number under which the refusal is noted. Want of memory has none.
    pub fn number(&self) -> Option<u8>
        ensures { result ≡ number_of self.now }
    {
        match self {
            ReadError::BadByte { .. } => Some(1),
            ReadError::Unclosed { .. } => Some(2),
            ReadError::Syntax { .. } => Some(3),
            ReadError::TooDeep { .. } => Some(4),
            ReadError::Language { .. } => Some(5),
            ReadError::Role { .. } => Some(6),
            ReadError::Number { .. } => Some(7),
            ReadError::DistinctObject { .. } => Some(8),
            ReadError::Include { .. } => Some(9),
            ReadError::TooLong { .. } => Some(10),
            ReadError::Memory => None,
        }
    }
}
