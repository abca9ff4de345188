//! Why a text is refused as a table.

ghost use Rattle.std.specs.Prelude.{◌≡◌};
ghost use Rattle.model_tables.specs.RefusalNumbers.{number_of};

use enc_base::{Name, NoMemory};
use thiserror::Error;

/// Why a text is no table of a structure within the limit on entries. A place is in bytes counted
/// from 0: that of the refused word, of the first byte that begins no word, or the end of the text.
#[derive(Debug, Drop, Error)]
pub enum TableError {
    /// The words up to here begin no table, or the text ends too early.
    #[error("table syntax at {at}")]
    TableSyntax {
        at: usize,
    },
    /// No constructor or symbol of the item's kind has the name.
    #[error("unknown symbol {name}")]
    UnknownSymbol {
        name: Name,
    },
    /// A constructor or symbol has no item at the end of the text, or a constructor has none before
    /// a symbol's.
    #[error("missing {name}")]
    Missing {
        name: Name,
    },
    /// An earlier item of the kind has the name too.
    #[error("repeated {name}")]
    Repeated {
        name: Name,
    },
    /// The item has another number of entries than its table.
    #[error("wrong length of {name}, expected {expected}, found {found}")]
    WrongLength {
        name: Name,
        expected: u64,
        found: u64,
    },
    /// The first entry of the item that is no member or element, or for a predicate not 0 or 1. The
    /// name is `sizes` or `size` where a size is 0.
    #[error("out of range in {name}, value {value}")]
    OutOfRange {
        name: Name,
        value: u32,
    },
    /// The structure has more entries than the limit, or the tables of its constructors with its
    /// sizes have. The number is theirs, and stops at 2^64 - 1.
    #[error("table too large {entries}")]
    TooLarge {
        entries: u64,
    },
    /// There was no memory.
    #[error("no memory")]
    Memory,
}

impl TableError {
    /// The number under which the refusal is noted. Want of memory has none.
    pub fn number(&self) -> Option<u8>
        ensures { result ≡ number_of self.now }
    {
        match self {
            TableError::TableSyntax { .. } => Some(41),
            TableError::UnknownSymbol { .. } => Some(42),
            TableError::Missing { .. } => Some(43),
            TableError::Repeated { .. } => Some(44),
            TableError::WrongLength { .. } => Some(45),
            TableError::OutOfRange { .. } => Some(46),
            TableError::TooLarge { .. } => Some(33),
            TableError::Memory => None,
        }
    }
}

impl From<NoMemory> for TableError {
    ghost use Rattle.std.specs.Prelude.{◌≡◌};
    ghost use Rattle.model_tables.specs.declared.error.TableError.TheVariants.{Memory};

    ghost from_gives = { λ _ e. e ≡ Memory };

    fn from(_: NoMemory) -> TableError {
        TableError::Memory
    }
}
