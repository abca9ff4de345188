//! Why a file is not well typed.

ghost use Rattle.std.specs.Prelude.{◌≡◌};
ghost use Rattle.tf_check.specs.RefusalNumbers.{number_of};

use enc_base::{Name, NoMemory};
use tf_core::Ty;
use thiserror::Error;

/// The first fault of a file, in the order in which the checker visits it. `entry` is the index of
/// the entry in the file, counted from 0.
#[derive(Debug, Drop, Error)]
pub enum TypeError {
    /// The name is declared already, in another kind or with another type.
    #[error("redeclared {name} in entry {entry}")]
    Redeclared {
        entry: usize,
        name: Name,
    },
    /// A type expression is not of a shape that is allowed in its place.
    #[error("bad declaration in entry {entry}")]
    BadDeclaration {
        entry: usize,
    },
    /// A name or a variable in a type is no constructor and no bound type variable.
    #[error("unknown type {name} in entry {entry}")]
    UnknownType {
        entry: usize,
        name: Name,
    },
    /// A variable in a term is not bound.
    #[error("free variable {name} in entry {entry}")]
    FreeVariable {
        entry: usize,
        name: Name,
    },
    /// A constructor or a symbol has another number of arguments than it is declared with. The
    /// arguments of a symbol are its type arguments and its terms.
    #[error("arity of {name} in entry {entry}, expected {expected}, found {found}")]
    Arity {
        entry: usize,
        name: Name,
        expected: usize,
        found: usize,
    },
    /// A term has another type than its place.
    #[error("type mismatch in entry {entry}")]
    Mismatch {
        entry: usize,
        expected: Ty,
        found: Ty,
    },
    /// A predicate, a constructor, a type variable or `$i` stands where a term must.
    #[error("not a term {name} in entry {entry}")]
    NotATerm {
        entry: usize,
        name: Name,
    },
    /// A function or a constructor stands where an atom must.
    #[error("not a formula {name} in entry {entry}")]
    NotAFormula {
        entry: usize,
        name: Name,
    },
    /// A type variable is bound by `?`, or by `!` outside the leading prefix.
    #[error("type quantifier in entry {entry}")]
    TypeQuantifier {
        entry: usize,
    },
    /// An earlier entry is a conjecture.
    #[error("second conjecture in entry {entry}")]
    SecondConjecture {
        entry: usize,
    },
    /// The name would be number 65,536 of the constructors and symbols besides `$i`.
    #[error("too many symbols {count}")]
    TooManySymbols {
        count: usize,
    },
    #[error("no memory")]
    Memory,
}

impl TypeError {
    /// The number under which the refusal is noted. Want of memory has none.
    pub fn number(&self) -> Option<u8>
        ensures { result ≡ number_of self.now }
    {
        match self {
            TypeError::Redeclared { .. } => Some(11),
            TypeError::BadDeclaration { .. } => Some(12),
            TypeError::UnknownType { .. } => Some(13),
            TypeError::FreeVariable { .. } => Some(14),
            TypeError::Arity { .. } => Some(15),
            TypeError::Mismatch { .. } => Some(16),
            TypeError::NotATerm { .. } => Some(17),
            TypeError::NotAFormula { .. } => Some(18),
            TypeError::TypeQuantifier { .. } => Some(19),
            TypeError::SecondConjecture { .. } => Some(20),
            TypeError::TooManySymbols { .. } => Some(21),
            TypeError::Memory => None,
        }
    }
}

impl From<NoMemory> for TypeError {
    ghost use Rattle.std.specs.Prelude.{◌≡◌};
    ghost use Rattle.tf_check.specs.declared.error.TypeError.TheVariants.{Memory};

    ghost from_gives = { λ _ error. error ≡ Memory };

    fn from(_: NoMemory) -> Self {
        TypeError::Memory
    }
}
