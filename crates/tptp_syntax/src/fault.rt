//! Why a reader stops.

use enc_base::NoMemory;

/// Why a reader stops at the word that stands next.
#[derive(Clone, Copy, Debug, PartialEq, Eq)]
pub enum Fault {
    /// Want of memory.
    Memory,
    /// The word may not stand here, or there is none.
    Syntax,
    /// The word may stand here, but not so deep.
    TooDeep,
    /// It is a Lower word in the place of a language.
    Language,
    /// It is a Lower word in the place of a role.
    Role,
    /// It is a number or a type of numbers.
    Number,
    /// It is a distinct object or `$distinct`.
    DistinctObject,
    /// It is `include` in the place of a language.
    Include,
}

impl From<NoMemory> for Fault {
    ghost use Rattle.std.specs.Prelude.{◌≡◌};
    ghost use Rattle.tptp_syntax.specs.declared.fault.Fault.TheVariants.{Memory};

    ghost from_gives = { λ _ e. e ≡ Memory };

    fn from(_: NoMemory) -> Fault {
        Fault::Memory
    }
}
