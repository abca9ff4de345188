ghost use Rattle.std.specs.Prelude.{◌≡◌};
ghost use Rattle.enc_marks.specs.RefusalNumbers.{number_of};

use enc_base::{Name, NoMemory};
use tf_naked::Place;
use thiserror::Error;

/// Why there is no translation or no structure.
#[derive(Debug, Drop, Error)]
pub enum Refusal {
    /// The scheme asks for a problem without type variables. The first symbol with a parameter has
    /// this name; where there is none, the first formula with a type variable.
    #[error("not monomorphic {name}")]
    NotMonomorphic { name: Name },
    /// A universal variable stands at this side of a positive equation, which the scheme can't
    /// take.
    #[error("naked variable in formula {} equation {} side {}", place.formula, place.equation, place.side)]
    NotMonotone { place: Place },
    /// The structure would have more than 67,108,864 entries: this number, or 2^64 - 1 where it is
    /// larger.
    #[error("table too large {entries}")]
    TableTooLarge { entries: u64 },
    #[error("no memory")]
    Memory,
}

impl Refusal {
    /// The number under which the refusal is noted. Want of memory has none.
    pub fn number(&self) -> Option<u8>
        ensures { result ≡ number_of self.now }
    {
        match self {
            Refusal::NotMonomorphic { .. } => Some(31),
            Refusal::NotMonotone { .. } => Some(32),
            Refusal::TableTooLarge { .. } => Some(33),
            Refusal::Memory => None,
        }
    }
}

impl From<NoMemory> for Refusal {
    ghost use Rattle.std.specs.Prelude.{◌≡◌};
    ghost use Rattle.enc_marks.specs.declared.refusal.Refusal.TheVariants.{Memory};

    ghost from_gives = { λ _ e. e ≡ Memory };

    fn from(_: NoMemory) -> Refusal {
        Refusal::Memory
    }
}
