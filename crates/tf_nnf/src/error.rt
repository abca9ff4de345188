ghost use Rattle.std.specs.Prelude.{◌≡◌};
ghost use Rattle.tf_nnf.specs.RefusalNumbers.{number_of};

use enc_base::NoMemory;
use thiserror::Error;

/// Why there is no normal problem.
#[derive(Debug, Drop, Error)]
pub enum NormalError {
    /// The normal problem has more than 4,194,304 nodes: this number, or 2^64 - 1 where it is larger.
    #[error("too many nodes {nodes}")]
    TooLarge { nodes: u64 },
    #[error("no memory")]
    Memory,
}

impl NormalError {
    /// The number under which the refusal is noted. Want of memory has none.
    pub fn number(&self) -> Option<u8>
        ensures { result ≡ number_of self.now }
    {
        match self {
            NormalError::TooLarge { .. } => Some(22),
            NormalError::Memory => None,
        }
    }
}

impl From<NoMemory> for NormalError {
    ghost use Rattle.std.specs.Prelude.{◌≡◌};
    ghost use Rattle.tf_nnf.specs.declared.error.NormalError.TheVariants.{Memory};

    ghost from_gives = { λ _ e. e ≡ Memory };

    fn from(_: NoMemory) -> NormalError {
        NormalError::Memory
    }
}
