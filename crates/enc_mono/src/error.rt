ghost use Rattle.std.specs.Prelude.{◌≡◌};
ghost use Rattle.enc_mono.specs.RefusalNumbers.{number_of_mono, number_of_restrict};

use enc_base::NoMemory;
use thiserror::Error;

/// Why there is no problem of instances.
#[derive(Debug, Drop, Error)]
pub enum MonoError {
    /// The problem would have more formulas than the cap: this is one more than the cap.
    #[error("too many instances {count}")]
    TooManyInstances { count: u64 },
    /// The problem would have more than 16,777,216 nodes: this number, or 2^64 - 1 where it is
    /// larger.
    #[error("too many nodes of instances {nodes}")]
    TooManyNodes { nodes: u64 },
    #[error("no memory")]
    Memory,
}

impl MonoError {
    /// The number under which the refusal is noted. Want of memory has none.
    pub fn number(&self) -> Option<u8>
        ensures { result ≡ number_of_mono self.now }
    {
        match self {
            MonoError::TooManyInstances { .. } => Some(35),
            MonoError::TooManyNodes { .. } => Some(36),
            MonoError::Memory => None,
        }
    }
}

impl From<NoMemory> for MonoError {
    ghost use Rattle.std.specs.Prelude.{◌≡◌};
    ghost use Rattle.enc_mono.specs.declared.error.MonoError.TheVariants.{Memory};

    ghost from_gives = { λ _ e. e ≡ Memory };

    fn from(_: NoMemory) -> MonoError {
        MonoError::Memory
    }
}

/// Why there is no restricted structure.
#[derive(Debug, Drop, Error)]
pub enum RestrictError {
    /// The structure would have more than 67,108,864 entries: this number, or 2^64 - 1 where it is
    /// larger.
    #[error("table too large {entries}")]
    TableTooLarge { entries: u64 },
    #[error("no memory")]
    Memory,
}

impl RestrictError {
    /// The number under which the refusal is noted. Want of memory has none.
    pub fn number(&self) -> Option<u8>
        ensures { result ≡ number_of_restrict self.now }
    {
        match self {
            RestrictError::TableTooLarge { .. } => Some(33),
            RestrictError::Memory => None,
        }
    }
}

impl From<NoMemory> for RestrictError {
    ghost use Rattle.std.specs.Prelude.{◌≡◌};
    ghost use Rattle.enc_mono.specs.declared.error.RestrictError.TheVariants.{Memory};

    ghost from_gives = { λ _ e. e ≡ Memory };

    fn from(_: NoMemory) -> RestrictError {
        RestrictError::Memory
    }
}
