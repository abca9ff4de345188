ghost use Rattle.std.specs.Prelude.{◌≡◌};
ghost use Rattle.enc_pipeline.specs.RefusalNumbers.{number_of};

use enc_base::NoMemory;
use enc_marks::Refusal;
use model_tables::TableError;
use tf_check::TypeError;
use tf_nnf::NormalError;
use thiserror::Error;
use tptp_syntax::ReadError;

/// Why a text isn't encoded, or a table isn't taken, or its model isn't carried. Want of memory is
/// `Memory` and stands inside no other variant.
#[derive(Debug, Drop, Error)]
pub enum Fault {
    /// The text spells no file within the limits.
    #[error("{0}")]
    Reading(ReadError),
    /// The file isn't well typed.
    #[error("{0}")]
    Typing(TypeError),
    /// The normal problem has more than 4,194,304 nodes: this number, or 2^64 - 1 where it is
    /// larger.
    #[error("too many nodes {nodes}")]
    TooLarge { nodes: u64 },
    /// The scheme doesn't apply to the problem, or the structure that it makes has too many
    /// entries.
    #[error("{0}")]
    Scheme(Refusal),
    /// Structures over instances can't be carried back to the problem.
    #[error("incomplete")]
    Incomplete,
    /// The table is no table of a structure within the limit on entries.
    #[error("{0}")]
    Table(TableError),
    /// The table's structure is no model: the formula at this index is the first at fault.
    #[error("not a model, formula {formula}")]
    NotModel { formula: usize },
    /// The output could not be written.
    #[error("cannot write")]
    Write,
    /// There was no memory.
    #[error("no memory")]
    Memory,
}

impl Fault {
    /// The number under which the refusal is noted. A failed write and want of memory have none.
    pub fn number(&self) -> Option<u8>
        ensures { result ≡ number_of self.now }
    {
        match self {
            Fault::Reading(reason) => reason.number(),
            Fault::Typing(reason) => reason.number(),
            Fault::TooLarge { .. } => Some(22),
            Fault::Scheme(reason) => reason.number(),
            Fault::Incomplete => Some(34),
            Fault::Table(reason) => reason.number(),
            Fault::NotModel { .. } => Some(47),
            Fault::Write => None,
            Fault::Memory => None,
        }
    }
}

// Want of memory in any layer is `Memory`; another error of it stands in its variant.

impl From<NoMemory> for Fault {
    ghost use Rattle.std.specs.Prelude.{◌≡◌};
    ghost use Rattle.enc_pipeline.specs.declared.fault.Fault.TheVariants.{Memory};

    ghost from_gives = { λ _ fault. fault ≡ Memory };

    fn from(_: NoMemory) -> Fault {
        Fault::Memory
    }
}

impl From<ReadError> for Fault {
    ghost use Rattle.std.specs.Prelude.{◌≡◌};
    ghost use Rattle.enc_pipeline.specs.Faults.{fault_of_reading};

    ghost from_gives = { λ e fault. fault ≡ fault_of_reading e };

    fn from(error: ReadError) -> Fault {
        match error {
            ReadError::Memory => Fault::Memory,
            reason => Fault::Reading(reason),
        }
    }
}

impl From<TypeError> for Fault {
    ghost use Rattle.std.specs.Prelude.{◌≡◌};
    ghost use Rattle.enc_pipeline.specs.Faults.{fault_of_typing};

    ghost from_gives = { λ e fault. fault ≡ fault_of_typing e };

    fn from(error: TypeError) -> Fault {
        match error {
            TypeError::Memory => Fault::Memory,
            reason => Fault::Typing(reason),
        }
    }
}

impl From<NormalError> for Fault {
    ghost use Rattle.std.specs.Prelude.{◌≡◌};
    ghost use Rattle.enc_pipeline.specs.Faults.{fault_of_normal};

    ghost from_gives = { λ e fault. fault ≡ fault_of_normal e };

    fn from(error: NormalError) -> Fault {
        match error {
            NormalError::Memory => Fault::Memory,
            NormalError::TooLarge { nodes } => Fault::TooLarge { nodes },
        }
    }
}

impl From<Refusal> for Fault {
    ghost use Rattle.std.specs.Prelude.{◌≡◌};
    ghost use Rattle.enc_pipeline.specs.Faults.{fault_of_scheme};

    ghost from_gives = { λ e fault. fault ≡ fault_of_scheme e };

    fn from(error: Refusal) -> Fault {
        match error {
            Refusal::Memory => Fault::Memory,
            reason => Fault::Scheme(reason),
        }
    }
}

impl From<TableError> for Fault {
    ghost use Rattle.std.specs.Prelude.{◌≡◌};
    ghost use Rattle.enc_pipeline.specs.Faults.{fault_of_table};

    ghost from_gives = { λ e fault. fault ≡ fault_of_table e };

    fn from(error: TableError) -> Fault {
        match error {
            TableError::Memory => Fault::Memory,
            reason => Fault::Table(reason),
        }
    }
}
