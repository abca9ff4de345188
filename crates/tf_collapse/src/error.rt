use thiserror::Error;

/// Why a table is not pulled back.
#[derive(Debug, Drop, Error)]
pub enum PullError {
    /// It would have more than 67,108,864 entries: as many as this, or 2^64 - 1 where there are
    /// more.
    #[error("too many entries {entries}")]
    TooLarge { entries: u64 },
    #[error("no memory")]
    Memory,
}
