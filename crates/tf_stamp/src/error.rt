use thiserror::Error;

/// Why there is no merged domain.
#[derive(Debug, Drop, Error)]
pub enum StampError {
    /// It would have more than 67,108,864 numbers: as many as this.
    #[error("too many numbers {entries}")]
    TooLarge { entries: u64 },
    #[error("no memory")]
    Memory,
}
