//! Why a call has no other answer.

use enc_base::NoMemory;
use std::alloc::{AllocError, AllocFailed};

#[derive(Drop)]
pub enum Stop {
    /// What the call asks for is refused, in these words.
    Refused(Vec<u8>),
    /// The line has another form than the call's.
    Shape,
    Memory,
}

impl From<NoMemory> for Stop {
    fn from(_: NoMemory) -> Self {
        Stop::Memory
    }
}

impl From<AllocError> for Stop {
    fn from(_: AllocError) -> Self {
        Stop::Memory
    }
}

impl<T: Drop> From<AllocFailed<T>> for Stop {
    fn from(_: AllocFailed<T>) -> Self {
        Stop::Memory
    }
}
