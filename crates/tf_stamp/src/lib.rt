//! The merged domain of a typed structure: its members, and a number for each element of each.
#![tactic(auto)]

mod error;
mod laws;
mod stamped;

pub use error::StampError;
pub use laws::stamps_are_read;
pub use stamped::{Stamped, count_numbers};
