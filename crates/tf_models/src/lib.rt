//! Finite structures of typed problems, and truth in them.
#![tactic(auto)]

mod blocks;
mod env;
mod first_false;
mod holds;
mod members;
mod occurring;
mod structure;
mod types;
mod value;
mod well_formed;

pub use env::Env;
pub use members::Members;
pub use structure::{TypedStructure, copy_table, copy_tables};
