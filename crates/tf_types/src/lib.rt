//! Numbered types: a table in which each type stands once, and a number denotes it.
#![tactic(auto)]

mod find;
mod instance;
mod laws;
mod matching;
mod node;
mod table;
mod tree;

pub use laws::{matches_bind_what_occurs, numbers_keep_their_types, numbers_tell_types_apart};
pub use node::{TypeId, TypeNode};
pub use table::TypeTable;
