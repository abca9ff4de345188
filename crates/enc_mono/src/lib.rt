//! Bounded monomorphisation: a problem's instances, and structures restricted to them.
#![tactic(auto)]

mod blocks;
mod error;
mod instances;
mod known;
mod laws;
mod listing;
mod occurs;
mod partial;
mod patterns;
mod restricting;
mod rounds;
mod search;

pub use error::{MonoError, RestrictError};
pub use instances::{Instances, Origin, copy_origins, same_origins};
pub use laws::{
    instances_are_typed, lists_have_instances, restricted_tables_keep_models,
    restriction_keeps_models, rounds_only_add_instances,
};
pub use restricting::restrict;
