//! Models carried between problems and their translations, as tables: what the schemes share.
#![tactic(auto)]

mod blocks;
mod collapsing;
mod kept;
mod large;
mod laws;
mod lifted_sorts;
mod lifted_types;
mod lifting;
mod marked;
mod merging;
mod rows;
mod schemes;
mod sort_counts;
mod sort_numbers;
mod sort_sizes;
mod sort_tables;
mod sources;
mod to_collapsed;
mod to_typed;
mod to_untyped;

pub use large::refuse_large;
pub use laws::{collapsed_schemes_lower_models, merged_schemes_keep_models, schemes_lift_models};
pub use schemes::{lift_by, lower_by, lower_collapsed_by};
pub use to_collapsed::lower_collapsed;
pub use to_typed::lift;
pub use to_untyped::lower;
