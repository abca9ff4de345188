//! The schemes `guards_feather` and `tags_feather`: guards or tags of the sorts that aren't free, at
//! universal variables only where these are naked.
#![tactic(auto)]

mod guards;
mod laws;
mod lifting;
mod lowering;
mod tags;
mod translation;

pub use guards::GuardsFeather;
pub use laws::{guards_feather_keeps_models, tags_feather_keeps_models};
pub use lifting::lift;
pub use lowering::lower;
pub use tags::TagsFeather;
pub use translation::encode;
