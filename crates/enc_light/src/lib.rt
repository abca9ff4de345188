//! The schemes `guards_light` and `tags_light`: guards or tags of the sorts that aren't free.
#![tactic(auto)]

mod guards;
mod laws;
mod lifting;
mod lowering;
mod tags;
mod translation;

pub use guards::GuardsLight;
pub use laws::{guards_light_keeps_models, tags_light_keeps_models};
pub use lifting::lift;
pub use lowering::lower;
pub use tags::TagsLight;
pub use translation::encode;
