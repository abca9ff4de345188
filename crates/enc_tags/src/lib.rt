//! The scheme `tags`: a tag at each term, with the term's type as an argument.
#![tactic(auto)]

mod choices;
mod laws;
mod lifting;
mod lowering;
mod translation;

pub use choices::Tags;
pub use laws::tags_keep_models;
pub use lifting::lift;
pub use lowering::lower;
pub use translation::encode;
