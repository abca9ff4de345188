//! The cover schemes: type arguments that covers tell aren't written.
#![tactic(auto)]

mod choices;
mod laws;
mod lifting;
mod lowering;
mod sought;
mod translation;
mod undercover;

pub use choices::{GuardsCover, TagsCover};
pub use laws::covers_keep_models;
pub use lifting::lift;
pub use lowering::lower;
pub use tf_naked::cover_of;
pub use translation::encode;
pub use undercover::is_undercover;
