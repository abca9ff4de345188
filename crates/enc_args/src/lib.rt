//! The schemes `args` and `erase`: type arguments alone, and nothing at all.
#![tactic(auto)]

mod args;
mod erase;
mod laws;
mod lifting;
mod lowering;
mod not_free;
mod translation;

pub use args::Args;
pub use erase::Erase;
pub use laws::{args_keeps_models, erase_keeps_models};
pub use lifting::lift;
pub use lowering::lower;
pub use not_free::first_not_free;
pub use translation::encode;
