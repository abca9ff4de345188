//! The scheme `guards`: a guard at each binder, and a typing axiom for each function.
#![tactic(auto)]

mod choices;
mod laws;
mod lifting;
mod lowering;
mod translation;

pub use choices::Guards;
pub use laws::guards_keep_models;
pub use lifting::lift;
pub use lowering::lower;
pub use translation::encode;
