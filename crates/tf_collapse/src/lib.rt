//! The collapsed domain of a typed structure, whose elements are cloned: tables over it, and the
//! law of truth in them.
#![tactic(auto)]

mod collapse;
mod error;
mod laws;

pub use collapse::Collapse;
pub use error::PullError;
pub use laws::collapse_keeps_truth;
