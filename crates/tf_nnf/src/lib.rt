//! The normal problem of a typed problem, and models of the one from models of the other.
#![tactic(auto)]

mod carry;
mod error;
mod form;
mod instance;
mod laws;
mod nodes;
mod normal;

pub use carry::{from_normal, to_normal};
pub use error::NormalError;
pub use laws::{
    extension_is_model, model_has_one_extension, negative_form_turns_truth,
    positive_form_keeps_truth, reduct_is_model,
};
pub use normal::normalise;
