//! The text of a first-order problem, what a text states, and the names of its symbols.
#![tactic(auto)]

mod binders;
mod choose;
mod formula;
mod laws;
mod name;
mod names;
mod problem;
mod put;
mod term;
mod uses;

pub use laws::{
    chosen_names_are_names, comments_change_nothing, numbers_are_least,
    stated_problems_have_models_together, text_states_its_problem,
};
pub use names::Names;
pub use problem::{WriteFault, put_problem, write_problem};
pub use put::{put_name, put_number};
