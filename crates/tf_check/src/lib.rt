//! The type checker: from a file's trees to a typed problem, or to the first fault.
#![tactic(auto)]

mod checker;
mod context;
mod declarations;
mod error;
mod formulas;
mod kinds;
mod laws;
mod names;
mod numbers;
mod scope;
mod table;
mod terms;
mod types;

pub use checker::check;
pub use error::TypeError;
pub use laws::{
    a_file_has_one_problem, faults_say_all, typed_files_are_sound, typed_names_are_writable,
};
