//! From the bytes of a problem to those of its translation, and from tables of models of the one to
//! tables of models of the other.
#![tactic(auto)]

mod checking;
mod fault;
mod how;
mod laws;
mod lifting;
mod lowering;
mod output;
mod prepared;
mod reading;
mod schemes;

pub use checking::check_file;
pub use fault::Fault;
pub use how::How;
pub use laws::{
    checking_has_one_answer, lifted_tables_are_of_models, lifting_has_one_answer,
    lowered_tables_are_of_models, lowering_has_one_answer,
};
pub use lifting::lift_file;
pub use lowering::lower_file;
pub use output::scheme_name;
pub use prepared::{Prepared, encode_file, lifts, prepare, written_formulas};
pub use reading::read_problem;
