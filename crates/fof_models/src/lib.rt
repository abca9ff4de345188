//! Untyped first-order problems, their finite structures, and truth in them.
#![tactic(auto)]

mod env;
mod first_false;
mod formula;
mod holds;
mod is_sound;
mod laws;
mod prefix;
mod problem;
mod structure;
mod value;
mod well_formed;

pub use env::FofEnv;
pub use formula::{Fof, FofTerm, copy_formulas, copy_terms, same_formulas, same_terms};
pub use is_sound::is_sound_signature;
pub use laws::{
    entries_stand_at_places, existential_is_true_of_some, models_are_tables,
    prefixes_are_quantifiers, prefixes_are_true_of_tuples, tables_are_functions,
    universal_is_true_of_each,
};
pub use problem::{
    FofFormula, FofProblem, FofRole, FofSymbol, copy_stated, copy_symbols, same_stated,
    same_symbols,
};
pub use structure::Structure;
