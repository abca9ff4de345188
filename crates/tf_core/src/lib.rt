//! Types, terms, formulas and problems of typed first-order logic.
#![tactic(auto)]

mod context;
mod formula;
mod formula_typing;
mod instance;
mod laws;
mod nnf;
mod nnf_typing;
mod normal;
mod number;
mod problem;
mod scope;
mod signature;
mod term;
mod terms;
mod ty;
mod typing;

pub use formula::{Formula, copy_formulas, same_formulas};
pub use instance::{is_instance, same_instance};
pub use laws::{
    entries_stand_in_blocks, existential_is_true_of_some, instances_are_typed,
    instances_have_values, shifted_terms_are_typed, shifted_terms_have_values,
    substitution_keeps_truth, substitution_keeps_typing, truth_depends_on_occurring,
    typing_is_decided, universal_is_true_of_each, values_are_in_range,
};
pub use nnf::{Nnf, copy_parts, same_parts};
pub use normal::{Normal, NormalFormula, copy_normal_formulas, same_normal_formulas};
pub use problem::{Problem, Role, Stated, copy_stated, same_stated};
pub use signature::{
    Constructor, Signature, Symbol, copy_constructors, copy_symbols, same_constructors,
    same_symbols,
};
pub use term::{Term, copy_terms, same_terms, substituted_terms};
pub use ty::{Ty, copy_types, instances_of, same_types};
