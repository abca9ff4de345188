//! The files of TPTP typed first-order problems: their trees, their grammar and their reader.
#![tactic(auto)]

mod entry;
mod entry_reader;
mod error;
mod fault;
mod file_facts;
mod fixed;
mod formula;
mod formula_reader;
mod language;
mod laws;
mod read;
mod reader;
mod spelled;
mod term;
mod term_reader;
mod type_reader;
mod types;

pub use entry::{Entry, File, StatedRole, copy_entries, same_entries};
pub use entry_reader::MAX_NESTING;
pub use error::ReadError;
pub use file_facts::a_file_is_no_larger_than_its_text;
pub use formula::{RawFormula, copy_formulas, same_formulas};
pub use laws::{
    a_text_spells_one_file, depth_is_nesting, fronts_begin_a_file, one_verdict,
    words_derive_one_file,
};
pub use read::{MAX_BYTES, read_file};
pub use term::{RawTerm, copy_terms, same_terms};
pub use types::{Bound, TypeExpr, copy_bounds, copy_types, same_bounds, same_types};
