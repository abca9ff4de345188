//! Translations of normal problems into untyped ones: one definition for every scheme.
#![tactic(auto)]

mod applies;
mod axioms;
mod by_scheme;
mod choices;
mod encoded;
mod encoding;
mod flags;
mod flat;
mod formulas;
mod free_sorts;
mod kinds;
mod laws;
mod mark;
mod marked;
mod occurring;
mod open_formula;
mod polymorphic;
mod refusal;
mod renumber;
mod scheme;
mod scope;
mod shape;
mod signature;
mod slot;
mod slots;
mod stated;
mod tables;
mod terms;
mod type_marks;
mod type_writer;
mod types;
mod writer;

pub use applies::{names_tell_polymorphic, schemes_apply_exactly};
pub use by_scheme::encode_by;
pub use choices::{Binding, Choices, Domain, Elements, Marking, TypeArguments};
pub use encoded::{Encoded, copy_marks, same_marks};
pub use encoding::encode;
pub use free_sorts::FreeSorts;
pub use laws::{
    constructors_have_numbers, only_marked_symbols_occur, schemes_fit,
    translations_are_well_formed, translations_can_be_named, type_schemes_are_by_type,
    types_have_their_terms,
};
pub use mark::Mark;
pub use polymorphic::first_polymorphic;
pub use refusal::Refusal;
pub use scheme::Scheme;
pub use types::type_term;
