//! Where variables stand in normal problems: covers, naked places and free sorts.
#![tactic(auto)]

mod around;
mod binder;
mod cover;
mod finding;
mod first;
mod free;
mod kinds;
mod laws;
mod listing;
mod naked_laws;
mod notes;
mod place;
mod position;
mod scope;
mod set;
mod sort_laws;
mod sort_list;
mod sort_table;

pub use binder::Binder;
pub use cover::{cover_of, covers_of_symbol, covers_of_symbols, kept_of_symbol};
pub use finding::universal_binders;
pub use first::first_naked;
pub use free::free_sorts;
pub use laws::marked_places_are_covers;
pub use naked_laws::{
    binders_are_told, naked_places_are_of_naked_variables, naked_types_are_sorts,
    naked_variables_have_naked_types, no_place_is_naked,
};
pub use place::Place;
pub use position::{Kind, Position};
pub use sort_laws::{sorts_are_types, sorts_hold_types, sorts_stand_once};
pub use sort_list::sorts;
pub use sort_table::SortTable;
