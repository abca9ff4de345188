//! Tables of typed and untyped structures as text: read exactly, and written.
#![tactic(auto)]

mod blocks;
mod checks;
mod counted;
mod ends;
mod error;
mod fault;
mod form;
mod index;
mod items;
mod known;
mod laws;
mod lines;
mod marks;
mod partial;
mod parts;
mod reader;
mod sizes;
mod spelled;
mod symbols;
mod typed;
mod typed_laws;
mod untyped;
mod write;
mod written_laws;

pub use error::TableError;
pub use laws::{
    a_table_has_one_item_for_each, a_text_has_one_verdict, an_untyped_table_is_not_refused,
    an_untyped_table_is_said, an_untyped_text_is_a_table,
};
pub use typed::read_typed;
pub use typed_laws::{
    a_typed_table_is_not_refused, a_typed_table_is_said, a_typed_text_is_a_table,
};
pub use untyped::read_untyped;
pub use write::{write_typed, write_untyped};
pub use written_laws::{
    one_typed_structure, one_untyped_structure, typed_text_is_its_table, untyped_text_is_its_table,
};
