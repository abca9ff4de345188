//! Structures that are given as functions, written as tables: what the tables are, and how they are made.
#![tactic(auto)]

mod blocks;
mod counts;
mod group_counts;
mod groups;
mod laws;
mod tuples;
mod type_ways;
mod typed;
mod typed_counts;
mod types;
mod untyped;
mod ways;

pub use counts::{count_tuples, untyped_entries};
pub use laws::{counts_are_lengths, normal_models_are_tabled, typed_tables_are_functions};
pub use tuples::{TupleFunction, table_of};
pub use typed::{TypedSource, tabulate_typed};
pub use typed_counts::{add_sizes, entries_of_constructors, entries_of_symbol, typed_entries};
pub use untyped::{UntypedSource, tabulate};
