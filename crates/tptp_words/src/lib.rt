//! The words of a TPTP text, one by one, with their places.
#![tactic(auto)]

mod bytes;
mod laws;
mod number;
mod piece;
mod quoted;
mod word;
mod words;

pub use laws::{one_list, spaced_words_are_read, written_words_are_read};
pub use word::{Word, WordError, WordKind};
pub use words::Words;
