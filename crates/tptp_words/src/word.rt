//! A word, and why a text has no further one.

/// The kinds of words, after the tokens of the TPTP language's grammar.
#[derive(Clone, Copy, Debug)]
pub enum WordKind {
    /// A letter `a` to `z`, then letters, digits and `_`.
    Lower,
    /// A letter `A` to `Z`, then letters, digits and `_`.
    Upper,
    /// At least one character between `'` and `'`.
    Quoted,
    /// Characters between `"` and `"`.
    Distinct,
    /// `$` and the spelling of a `Lower` word.
    Dollar,
    /// `$$` and the spelling of a `Lower` word.
    System,
    /// An integer, a rational or a real, with or without a sign.
    Number,
    /// A bracket, a separator or a connective.
    Mark,
}

/// A word's kind and its span: its bytes are those from `from` up to, but not with, `to`, counted
/// from 0.
#[derive(Clone, Copy, Debug)]
pub struct Word {
    pub kind: WordKind,
    pub from: usize,
    pub to: usize,
}

/// Why a text has no further word. Places are bytes, counted from 0.
#[derive(Clone, Copy, Debug)]
pub enum WordError {
    /// The byte at this place can neither begin nor continue a word.
    BadByte { at: usize },
    /// The block comment or the quoted text that opens at this place has no end.
    Unclosed { at: usize },
}
