//! The words of a text, one by one.

ghost use Rattle.std.specs.Prelude.{◌≡◌, length};
ghost use Rattle.tptp_words.specs.Text.{IsText};
ghost use Rattle.tptp_words.specs.Steps.{Yields, AllSpelled};

use crate::bytes::behind;
use crate::piece::{Piece, piece_at};
use crate::word::{Word, WordError};
use std::marker::Model;

/// The words of a text that are left, in the order of the text. Time is linear in its bytes, and no
/// memory is taken.
#[derive(Drop)]
pub struct Words<'a> {
    text: &'a [u8],
    rest: &'a [u8],
}

impl<'a> Model for Words<'a> {
    ghost use Rattle.std.specs.Prelude.{◌≤◌, length};
    ghost use Rattle.tptp_words.specs.Scanning.{Left, left};

    ghost Value = { Left };

    ghost view = { λ w. left (length w.text.now) w.rest.now };

    ghost invariant = { λ w. length w.rest.now ≤ length w.text.now };
}

impl<'a> Words<'a> {
    /// All words of the text, as the tokens of the TPTP language's grammar.
    pub fn new(text: &'a [u8]) -> Words<'a>
        ensures exact { IsText (length text.now) text.now result.words result.fault }
        ensures spelled { AllSpelled text.now result.words }
    {
        Words { text, rest: text }
    }

    /// The next word, or `None` at the end of the text. After an error each further call gives the
    /// same error.
    pub fn next(&mut self) -> Result<Option<Word>, WordError>
        ensures exact { Yields self.old result self.new }
    {
        let mut rest = self.rest;
        loop {
            let from = self.text.len() - rest.len();
            match piece_at(rest) {
                Piece::Gap(count) => rest = behind(rest, count),
                Piece::Word(kind, count) => {
                    self.rest = behind(rest, count);
                    let to = from + count;
                    return Ok(Some(Word { kind, from, to }));
                }
                Piece::End => return Ok(None),
                Piece::Bad(distance) => return Err(WordError::BadByte {
                    at: from + distance,
                }),
                Piece::Open => return Err(WordError::Unclosed { at: from }),
            }
        }
    }
}
