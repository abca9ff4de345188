//! A call of a case, with its arguments.

use crate::arguments::{cut, number, scheme};
use crate::stop::Stop;
use crate::texts::Texts;
use enc_marks::Scheme;
use std::alloc::Global;

/// A call: what stands behind its name, and the texts of its case.
#[derive(Drop)]
pub struct Call<'a> {
    pub alloc: Global,
    pub rest: &'a [u8],
    pub texts: &'a Texts,
}

impl<'a> Call<'a> {
    /// The text on the line, or the problem's.
    pub fn text(&self) -> &'a [u8] {
        self.or(self.texts.problem.as_slice())
    }

    /// The text on the line, or the typed table's.
    pub fn typed(&self) -> &'a [u8] {
        self.or(self.texts.typed.as_slice())
    }

    /// The text on the line, or the untyped table's.
    pub fn untyped(&self) -> &'a [u8] {
        self.or(self.texts.untyped.as_slice())
    }

    fn or(&self, text: &'a [u8]) -> &'a [u8] {
        if self.rest.is_empty() {
            text
        } else {
            self.rest
        }
    }

    /// The first word of the arguments. The call is left without it.
    pub fn word(&mut self) -> &'a [u8] {
        let (word, rest) = cut(self.rest);
        self.rest = rest;
        word
    }

    /// The number that the arguments begin with. The call is left without it.
    pub fn number(&mut self) -> Result<u32, Stop> {
        number(self.word())
    }

    /// The scheme that the arguments begin with. The call is left without it.
    pub fn scheme(&mut self) -> Result<Scheme, Stop> {
        scheme(self.word())
    }
}
