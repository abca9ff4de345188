//! The texts of a case.

use crate::arguments::{cut, digits, hexadecimal};
use crate::stop::Stop;
use std::alloc::Global;

#[derive(Drop)]
pub enum Kind {
    Problem,
    Typed,
    Untyped,
    Other,
}

/// The texts, and the kind of the one that the next margin lines belong to.
#[derive(Drop)]
pub struct Texts {
    alloc: Global,
    pub problem: Vec<u8>,
    pub typed: Vec<u8>,
    pub untyped: Vec<u8>,
    pub other: Vec<u8>,
    kind: Kind,
}

impl Texts {
    pub fn new(alloc: Global) -> Texts {
        Texts {
            alloc,
            problem: Vec::new(alloc),
            typed: Vec::new(alloc),
            untyped: Vec::new(alloc),
            other: Vec::new(alloc),
            kind: Kind::Problem,
        }
    }

    /// Begins the text of this kind anew.
    pub fn begin(&mut self, kind: Kind) {
        match kind {
            Kind::Problem => self.problem.clear(),
            Kind::Typed => self.typed.clear(),
            Kind::Untyped => self.untyped.clear(),
            Kind::Other => self.other.clear(),
        }
        self.kind = kind;
    }

    /// Adds to the text that was begun last.
    pub fn add(&mut self, bytes: &[u8]) -> Result<(), Stop> {
        match self.kind {
            Kind::Problem => self.problem.extend_from_slice(bytes)?,
            Kind::Typed => self.typed.extend_from_slice(bytes)?,
            Kind::Untyped => self.untyped.extend_from_slice(bytes)?,
            Kind::Other => self.other.extend_from_slice(bytes)?,
        }
        Ok(())
    }

    /// Adds a line with its line feed.
    pub fn add_line(&mut self, line: &[u8]) -> Result<(), Stop> {
        self.add(line)?;
        self.add(b"\n")
    }

    /// Adds bytes of which each is two hexadecimal digits.
    pub fn add_bytes(&mut self, words: &[u8]) -> Result<(), Stop> {
        for word in words.split(|byte| *byte == b' ') {
            match hexadecimal(word) {
                Some(byte) => self.add(&[byte])?,
                None => return Err(Stop::Shape),
            }
        }
        Ok(())
    }

    /// Adds what stands behind a number, so many times.
    pub fn add_copies(&mut self, words: &[u8]) -> Result<(), Stop> {
        let (count, text) = cut(words);
        match digits(count) {
            Some(count) => self.repeat(count, text),
            None => Err(Stop::Shape),
        }
    }

    fn repeat(&mut self, count: u64, text: &[u8]) -> Result<(), Stop> {
        for i in 0..count {
            self.add_numbered(i, text)?;
        }
        Ok(())
    }

    // the text, with the number in the place of each sharp
    fn add_numbered(&mut self, number: u64, text: &[u8]) -> Result<(), Stop> {
        let digits = format!(in self.alloc; "{number}")?;
        for byte in text {
            if *byte == b'#' {
                self.add(digits.as_bytes())?;
            } else {
                self.add(&[*byte])?;
            }
        }
        Ok(())
    }
}
