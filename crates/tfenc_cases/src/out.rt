//! What is printed.

use enc_base::Name;
use std::alloc::Global;
use std::fmt::Display;

/// The lines that are printed so far, and whether some are lost for want of memory.
#[derive(Drop)]
pub struct Out {
    pub alloc: Global,
    bytes: Vec<u8>,
    lost: bool,
}

impl Out {
    pub fn new(alloc: Global) -> Out {
        Out {
            alloc,
            bytes: Vec::new(alloc),
            lost: false,
        }
    }

    pub fn is_whole(&self) -> bool {
        !self.lost
    }

    pub fn as_slice(&self) -> &[u8] {
        self.bytes.as_slice()
    }

    /// The bytes, or nothing where some are lost.
    pub fn into_bytes(self) -> Option<Vec<u8>> {
        let Out { bytes, lost, .. } = self;
        if lost { None } else { Some(bytes) }
    }

    pub fn put(&mut self, bytes: &[u8]) {
        if self.bytes.extend_from_slice(bytes).is_err() {
            self.lost = true;
        }
    }

    /// The bytes of a name, without quotes.
    pub fn name(&mut self, name: &Name) {
        self.put(name.as_slice());
    }

    /// A value as it is displayed.
    pub fn show(&mut self, value: &impl Display) {
        match format!(in self.alloc; "{value}") {
            Ok(text) => self.put(text.as_bytes()),
            Err(_) => self.lost = true,
        }
    }

    /// The margin of an answer's line.
    pub fn begin(&mut self) {
        self.put(b"    ");
    }

    pub fn end(&mut self) {
        self.put(b"\n");
    }

    /// A line of an answer.
    pub fn line(&mut self, bytes: &[u8]) {
        self.begin();
        self.put(bytes);
        self.end();
    }

    /// A line of an answer: words, and a value.
    pub fn told(&mut self, words: &[u8], value: &impl Display) {
        self.begin();
        self.put(words);
        self.show(value);
        self.end();
    }

    /// Numbers with blanks between them. Five or more equal ones are the number, a star and how
    /// many; `-` is no number at all.
    pub fn numbers(&mut self, numbers: &[u32]) {
        let mut value = 0;
        let mut count = 0u64;
        let mut before: &[u8] = b"";
        for number in numbers {
            if count > 0 && *number != value {
                self.run(before, value, count);
                before = b" ";
                count = 0;
            }
            value = *number;
            count = count.saturating_add(1);
        }
        if numbers.is_empty() {
            self.put(b"-");
        }
        self.run(before, value, count);
    }

    // so many equal numbers, each or the first behind a word
    fn run(&mut self, mut before: &[u8], value: u32, count: u64) {
        if count >= 5 {
            self.put(before);
            self.show(&value);
            self.put(b"*");
            self.show(&count);
            return;
        }
        for _ in 0..count {
            self.put(before);
            self.show(&value);
            before = b" ";
        }
    }

    /// A text line by line, with the margins of the input.
    pub fn text(&mut self, text: &[u8]) {
        for line in text.split_inclusive(|byte| *byte == b'\n') {
            self.begin();
            match line {
                [b'\n'] => self.put(b"|\n"),
                [.., b'\n'] => {
                    self.put(b"| ");
                    self.put(line);
                }
                _ => {
                    self.put(b"> ");
                    self.put(line);
                    self.end();
                }
            }
        }
    }
}
