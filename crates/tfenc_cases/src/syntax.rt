//! Words and files.

use crate::call::Call;
use crate::out::Out;
use crate::put_raw::put_entry;
use crate::refusals::unread;
use crate::stop::Stop;
use std::alloc::Global;
use tptp_syntax::{File, read_file};
use tptp_words::{Word, WordError, WordKind, Words};

/// Whether the call is one of this layer, which is then made.
pub fn answer(name: &[u8], call: &mut Call<'_>, out: &mut Out) -> Result<bool, Stop> {
    match name {
        b"words" => words(call, out),
        b"read" => read(call, out)?,
        b"entries" => entries(call, out)?,
        _ => return Ok(false),
    }
    Ok(true)
}

// the words of a text, and how it ends, twice
fn words(call: &Call<'_>, out: &mut Out) {
    let text = call.text();
    let mut words = Words::new(text);
    out.begin();
    for _ in 0..text.len() {
        match words.next() {
            Ok(Some(word)) => put_word(out, &word),
            _ => break,
        }
    }
    put_end(out, words.next());
    out.put(b", ");
    put_end(out, words.next());
    out.end();
}

fn put_word(out: &mut Out, word: &Word) {
    out.put(kind_word(word.kind));
    out.show(&word.from);
    out.put(b" ");
    out.show(&word.to);
    out.put(b", ");
}

fn kind_word(kind: WordKind) -> &'static [u8] {
    match kind {
        WordKind::Lower => b"Lower ",
        WordKind::Upper => b"Upper ",
        WordKind::Quoted => b"Quoted ",
        WordKind::Distinct => b"Distinct ",
        WordKind::Dollar => b"Dollar ",
        WordKind::System => b"System ",
        WordKind::Number => b"Number ",
        WordKind::Mark => b"Mark ",
    }
}

fn put_end(out: &mut Out, end: Result<Option<Word>, WordError>) {
    match end {
        Ok(Some(_)) => out.put(b"more"),
        Ok(None) => out.put(b"end"),
        Err(WordError::BadByte { at }) => {
            out.put(b"bad ");
            out.show(&at);
        }
        Err(WordError::Unclosed { at }) => {
            out.put(b"unclosed ");
            out.show(&at);
        }
    }
}

/// The file that a text spells.
pub fn file_of(alloc: Global, text: &[u8]) -> Result<File, Stop> {
    match read_file(alloc, text) {
        Ok(file) => Ok(file),
        Err(reason) => Err(unread(alloc, &reason)),
    }
}

fn read(call: &Call<'_>, out: &mut Out) -> Result<(), Stop> {
    let file = file_of(call.alloc, call.text())?;
    for entry in file.entries.as_slice() {
        put_entry(out, entry);
    }
    if file.entries.as_slice().is_empty() {
        out.line(b"empty");
    }
    Ok(())
}

fn entries(call: &Call<'_>, out: &mut Out) -> Result<(), Stop> {
    let file = file_of(call.alloc, call.text())?;
    out.told(b"", &file.entries.as_slice().len());
    Ok(())
}
