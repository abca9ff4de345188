//! Files are read from texts.

ghost use Rattle.std.specs.Prelude.{◌≡◌, ◌≢◌, ◌<◌, ◌≤◌, Ok, Err, IfOk, IfErr, length};
ghost use Rattle.tptp_words.specs.Text.{IsText};
ghost use Rattle.tptp_syntax.specs.declared.fault.Fault.TheVariants as fault_kind;
ghost use Rattle.tptp_syntax.specs.declared.error.ReadError.TheVariants.{Memory, TooLong};
ghost use Rattle.tptp_syntax.specs.Descent as descent;
ghost use Rattle.tptp_syntax.specs.Ahead.{cause};
ghost use Rattle.tptp_syntax.specs.Answers as answers;
ghost use Rattle.tptp_syntax.specs.Files.{Verdict, SpellsWithin, IsRefused, most_bytes, most_nesting};

use crate::entry::File;
use crate::entry_reader::file;
use crate::error::ReadError;
use crate::fault::Fault;
use crate::reader::Reader;
use std::alloc::Global;
use tptp_words::WordError;

/// How many bytes a text may have.
pub const MAX_BYTES: usize = 16_777_216;

/// The refusal of a text whose words end because of this error.
fn stopped_by(error: WordError) -> ReadError
    ensures { result ≡ answers.stopped_by error }
{
    match error {
        WordError::BadByte { at } => ReadError::BadByte { at },
        WordError::Unclosed { at } => ReadError::Unclosed { at },
    }
}

/// The refusal of the word at this place.
fn refused_at(fault: Fault, at: usize) -> ReadError
    ensures { fault ≢ fault_kind.Memory → result ≡ answers.refused_at (cause fault) at }
{
    match fault {
        Fault::Memory => ReadError::Memory,
        Fault::Syntax => ReadError::Syntax { at },
        Fault::TooDeep => ReadError::TooDeep { at },
        Fault::Language => ReadError::Language { at },
        Fault::Role => ReadError::Role { at },
        Fault::Number => ReadError::Number { at },
        Fault::DistinctObject => ReadError::DistinctObject { at },
        Fault::Include => ReadError::Include { at },
    }
}

/// The refusal of a text of so many bytes at what stands next.
fn refusal(reader: &Reader<'_>, fault: Fault, total: usize) -> ReadError
    ensures { fault ≢ fault_kind.Memory → result ≡ answers.refusal total (cause fault) reader.now.words reader.now.fault }
{
    if let Some(at) = reader.place() {
        return refused_at(fault, at);
    }
    match reader.error() {
        Some(error) => stopped_by(error),
        None => ReadError::Syntax { at: total },
    }
}

/// The file that the words of a text of so many bytes spell.
fn read(alloc: Global, reader: &mut Reader<'_>, total: usize) -> Result<File, ReadError>
    ensures { result ≢ Err Memory → result ≡ answers.answer total (descent.file_at 400 reader.old) }
{
    match file(alloc, reader) {
        Ok(file) => match reader.error() {
            None => Ok(file),
            Some(error) => Err(stopped_by(error)),
        },
        Err(Fault::Memory) => Err(ReadError::Memory),
        Err(fault) => Err(refusal(reader, fault, total)),
    }
}

/// The file that a text spells, by the TPTP language's grammar in this profile, or where and why the
/// text is refused: the first word at which its words begin no file or nest deeper than 400, or the
/// byte because of which there is no word, or the end of a text whose words derive no file.
///
/// `Err(Memory)` is want of memory. Every other answer is the only one that the text has.
pub fn read_file(alloc: Global, text: &[u8]) -> Result<File, ReadError>
    ensures verdict { result ≢ Err Memory → Verdict text.now result }
    ensures exact { IfOk result (λ file. SpellsWithin most_nesting text.now file) }
    ensures kept { (file : _) → length text.now ≤ most_bytes → SpellsWithin most_nesting text.now file → result ≢ Err Memory → result ≡ Ok file }
    ensures refused { IfErr result (λ e. e ≢ Memory → length text.now ≤ most_bytes → IsRefused text.now e) }
    ensures too_long { most_bytes < length text.now → result ≡ Err (TooLong (length text.now)) }
{
    if text.len() > MAX_BYTES {
        return Err(ReadError::TooLong { length: text.len() });
    }
    let mut reader = Reader::new(text);
    read(alloc, &mut reader, text.len())
}
