//! The line that a stopped run leaves in the notes.

ghost use Rattle.std.specs.Prelude.{◌≡◌, ◌++◌, OnOk, OnErr};
ghost use Rattle.std.specs.Io.KnownBytes.{Appends};
ghost use Rattle.enc_base.specs.Counts.{Rose};
ghost use Rattle.enc_base.specs.Sink.{AppendsPrefix};
ghost use Rattle.enc_run.specs.Note.{line, number_word, not_built, cannot_read, cannot_write, no_memory, program_word};
ghost use Rattle.enc_run.specs.Calls.Note.{Notes};
ghost use Rattle.enc_run.specs.Work.{Adds, bytes_of, faults_of};

use crate::Stop;
use enc_base::{Failed, Sink};
use enc_pipeline::Fault;
use itoa::Buffer;
use std::alloc::Global;

// Writes two pieces.
fn write_both<E: Sink>(first: &[u8], second: &[u8], notes: &mut E) -> Result<(), Failed>
    ensures ok { OnOk result
        (Appends (E.bytes notes.old) (E.bytes notes.new) (first.now ++ second.now)) }
    ensures kept_faults { OnOk result (E.faults notes.new ≡ E.faults notes.old) }
    ensures failed { OnErr result (Rose (E.faults notes.old) (E.faults notes.new)) }
    ensures begins { OnErr result
        (AppendsPrefix (E.bytes notes.old) (E.bytes notes.new) (first.now ++ second.now)) }
{
    notes.write(first)?;
    notes.write(second)
}

#[tactic(auto, unfolding(crate::specs::Note::program_word))]
fn write_program_word<E: Sink>(notes: &mut E) -> Result<(), Failed>
    ensures ok { OnOk result (Appends (E.bytes notes.old) (E.bytes notes.new) program_word) }
    ensures kept_faults { OnOk result (E.faults notes.new ≡ E.faults notes.old) }
    ensures failed { OnErr result (Rose (E.faults notes.old) (E.faults notes.new)) }
    ensures begins { OnErr result
        (AppendsPrefix (E.bytes notes.old) (E.bytes notes.new) program_word) }
{
    notes.write(b"tfenc: ")
}

// Writes the number of a refusal, where there is one, and a space.
fn write_number<E: Sink>(number: Option<u8>, notes: &mut E) -> Result<(), Failed>
    ensures ok { OnOk result
        (Appends (E.bytes notes.old) (E.bytes notes.new) (number_word number)) }
    ensures kept_faults { OnOk result (E.faults notes.new ≡ E.faults notes.old) }
    ensures failed { OnErr result (Rose (E.faults notes.old) (E.faults notes.new)) }
    ensures begins { OnErr result
        (AppendsPrefix (E.bytes notes.old) (E.bytes notes.new) (number_word number)) }
{
    let Some(number) = number else {
        return Ok(());
    };
    let mut digits = Buffer::new();
    write_both(digits.format(number).as_bytes(), b" ", notes)
}

// Writes a number and two pieces.
fn write_text<E: Sink>(
    number: Option<u8>,
    first: &[u8],
    second: &[u8],
    notes: &mut E,
) -> Result<(), Failed>
    ensures ok { OnOk result (Appends (E.bytes notes.old) (E.bytes notes.new)
        (number_word number ++ (first.now ++ second.now))) }
    ensures kept_faults { OnOk result (E.faults notes.new ≡ E.faults notes.old) }
    ensures failed { OnErr result (Rose (E.faults notes.old) (E.faults notes.new)) }
    ensures begins { OnErr result (AppendsPrefix (E.bytes notes.old) (E.bytes notes.new)
        (number_word number ++ (first.now ++ second.now))) }
{
    write_number(number, notes)?;
    write_both(first, second, notes)
}

// Writes a line of a number and two pieces.
fn write_line<E: Sink>(
    number: Option<u8>,
    first: &[u8],
    second: &[u8],
    notes: &mut E,
) -> Result<(), Failed>
    ensures ok { OnOk result (Appends (E.bytes notes.old) (E.bytes notes.new)
        (line (number_word number ++ (first.now ++ second.now)))) }
    ensures kept_faults { OnOk result (E.faults notes.new ≡ E.faults notes.old) }
    ensures failed { OnErr result (Rose (E.faults notes.old) (E.faults notes.new)) }
    ensures begins { OnErr result (AppendsPrefix (E.bytes notes.old) (E.bytes notes.new)
        (line (number_word number ++ (first.now ++ second.now)))) }
{
    write_program_word(notes)?;
    write_text(number, first, second, notes)?;
    notes.write(b"\n")
}

// Adds a line of a number and two pieces. A write that fails is passed over.
fn add_line<E: Sink>(number: Option<u8>, first: &[u8], second: &[u8], notes: &mut E)
    ensures { Adds (bytes_of E.Sink notes.old notes.new) (faults_of E.Sink notes.old notes.new)
        (line (number_word number ++ (first.now ++ second.now))) }
{
    let _ = write_line(number, first, second, notes);
}

// The text of a refusal, or nothing where there is no memory for it.
fn message(alloc: Global, reason: &Fault) -> String {
    match reason.to_string(alloc) {
        Ok(text) => text,
        Err(_) => String::new(alloc),
    }
}

#[tactic(auto, unfolding(crate::specs::Note::not_built))]
fn not_built() -> &'static [u8]
    ensures { result.now ≡ not_built }
{
    b"not built"
}

#[tactic(auto, unfolding(crate::specs::Note::cannot_write))]
fn cannot_write() -> &'static [u8]
    ensures { result.now ≡ cannot_write }
{
    b"cannot write"
}

#[tactic(auto, unfolding(crate::specs::Note::no_memory))]
fn no_memory() -> &'static [u8]
    ensures { result.now ≡ no_memory }
{
    b"no memory"
}

#[tactic(auto, unfolding(crate::specs::Note::cannot_read))]
fn cannot_read() -> &'static [u8]
    ensures { result.now ≡ cannot_read }
{
    b"cannot read "
}

/// Writes the note of a stop: a line that begins with the program's name.
///
/// Where a write fails the note ends there. No answer of the notes is handed on.
pub fn write_note<E: Sink>(alloc: Global, stop: &Stop, notes: &mut E)
    ensures { Notes stop.now (bytes_of E.Sink notes.old notes.new)
        (faults_of E.Sink notes.old notes.new) }
{
    match stop {
        Stop::NotBuilt => add_line(None, not_built(), b"", notes),
        Stop::Unread(name) => add_line(None, cannot_read(), name.as_str().as_bytes(), notes),
        Stop::Refused(reason) => {
            let text = message(alloc, reason);
            add_line(reason.number(), text.as_bytes(), b"", notes);
        }
        Stop::Unwritten => add_line(None, cannot_write(), b"", notes),
        Stop::Memory => add_line(None, no_memory(), b"", notes),
    }
}
