//! The lines of cases, one by one.

use crate::answers::answer;
use crate::arguments::cut;
use crate::call::Call;
use crate::out::Out;
use crate::stop::Stop;
use crate::texts::{Kind, Texts};
use std::alloc::Global;

/// Why the rest of the cases is not read.
#[derive(Drop)]
pub enum Ended {
    /// The line of this number, from 1, has no right form.
    Line(u64),
    Memory,
}

/// Reads the cases, and prints what their calls answer.
pub fn run(alloc: Global, text: &[u8], out: &mut Out) -> Result<(), Ended> {
    let mut texts = Texts::new(alloc);
    let mut number = 0u64;
    for line in text.split(|byte| *byte == b'\n') {
        number = number.saturating_add(1);
        match take(alloc, line, &mut texts, out) {
            Ok(()) => {}
            Err(Stop::Memory) => return Err(Ended::Memory),
            Err(_) => return Err(Ended::Line(number)),
        }
    }
    Ok(())
}

// takes one line
fn take(alloc: Global, line: &[u8], texts: &mut Texts, out: &mut Out) -> Result<(), Stop> {
    match line {
        [] => Ok(()),
        [b'#', ..] => Ok(()),
        [b'|'] => texts.add_line(&[]),
        [b'|', b' ', rest @ ..] => texts.add_line(rest),
        [b'>', b' ', rest @ ..] => texts.add(rest),
        [b'x', b' ', rest @ ..] => texts.add_bytes(rest),
        [b'*', b' ', rest @ ..] => texts.add_copies(rest),
        _ => take_words(alloc, line, texts, out),
    }
}

fn take_words(alloc: Global, line: &[u8], texts: &mut Texts, out: &mut Out) -> Result<(), Stop> {
    match line {
        b"problem" => texts.begin(Kind::Problem),
        b"typed" => texts.begin(Kind::Typed),
        b"untyped" => texts.begin(Kind::Untyped),
        b"other" => texts.begin(Kind::Other),
        _ => return take_call(alloc, line, texts, out),
    }
    Ok(())
}

fn take_call(alloc: Global, line: &[u8], texts: &mut Texts, out: &mut Out) -> Result<(), Stop> {
    let (name, rest) = cut(line);
    if name == b"case".as_slice() {
        out.put(line);
        out.end();
        *texts = Texts::new(alloc);
        return Ok(());
    }
    out.put(b"  ");
    out.put(line);
    out.end();
    let call = Call { alloc, rest, texts };
    match answer(name, call, out) {
        Err(Stop::Refused(words)) => {
            out.line(words.as_slice());
            Ok(())
        }
        other => other,
    }
}
