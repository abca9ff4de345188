//! Names, numbers and separators, put among the bytes that wait for a sink.

ghost use Rattle.std.specs.Prelude.{◌≡◌, [], ◌∷◌, decimal};
ghost use Rattle.std.specs.List.{list_all};
ghost use Rattle.enc_base.specs.Pending.{Puts};
ghost use Rattle.tptp_words.specs.Text as text;
ghost use Rattle.tptp_words.specs.Text.{escaped, single_quote};
ghost use Rattle.fof_text.specs.Pieces.{between};
ghost use Rattle.fof_text.specs.Written as words;

use enc_base::{Pending, Sink};
use itoa::Buffer;

/// Puts a piece, but not before the first of several parts.
pub fn put_between<O: Sink>(index: usize, piece: &[u8], pending: &mut Pending, out: &mut O)
    ensures { Puts O.bytes O.faults pending.old pending.new out.old out.new
        (between index piece.now) }
{
    if index > 0 {
        pending.put(piece, out);
    }
}

/// Puts a number in decimal.
pub fn put_number<O: Sink>(number: u32, pending: &mut Pending, out: &mut O)
    ensures { Puts O.bytes O.faults pending.old pending.new out.old out.new (decimal number) }
{
    let mut buffer = Buffer::new();
    pending.put(buffer.format(number).as_bytes(), out);
}

fn is_name_byte(byte: u8) -> bool
    ensures { result ≡ text.is_name byte }
{
    byte.is_ascii_alphanumeric() || byte == b'_'
}

fn all_name_bytes(bytes: &[u8]) -> bool
    ensures { result ≡ list_all text.is_name bytes.now }
{
    bytes.iter().all(|byte| is_name_byte(*byte))
}

/// Whether the name is a word as it is.
pub(crate) fn is_lower(name: &[u8]) -> bool
    ensures { result ≡ words.is_lower name.now }
{
    match name {
        [] => false,
        [first, rest @ ..] => first.is_ascii_lowercase() && all_name_bytes(rest),
    }
}

/// Puts a byte of a quoted name, with a backslash before a quote or a backslash.
fn put_byte<O: Sink>(byte: u8, pending: &mut Pending, out: &mut O)
    ensures { Puts O.bytes O.faults pending.old pending.new out.old out.new
        (escaped single_quote (byte ∷ [])) }
{
    if byte == b'\'' || byte == b'\\' {
        pending.put(&[b'\\', byte], out);
    } else {
        pending.put(&[byte], out);
    }
}

/// Puts the bytes of a quoted name.
fn put_escaped<O: Sink>(bytes: &[u8], pending: &mut Pending, out: &mut O)
    ensures { Puts O.bytes O.faults pending.old pending.new out.old out.new
        (escaped single_quote bytes.now) }
{
    for byte in bytes {
        put_byte(*byte, pending, out);
    }
}

/// Puts the name of a symbol, in quotes unless it is a word as it is.
pub fn put_name<O: Sink>(name: &[u8], pending: &mut Pending, out: &mut O)
    ensures { Puts O.bytes O.faults pending.old pending.new out.old out.new
        (words.name_word name.now).spelling }
{
    if is_lower(name) {
        pending.put(name, out);
    } else {
        pending.put(b"'", out);
        put_escaped(name, pending, out);
        pending.put(b"'", out);
    }
}
