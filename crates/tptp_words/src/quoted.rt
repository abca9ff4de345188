//! Quoted text and block comments: what ends only at a byte that closes it.

ghost use Rattle.std.specs.Prelude.{◌≡◌, false};
ghost use Rattle.tptp_words.specs.Scanning as scanning;

use crate::bytes::{behind, byte_at};
use crate::piece::Piece;
use crate::word::WordKind;

/// Quoted text of this length, the quotes with it.
fn closed(quote: u8, length: usize) -> Piece
    ensures exact { result ≡ scanning.closed_at quote length }
{
    match quote {
        b'\'' if length == 2 => Piece::Bad(1),
        b'\'' => Piece::Word(WordKind::Quoted, length),
        _ => Piece::Word(WordKind::Distinct, length),
    }
}

/// Quoted text, from behind its opening quote on.
pub fn quoted(quote: u8, mut text: &[u8]) -> Piece
    ensures exact { result ≡ scanning.quoted_from quote 1 false text.entry.now }
{
    let mut count = 1;
    let mut escape = false;
    'bytes: while let [first, rest @ ..] = text {
        if escape {
            if *first != quote && *first != b'\\' {
                return Piece::Bad(count);
            }
            escape = false;
            count += 2;
        } else if *first == quote {
            return closed(quote, count + 1);
        } else if *first == b'\\' {
            escape = true;
        } else if matches!(*first, b' '..=b'~') {
            count += 1;
        } else {
            return Piece::Bad(count);
        }
        text = rest;
    }
    if escape {
        Piece::Bad(count)
    } else {
        Piece::Open
    }
}

/// A block comment, from behind its slash on.
pub fn block(rest: &[u8]) -> Piece
    ensures exact { result ≡ scanning.block_at rest.now }
{
    if byte_at(rest, 0) != b'*' {
        return Piece::Bad(0);
    }
    let mut text = behind(rest, 1);
    let mut count = 2;
    'bytes: while let [first, after @ ..] = text {
        if *first == b'*' && byte_at(after, 0) == b'/' {
            return Piece::Gap(count + 2);
        }
        count += 1;
        text = after;
    }
    Piece::Open
}
