//! The piece that a text begins with.

ghost use Rattle.std.specs.Prelude.{◌≡◌, ◌≤◌, length};
ghost use Rattle.tptp_words.specs.Scanning as scanning;
ghost use Rattle.tptp_words.specs.Text as lexical;
ghost use Rattle.std.specs.List.{prefix_len};

use crate::bytes::{behind, byte_at};
use crate::number::number;
use crate::quoted::{block, quoted};
use crate::word::WordKind;

/// What stands at the front of a text. Lengths and distances are counted in bytes.
pub enum Piece {
    /// Nothing: the text has no bytes.
    End,
    /// So many bytes of a gap, or all that are left where these are fewer.
    Gap(usize),
    /// A word of this kind and length.
    Word(WordKind, usize),
    /// The byte at this distance can neither begin nor continue a word.
    Bad(usize),
    /// A block comment or quoted text that has no end.
    Open,
}

/// The length of the longest mark that begins with these three bytes, or 0 where none does.
fn mark_len(first: u8, second: u8, third: u8) -> usize
    ensures exact { result ≡ scanning.mark_len first second third }
{
    match (first, second, third) {
        (b'<', b'=', b'>') | (b'<', b'~', b'>') => 3,
        (b'<', b'=', _) | (b'!', b'=' | b'>', _) | (b'=', b'>', _) | (b'~', b'&' | b'|', _) => 2,
        (b'<', _, _) => 0,
        (
            b'('
            | b')'
            | b'['
            | b']'
            | b','
            | b'.'
            | b':'
            | b'='
            | b'~'
            | b'&'
            | b'|'
            | b'!'
            | b'?'
            | b'>'
            | b'*',
            _,
            _,
        ) => 1,
        _ => 0,
    }
}

/// The mark at the front, or the byte that begins none.
#[tactic(auto, unfolding(crate::specs::Scanning::mark_at))]
fn mark(text: &[u8]) -> Piece
    ensures exact { result ≡ scanning.mark_at text.now }
{
    match mark_len(byte_at(text, 0), byte_at(text, 1), byte_at(text, 2)) {
        0 => Piece::Bad(0),
        length => Piece::Word(WordKind::Mark, length),
    }
}

/// How many bytes of a name stand at the front.
fn name_len(text: &[u8]) -> usize
    ensures exact { result ≡ prefix_len lexical.is_name text.now }
    ensures within { result ≤ length text.now }
{
    text.iter()
        .take_while(|byte| byte.is_ascii_alphanumeric() || **byte == b'_')
        .count()
}

/// How many bytes stand before the next line feed, or before the end.
fn line_len(text: &[u8]) -> usize
    ensures exact { result ≡ prefix_len lexical.not_feed text.now }
    ensures within { result ≤ length text.now }
{
    text.iter().take_while(|byte| **byte != b'\n').count()
}

/// A word that begins with a dollar, from behind that dollar on.
fn dollar(rest: &[u8]) -> Piece
    ensures exact { result ≡ scanning.dollar_at rest.now }
{
    let first = byte_at(rest, 0);
    if first.is_ascii_lowercase() {
        Piece::Word(WordKind::Dollar, 1 + name_len(rest))
    } else if first == b'$' && byte_at(rest, 1).is_ascii_lowercase() {
        Piece::Word(WordKind::System, 2 + name_len(behind(rest, 1)))
    } else {
        Piece::Bad(0)
    }
}

/// The piece at the front of a text.
#[tactic(auto, unfolding(crate::specs::Scanning::begun))]
pub fn piece_at(text: &[u8]) -> Piece
    ensures exact { result ≡ scanning.piece_at text.now }
{
    let [first, rest @ ..] = text else {
        return Piece::End;
    };
    match *first {
        b' ' | b'\t' | b'\r' | b'\n' => Piece::Gap(1),
        b'a'..=b'z' => Piece::Word(WordKind::Lower, 1 + name_len(rest)),
        b'A'..=b'Z' => Piece::Word(WordKind::Upper, 1 + name_len(rest)),
        b'%' => Piece::Gap(2 + line_len(rest)),
        b'/' => block(rest),
        b'\'' | b'"' => quoted(*first, rest),
        b'$' => dollar(rest),
        b'0'..=b'9' | b'+' | b'-' => number(text),
        _ => mark(text),
    }
}
