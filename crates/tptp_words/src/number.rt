//! Numbers: how long the one at the front of a text is.

ghost use Rattle.std.specs.Prelude.{◌≡◌, ◌≤◌, length};
ghost use Rattle.tptp_words.specs.Scanning as scanning;

use crate::bytes::{behind, byte_at};
use crate::piece::Piece;
use crate::word::WordKind;

fn sign_len(text: &[u8]) -> usize
    ensures exact { result ≡ scanning.sign_len text.now }
    ensures within { result ≤ 1 }
{
    match byte_at(text, 0) {
        b'+' | b'-' => 1,
        _ => 0,
    }
}

fn digits_len(text: &[u8]) -> usize
    ensures exact { result ≡ scanning.digits_len text.now }
    ensures within { result ≤ length text.now }
{
    text.iter().take_while(|byte| byte.is_ascii_digit()).count()
}

/// The length of this byte and the digits behind it, or 0 where they do not stand in front.
#[tactic(auto, unfolding(crate::specs::Scanning::part_len))]
fn part_len(byte: u8, text: &[u8]) -> usize
    ensures exact { result ≡ scanning.part_len byte text.now }
    ensures within { result ≤ length text.now }
{
    if byte_at(text, 0) != byte {
        return 0;
    }
    match digits_len(behind(text, 1)) {
        0 => 0,
        count => 1 + count,
    }
}

/// The length of `e` or `E`, a sign or none, and digits, or 0 where they do not stand in front.
#[tactic(auto, unfolding(crate::specs::Scanning::exponent_len))]
fn exponent_len(text: &[u8]) -> usize
    ensures exact { result ≡ scanning.exponent_len text.now }
    ensures within { result ≤ length text.now }
{
    if !matches!(byte_at(text, 0), b'e' | b'E') {
        return 0;
    }
    let before = 1 + sign_len(behind(text, 1));
    match digits_len(behind(text, before)) {
        0 => 0,
        count => before + count,
    }
}

/// The length of what follows the first digits of a number.
#[tactic(auto, unfolding(crate::specs::Scanning::tail_len))]
fn tail_len(text: &[u8]) -> usize
    ensures exact { result ≡ scanning.tail_len text.now }
    ensures within { result ≤ length text.now }
{
    let ratio = part_len(b'/', text);
    if ratio > 0 {
        return ratio;
    }
    let fraction = part_len(b'.', text);
    fraction + exponent_len(behind(text, fraction))
}

/// The number at the front, or the byte that begins none.
#[tactic(auto, unfolding(crate::specs::Scanning::number_at))]
pub fn number(text: &[u8]) -> Piece
    ensures exact { result ≡ scanning.number_at text.now }
{
    let sign = sign_len(text);
    let count = digits_len(behind(text, sign));
    if count == 0 {
        return Piece::Bad(0);
    }
    let integer = sign + count;
    Piece::Word(WordKind::Number, integer + tail_len(behind(text, integer)))
}
