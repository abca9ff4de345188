//! Words, numbers and names of schemes.

use crate::stop::Stop;
use enc_base::List;
use enc_marks::Scheme;
use std::alloc::Global;

/// What stands in front of the first blank, and what behind it.
pub fn cut(line: &[u8]) -> (&[u8], &[u8]) {
    let mut words = line.splitn(2, |byte| *byte == b' ');
    let first = words.next().unwrap_or(&[]);
    (first, words.next().unwrap_or(&[]))
}

/// A number in decimal.
pub fn digits(word: &[u8]) -> Option<u64> {
    if word.is_empty() {
        return None;
    }
    let mut number = 0u64;
    for byte in word {
        let digit = digit(*byte)?;
        if digit > 9 {
            return None;
        }
        number = number.checked_mul(10)?.checked_add(u64::from(digit))?;
    }
    Some(number)
}

// the value of a hexadecimal digit
fn digit(byte: u8) -> Option<u8> {
    match byte {
        b'0'..=b'9' => Some(byte - b'0'),
        b'a'..=b'f' => Some(byte - b'a' + 10),
        _ => None,
    }
}

/// The byte of two hexadecimal digits.
pub fn hexadecimal(word: &[u8]) -> Option<u8> {
    match word {
        [high, low] => digit(*high)?.checked_mul(16)?.checked_add(digit(*low)?),
        _ => None,
    }
}

/// A number below 2^32.
pub fn number(word: &[u8]) -> Result<u32, Stop> {
    match digits(word) {
        Some(number) => match u32::try_from(number) {
            Ok(number) => Ok(number),
            Err(_) => Err(Stop::Shape),
        },
        None => Err(Stop::Shape),
    }
}

/// Numbers with blanks between them; `-` is none.
pub fn numbers(alloc: Global, words: &[u8]) -> Result<List<u32>, Stop> {
    let mut found = List::new(alloc);
    for word in words.split(|byte| *byte == b' ') {
        if !word.is_empty() && word != b"-".as_slice() {
            found.push(number(word)?)?;
        }
    }
    Ok(found)
}

/// The scheme of this name.
pub fn scheme(word: &[u8]) -> Result<Scheme, Stop> {
    match word {
        b"guards" => Ok(Scheme::Guards),
        b"tags" => Ok(Scheme::Tags),
        b"guards_cover" => Ok(Scheme::GuardsCover),
        b"tags_cover" => Ok(Scheme::TagsCover),
        b"args" => Ok(Scheme::Args),
        b"erase" => Ok(Scheme::Erase),
        b"guards_light" => Ok(Scheme::GuardsLight),
        b"tags_light" => Ok(Scheme::TagsLight),
        b"guards_feather" => Ok(Scheme::GuardsFeather),
        b"tags_feather" => Ok(Scheme::TagsFeather),
        _ => Err(Stop::Shape),
    }
}
