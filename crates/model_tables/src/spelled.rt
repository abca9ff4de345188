//! What words stand for, by their kind and spelling.
#![tactic(auto)]

ghost use Rattle.std.specs.Prelude.{◌≡◌, IfOk, true};
ghost use Rattle.std.specs.List.{list_all};
ghost use Rattle.std.specs.Char.{is_ascii_digit};
ghost use Rattle.tptp_words.specs.Words as words;
ghost use Rattle.model_tables.specs.Grammar as grammar;

use crate::form::{Form, Kind};
use enc_base::{Name, NoMemory};
use std::alloc::Global;
use tptp_words::WordKind;

/// Whether two spellings are the same.
pub fn same(a: &[u8], b: &[u8]) -> bool
    ensures { result ≡ words.same a.now b.now }
{
    a == b
}

/// The content of the spelling of quoted text.
fn content(alloc: Global, spelling: &[u8]) -> Result<Name, NoMemory>
    ensures { IfOk result (λ name. name ≡ words.content spelling.now) }
{
    let mut found = Vec::new(alloc);
    let [quote, rest @ ..] = spelling else {
        return Name::from_slice(alloc, &found);
    };
    let mut left = rest;
    let mut after_backslash = false;
    'bytes: while let [first, more @ ..] = left {
        if after_backslash {
            found.push(*first)?;
            after_backslash = false;
        } else if *first == b'\\' {
            after_backslash = true;
        } else if *first == *quote {
            break;
        } else {
            found.push(*first)?;
        }
        left = more;
    }
    Name::from_slice(alloc, &found)
}

/// A name's bytes, quotes and escapes taken off.
pub fn name_of(alloc: Global, kind: WordKind, spelling: &[u8]) -> Result<Option<Name>, NoMemory>
    ensures { IfOk result (λ name. name ≡ words.name_of kind spelling.now) }
{
    match kind {
        WordKind::Lower => Ok(Some(Name::from_slice(alloc, spelling)?)),
        WordKind::Quoted => Ok(Some(content(alloc, spelling)?)),
        _ => Ok(None),
    }
}

/// The bytes of a constructor's name: a name, or `$i`.
pub fn constructor_name_of(
    alloc: Global,
    kind: WordKind,
    spelling: &[u8],
) -> Result<Option<Name>, NoMemory>
    ensures { IfOk result (λ name. name ≡ grammar.constructor_name_of kind spelling.now) }
{
    match kind {
        WordKind::Dollar => {
            if same(spelling, b"$i") {
                Ok(Some(Name::from_slice(alloc, spelling)?))
            } else {
                Ok(None)
            }
        }
        _ => name_of(alloc, kind, spelling),
    }
}

/// Whether a number's spelling is of digits alone.
fn all_digits(spelling: &[u8]) -> bool
    ensures { result ≡ list_all is_ascii_digit spelling.now }
{
    spelling.iter().all(|byte| byte.is_ascii_digit())
}

/// The number that digits are, where it is below 2^32.
fn decimal(digits: &[u8]) -> Option<u32>
    requires { list_all is_ascii_digit digits.now ≡ true }
    ensures { result ≡ grammar.below_limit (grammar.decimal_from 0 digits.now) }
{
    let mut value = 0u64;
    let mut left = digits;
    'digits: while let [digit, more @ ..] = left {
        value = value * 10 + (*digit - b'0') as u64;
        if value > u32::MAX as u64 {
            return None;
        }
        left = more;
    }
    Some(value as u32)
}

/// A number of one to ten digits that is below 2^32.
pub fn number_of(kind: WordKind, spelling: &[u8]) -> Option<u32>
    ensures { result ≡ grammar.number_of (words.digits_of kind spelling.now) }
{
    match kind {
        WordKind::Number => {
            if all_digits(spelling) && !spelling.is_empty() && spelling.len() <= 10 {
                decimal(spelling)
            } else {
                None
            }
        }
        _ => None,
    }
}

/// The kind of an item that begins with the word.
pub fn item_kind_of(form: Form, kind: WordKind, spelling: &[u8]) -> Option<Kind>
    ensures { result ≡ grammar.item_kind_of form kind spelling.now }
{
    match (form, kind) {
        (Form::Typed, WordKind::Lower) => {
            if same(spelling, b"type") {
                Some(Kind::Constructor)
            } else if same(spelling, b"symbol") {
                Some(Kind::Symbol)
            } else {
                None
            }
        }
        (Form::Untyped, WordKind::Lower) => {
            if same(spelling, b"function") {
                Some(Kind::Function)
            } else if same(spelling, b"predicate") {
                Some(Kind::Predicate)
            } else {
                None
            }
        }
        _ => None,
    }
}
