//! What words stand for, by their kind and spelling.
#![tactic(auto)]

ghost use Rattle.std.specs.Prelude.{◌≡◌, IfOk, Some, None};
ghost use Rattle.std.specs.List.{list_all};
ghost use Rattle.std.specs.Char.{is_ascii_digit};
ghost use Rattle.tptp_words.specs.Words as words;
ghost use Rattle.tptp_phrases.specs.Readers.{cause_of};
ghost use Rattle.tptp_syntax.specs.Strays as stray;
ghost use Rattle.tptp_syntax.specs.Ahead.{cause};

use crate::entry::StatedRole;
use crate::fault::Fault;
use crate::language::{Connective, Language};
use enc_base::{Name, NoMemory};
use std::alloc::Global;
use tptp_words::WordKind;

/// Whether two spellings are the same.
pub fn same(a: &[u8], b: &[u8]) -> bool
    ensures { result ≡ words.same a.now b.now }
{
    a == b
}

/// A name's bytes, quotes and escapes taken off.
pub fn name_of(alloc: Global, kind: WordKind, spelling: &[u8]) -> Result<Option<Name>, NoMemory>
    ensures { IfOk result (λ name. name ≡ words.name_of kind spelling.now) }
{
    match kind {
        WordKind::Lower => Ok(Some(Name::from_slice(alloc, spelling)?)),
        WordKind::Quoted => Ok(Some(content(alloc, spelling)?)),
        _ => Ok(None),
    }
}

/// The content of the spelling of quoted text.
fn content(alloc: Global, spelling: &[u8]) -> Result<Name, NoMemory>
    ensures { IfOk result (λ name. name ≡ words.content spelling.now) }
{
    let mut found = Vec::new(alloc);
    let [quote, rest @ ..] = spelling else {
        return Name::from_slice(alloc, &found);
    };
    let mut left = rest;
    let mut after_backslash = false;
    'bytes: while let [first, more @ ..] = left {
        if after_backslash {
            found.push(*first)?;
            after_backslash = false;
        } else if *first == b'\\' {
            after_backslash = true;
        } else if *first == *quote {
            break;
        } else {
            found.push(*first)?;
        }
        left = more;
    }
    Name::from_slice(alloc, &found)
}

/// Whether a number's spelling is of digits alone.
fn all_digits(spelling: &[u8]) -> bool
    ensures { result ≡ list_all is_ascii_digit spelling.now }
{
    spelling.iter().all(|byte| byte.is_ascii_digit())
}

/// A label's bytes: those of a name, or digits alone.
pub fn label_of(alloc: Global, kind: WordKind, spelling: &[u8]) -> Result<Option<Name>, NoMemory>
    ensures { IfOk result (λ label. label ≡ stray.label_of kind spelling.now) }
{
    match kind {
        WordKind::Number => {
            if all_digits(spelling) {
                Ok(Some(Name::from_slice(alloc, spelling)?))
            } else {
                Ok(None)
            }
        }
        _ => name_of(alloc, kind, spelling),
    }
}

/// The variable's bytes.
pub fn variable_of(alloc: Global, kind: WordKind, spelling: &[u8]) -> Result<Option<Name>, NoMemory>
    ensures { IfOk result (λ name. name ≡ words.variable_of kind spelling.now) }
{
    match kind {
        WordKind::Upper => Ok(Some(Name::from_slice(alloc, spelling)?)),
        _ => Ok(None),
    }
}

pub fn language_of(kind: WordKind, spelling: &[u8]) -> Option<Language>
    ensures { result ≡ stray.language_of kind spelling.now }
{
    match kind {
        WordKind::Lower => {
            if same(spelling, b"tff") {
                Some(Language::Tff)
            } else if same(spelling, b"fof") {
                Some(Language::Fof)
            } else {
                None
            }
        }
        _ => None,
    }
}

fn is_hypothesis(spelling: &[u8]) -> bool
    ensures { result ≡ stray.is_one_of spelling.now stray.hypotheses }
{
    same(spelling, b"axiom")
        || same(spelling, b"hypothesis")
        || same(spelling, b"definition")
        || same(spelling, b"assumption")
        || same(spelling, b"lemma")
        || same(spelling, b"theorem")
        || same(spelling, b"corollary")
        || same(spelling, b"plain")
        || same(spelling, b"negated_conjecture")
}

pub fn role_of(kind: WordKind, spelling: &[u8]) -> Option<StatedRole>
    ensures { result ≡ stray.role_of kind spelling.now }
{
    match kind {
        WordKind::Lower => {
            if same(spelling, b"conjecture") {
                Some(StatedRole::Conjecture)
            } else if is_hypothesis(spelling) {
                Some(StatedRole::Hypothesis)
            } else {
                None
            }
        }
        _ => None,
    }
}

pub fn connective_of(kind: WordKind, spelling: &[u8]) -> Option<Connective>
    ensures { result ≡ stray.connective_of kind spelling.now }
{
    match kind {
        WordKind::Mark => {
            if same(spelling, b"=>") {
                Some(Connective::Implies)
            } else if same(spelling, b"<=") {
                Some(Connective::If)
            } else if same(spelling, b"<=>") {
                Some(Connective::Iff)
            } else if same(spelling, b"<~>") {
                Some(Connective::Xor)
            } else if same(spelling, b"~&") {
                Some(Connective::Nand)
            } else if same(spelling, b"~|") {
                Some(Connective::Nor)
            } else {
                None
            }
        }
        _ => None,
    }
}

/// Why a word may not stand in the place of a language.
pub fn stray_language_of(kind: WordKind, spelling: &[u8]) -> Fault
    ensures { cause result ≡ cause_of (stray.stray_language_of kind spelling.now) }
{
    match kind {
        WordKind::Lower => {
            if same(spelling, b"tff") || same(spelling, b"fof") {
                Fault::Syntax
            } else if same(spelling, b"include") {
                Fault::Include
            } else {
                Fault::Language
            }
        }
        _ => Fault::Syntax,
    }
}

fn is_role(language: Language, spelling: &[u8]) -> bool
    ensures { result ≡ stray.is_role language spelling.now }
{
    match language {
        Language::Tff => {
            same(spelling, b"type") || same(spelling, b"conjecture") || is_hypothesis(spelling)
        }
        Language::Fof => same(spelling, b"conjecture") || is_hypothesis(spelling),
    }
}

/// Why a word may not stand in the place of a role.
pub fn stray_role_of(language: Language, kind: WordKind, spelling: &[u8]) -> Fault
    ensures { cause result ≡ cause_of (stray.stray_role_of language kind spelling.now) }
{
    match kind {
        WordKind::Lower => {
            if is_role(language, spelling) {
                Fault::Syntax
            } else {
                Fault::Role
            }
        }
        _ => Fault::Syntax,
    }
}

fn is_number_type(spelling: &[u8]) -> bool
    ensures { result ≡ stray.is_one_of spelling.now stray.numbers }
{
    same(spelling, b"$int") || same(spelling, b"$rat") || same(spelling, b"$real")
}

/// Why a word may not stand in the place of a type.
pub fn stray_type_of(kind: WordKind, spelling: &[u8]) -> Fault
    ensures { cause result ≡ cause_of (stray.stray_type_of kind spelling.now) }
{
    match kind {
        WordKind::Number => Fault::Number,
        WordKind::Dollar => {
            if is_number_type(spelling) {
                Fault::Number
            } else {
                Fault::Syntax
            }
        }
        _ => Fault::Syntax,
    }
}

/// Why a word may not stand in the place of a term or an atom.
pub fn stray_term_of(kind: WordKind, spelling: &[u8]) -> Fault
    ensures { cause result ≡ cause_of (stray.stray_term_of kind spelling.now) }
{
    match kind {
        WordKind::Number => Fault::Number,
        WordKind::Distinct => Fault::DistinctObject,
        WordKind::Dollar => {
            if same(spelling, b"$distinct") {
                Fault::DistinctObject
            } else if is_number_type(spelling) {
                Fault::Number
            } else {
                Fault::Syntax
            }
        }
        _ => Fault::Syntax,
    }
}
