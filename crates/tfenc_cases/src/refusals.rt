//! Refusals in words, each behind its number.

use crate::out::Out;
use crate::put_core::put_type;
use crate::stop::Stop;
use enc_marks::Refusal;
use enc_pipeline::Fault;
use model_tables::TableError;
use std::alloc::Global;
use std::fmt::Display;
use tf_check::TypeError;
use tf_core::Ty;
use tf_nnf::NormalError;
use tf_stamp::StampError;
use tptp_syntax::ReadError;

// what is refused in these words
fn refused(alloc: Global, number: u64, words: &impl Display) -> Stop {
    let mut out = Out::new(alloc);
    out.show(&number);
    out.put(b" ");
    out.show(words);
    said(out)
}

// what is refused in the words that are printed
fn said(out: Out) -> Stop {
    match out.into_bytes() {
        Some(words) => Stop::Refused(words),
        None => Stop::Memory,
    }
}

/// No text of a file.
pub fn unread(alloc: Global, reason: &ReadError) -> Stop {
    let number = match reason {
        ReadError::BadByte { .. } => 1,
        ReadError::Unclosed { .. } => 2,
        ReadError::Syntax { .. } => 3,
        ReadError::TooDeep { .. } => 4,
        ReadError::Language { .. } => 5,
        ReadError::Role { .. } => 6,
        ReadError::Number { .. } => 7,
        ReadError::DistinctObject { .. } => 8,
        ReadError::Include { .. } => 9,
        ReadError::TooLong { .. } => 10,
        ReadError::Memory => return Stop::Memory,
    };
    refused(alloc, number, reason)
}

/// A file that is not well typed.
pub fn untyped(alloc: Global, reason: &TypeError) -> Stop {
    let number = match reason {
        TypeError::Redeclared { .. } => 11,
        TypeError::BadDeclaration { .. } => 12,
        TypeError::UnknownType { .. } => 13,
        TypeError::FreeVariable { .. } => 14,
        TypeError::Arity { .. } => 15,
        TypeError::Mismatch {
            entry,
            expected,
            found,
        } => return mismatched(alloc, *entry, expected, found),
        TypeError::NotATerm { .. } => 17,
        TypeError::NotAFormula { .. } => 18,
        TypeError::TypeQuantifier { .. } => 19,
        TypeError::SecondConjecture { .. } => 20,
        TypeError::TooManySymbols { .. } => 21,
        TypeError::Memory => return Stop::Memory,
    };
    refused(alloc, number, reason)
}

// a mismatch with its two types
fn mismatched(alloc: Global, entry: usize, expected: &Ty, found: &Ty) -> Stop {
    let mut out = Out::new(alloc);
    out.put(b"16 type mismatch in entry ");
    out.show(&entry);
    out.put(b", expected ");
    put_type(&mut out, &[], expected);
    out.put(b", found ");
    put_type(&mut out, &[], found);
    said(out)
}

/// A scheme that does not apply, or a structure that is too large.
pub fn unencoded(alloc: Global, reason: &Refusal) -> Stop {
    let number = match reason {
        Refusal::NotMonomorphic { .. } => 31,
        Refusal::NotMonotone { .. } => 32,
        Refusal::TableTooLarge { .. } => 33,
        Refusal::Memory => return Stop::Memory,
    };
    refused(alloc, number, reason)
}

/// No table of a structure.
pub fn untabled(alloc: Global, reason: &TableError) -> Stop {
    let number = match reason {
        TableError::TooLarge { .. } => 33,
        TableError::TableSyntax { .. } => 41,
        TableError::UnknownSymbol { .. } => 42,
        TableError::Missing { .. } => 43,
        TableError::Repeated { .. } => 44,
        TableError::WrongLength { .. } => 45,
        TableError::OutOfRange { .. } => 46,
        TableError::Memory => return Stop::Memory,
    };
    refused(alloc, number, reason)
}

/// A normal problem that is too large.
pub fn unnormal(alloc: Global, reason: &NormalError) -> Stop {
    match reason {
        NormalError::TooLarge { .. } => refused(alloc, 22, reason),
        NormalError::Memory => Stop::Memory,
    }
}

/// A merged domain that is too large.
pub fn unstamped(alloc: Global, reason: &StampError) -> Stop {
    match reason {
        StampError::TooLarge { entries } => {
            unencoded(alloc, &Refusal::TableTooLarge { entries: *entries })
        }
        StampError::Memory => Stop::Memory,
    }
}

/// A structure in which the formula of this index is not as stated.
pub fn no_model(alloc: Global, formula: usize) -> Stop {
    refused(alloc, 47, &Fault::NotModel { formula })
}

/// Why bytes are not carried to bytes.
pub fn stopped(alloc: Global, reason: &Fault) -> Stop {
    match reason {
        Fault::Reading(reason) => unread(alloc, reason),
        Fault::Typing(reason) => untyped(alloc, reason),
        Fault::TooLarge { .. } => refused(alloc, 22, reason),
        Fault::Scheme(reason) => unencoded(alloc, reason),
        Fault::Incomplete => refused(alloc, 34, reason),
        Fault::Table(reason) => untabled(alloc, reason),
        Fault::NotModel { .. } => refused(alloc, 47, reason),
        Fault::Write => plain(alloc, b"cannot write"),
        Fault::Memory => Stop::Memory,
    }
}

// a refusal without a number
fn plain(alloc: Global, words: &[u8]) -> Stop {
    let mut out = Out::new(alloc);
    out.put(words);
    said(out)
}
