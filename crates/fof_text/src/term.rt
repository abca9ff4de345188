//! Terms.

ghost use Rattle.std.specs.Prelude.{◌≡◌, ◌++◌, map};
ghost use Rattle.enc_base.specs.Pending.{Puts};
ghost use Rattle.fof_text.specs.Names.{name_at};
ghost use Rattle.fof_text.specs.Pieces.{part};
ghost use Rattle.fof_text.specs.Written as words;

use crate::name::{put_symbol, put_variable};
use crate::put::put_between;
use enc_base::{Name, Pending, Sink};
use fof_models::FofTerm;

/// Puts a term that stands under `depth` binders.
#[cycle(terms)]
fn put_term<O: Sink>(term: &FofTerm, depth: u32, names: &[Name], pending: &mut Pending, out: &mut O)
    ensures { Puts O.bytes O.faults pending.old pending.new out.old out.new
        (part (words.term_words names.now term.now depth)) }
{
    match term {
        FofTerm::Var(index) => {
            let number = depth.saturating_sub(*index).saturating_sub(1);
            put_variable(number, pending, out);
        }
        FofTerm::Apply(symbol, terms) => {
            put_applied(*symbol, terms.as_slice(), depth, names, pending, out);
        }
    }
}

/// Puts a symbol, with its arguments in brackets where it has any.
#[cycle(terms)]
pub(crate) fn put_applied<O: Sink>(
    symbol: u32,
    terms: &[FofTerm],
    depth: u32,
    names: &[Name],
    pending: &mut Pending,
    out: &mut O,
)
    ensures { Puts O.bytes O.faults pending.old pending.new out.old out.new
        (part (words.applied (name_at names.now symbol)
        (map (λ t. words.term_words names.now t depth) terms.now))) }
{
    put_symbol(symbol, names, pending, out);
    if terms.is_empty() {
        return;
    }
    pending.put(b"(", out);
    for i in 0..terms.len() {
        put_between(i, b",", pending, out);
        put_term(&terms[i], depth, names, pending, out);
    }
    pending.put(b")", out);
}

/// Puts two terms, and a piece between them.
pub(crate) fn put_sides<O: Sink>(
    left: &FofTerm,
    piece: &[u8],
    right: &FofTerm,
    depth: u32,
    names: &[Name],
    pending: &mut Pending,
    out: &mut O,
)
    ensures { Puts O.bytes O.faults pending.old pending.new out.old out.new
        ((part (words.term_words names.now left.now depth) ++ piece.now)
        ++ part (words.term_words names.now right.now depth)) }
{
    put_term(left, depth, names, pending, out);
    pending.put(piece, out);
    put_term(right, depth, names, pending, out);
}
