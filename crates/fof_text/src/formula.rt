//! Formulas.

ghost use Rattle.std.specs.Prelude.{◌≡◌, ◌++◌, ◌+◌, ◌<◌, ◌^◌, codes, map, sum};
ghost use Rattle.enc_base.specs.Pending.{Puts};
ghost use Rattle.fof_models.specs.Sound.{binder_count};
ghost use Rattle.fof_text.specs.Pieces.{in_row, part};
ghost use Rattle.fof_text.specs.Written as words;

use crate::binders::put_binders;
use crate::put::put_between;
use crate::term::{put_applied, put_sides};
use enc_base::{Name, Pending, Sink};
use fof_models::Fof;

/// Puts a formula that stands under `depth` binders. The quantifiers that it begins with take no
/// stack, however many they are.
#[cycle(formulas)]
pub(crate) fn put_formula<O: Sink>(
    formula: &Fof,
    depth: u32,
    names: &[Name],
    pending: &mut Pending,
    out: &mut O,
)
    requires { depth + binder_count formula.now < 2 ^ 32 }
    ensures { Puts O.bytes O.faults pending.old pending.new out.old out.new
        (part ((words.formula_words names.now formula.now).is depth)) }
{
    let (inner, under) = put_binders(formula, depth, pending, out);
    match inner {
        Fof::True => pending.put(b"$true", out),
        Fof::False => pending.put(b"$false", out),
        Fof::Atom(symbol, terms) => {
            put_applied(*symbol, terms.as_slice(), under, names, pending, out);
        }
        Fof::Equal(left, right) => put_sides(left, b" = ", right, under, names, pending, out),
        Fof::Not(negated) => put_negation(negated.get(), under, names, pending, out),
        Fof::And(parts) => put_chain(b" & ", parts.as_slice(), under, names, pending, out),
        Fof::Or(parts) => put_chain(b" | ", parts.as_slice(), under, names, pending, out),
        Fof::Implies(left, right) => {
            pending.put(b"(", out);
            put_formula(left.get(), under, names, pending, out);
            pending.put(b" => ", out);
            put_formula(right.get(), under, names, pending, out);
            pending.put(b")", out);
        }
        Fof::ForAll(_) | Fof::Exists(_) => unreachable!(),
    }
}

/// Puts the negation of a formula.
#[cycle(formulas)]
fn put_negation<O: Sink>(
    formula: &Fof,
    depth: u32,
    names: &[Name],
    pending: &mut Pending,
    out: &mut O,
)
    requires { depth + binder_count formula.now < 2 ^ 32 }
    ensures { Puts O.bytes O.faults pending.old pending.new out.old out.new
        (part ((words.formula_words names.now formula.now).negated depth)) }
{
    match formula {
        Fof::Equal(left, right) => put_sides(left, b" != ", right, depth, names, pending, out),
        _ => {
            pending.put(b"~", out);
            put_formula(formula, depth, names, pending, out);
        }
    }
}

/// Puts formulas in brackets, with a piece between each two.
#[cycle(formulas)]
fn put_chain<O: Sink>(
    piece: &[u8],
    parts: &[Fof],
    depth: u32,
    names: &[Name],
    pending: &mut Pending,
    out: &mut O,
)
    requires { depth + sum (map binder_count parts.now) < 2 ^ 32 }
    ensures { Puts O.bytes O.faults pending.old pending.new out.old out.new
        ((codes "("
        ++ in_row piece.now
        (map (λ u. part ((words.formula_words names.now u).is depth)) parts.now)) ++ codes ")") }
{
    pending.put(b"(", out);
    for i in 0..parts.len() {
        put_between(i, piece, pending, out);
        put_formula(&parts[i], depth, names, pending, out);
    }
    pending.put(b")", out);
}
