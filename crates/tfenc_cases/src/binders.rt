//! How many binders stand in a formula.

ghost use Rattle.std.specs.Prelude.{◌≤◌, length, map};
ghost use Rattle.tf_core.specs.declared.signature.Signature.{Signature};
ghost use Rattle.tf_core.specs.Sorts.{joined};
ghost use Rattle.enc_cover.specs.Undercover.{undercover_binders, undercover_at};

use tf_core::{Nnf, Normal};

/// How many binders, of both kinds, stand in the formula of this number.
pub fn binders_at(normal: &Normal, formula: usize) -> usize
    ensures { result ≤ length (undercover_at normal.now formula) }
{
    match normal.formulas.as_slice().get(formula) {
        Some(formula) => binders_in(&formula.body),
        None => 0,
    }
}

#[cycle(binders)]
fn binders_in(formula: &Nnf) -> usize
    ensures { (g : Signature) → result ≤ length (undercover_binders g formula.now) }
{
    match formula {
        Nnf::True => 0,
        Nnf::False => 0,
        Nnf::Atom(_, _, _, _) => 0,
        Nnf::Equation(_, _, _, _) => 0,
        Nnf::And(parts) => binders_in_parts(parts.as_slice()),
        Nnf::Or(parts) => binders_in_parts(parts.as_slice()),
        Nnf::ForAll(_, body) => binders_in(body.get()).saturating_add(1),
        Nnf::Exists(_, body) => binders_in(body.get()).saturating_add(1),
    }
}

#[cycle(binders)]
fn binders_in_parts(parts: &[Nnf]) -> usize
    ensures { (g : Signature)
        → result ≤ length (joined (map (undercover_binders g) parts.now)) }
{
    let mut count = 0usize;
    for part in parts {
        count = count.saturating_add(binders_in(part));
    }
    count
}
