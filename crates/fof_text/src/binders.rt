//! The quantifiers that a formula begins with.

ghost use Rattle.std.specs.Prelude.{◌≡◌, ◌≤◌, ◌<◌, ◌+◌, ◌^◌, MatchOption};
ghost use Rattle.enc_base.specs.Pending.{Puts};
ghost use Rattle.fof_models.specs.declared.formula.Fof.{size-Fof};
ghost use Rattle.fof_models.specs.Sound.{binder_count};
ghost use Rattle.fof_text.specs.Pieces.{IsBare, IsQuantified, PutsBinders, binder_text};

use crate::name::put_variable;
use enc_base::{Pending, Sink};
use fof_models::Fof;

/// What a quantified formula begins with, before its variable, and the formula under the
/// quantifier.
fn quantifier_of(formula: &Fof) -> Option<(&'static [u8], &Fof)>
    ensures { MatchOption result (IsBare formula.now)
        (λ found. IsQuantified formula.now found.0.now found.1.now) }
{
    match formula {
        Fof::ForAll(body) => Some((b"![", body.get())),
        Fof::Exists(body) => Some((b"?[", body.get())),
        _ => None,
    }
}

/// Puts a quantifier with its variable.
fn put_binder<O: Sink>(piece: &[u8], depth: u32, pending: &mut Pending, out: &mut O)
    ensures { Puts O.bytes O.faults pending.old pending.new out.old out.new
        (binder_text piece.now depth) }
{
    pending.put(piece, out);
    put_variable(depth, pending, out);
    pending.put(b"]: ", out);
}

/// Puts the quantifiers that a formula begins with. Gives the formula under them, which begins with
/// none, and how many binders stand around it.
pub(crate) fn put_binders<'a, O: Sink>(
    formula: &'a Fof,
    depth: u32,
    pending: &mut Pending,
    out: &mut O,
) -> (&'a Fof, u32)
    requires { depth + binder_count formula.now < 2 ^ 32 }
    ensures puts { PutsBinders O.bytes O.faults pending.old pending.new out.old out.new
        formula.now depth result.0.now result.1 }
    ensures few { result.1 + binder_count result.0.now < 2 ^ 32 }
    ensures bare { IsBare result.0.now }
    ensures smaller { size-Fof result.0.now ≤ size-Fof formula.now }
{
    let mut inner = formula;
    let mut under = depth;
    'binders: while let Some((piece, body)) = quantifier_of(inner) {
        put_binder(piece, under, pending, out);
        inner = body;
        under += 1;
    }
    (inner, under)
}
