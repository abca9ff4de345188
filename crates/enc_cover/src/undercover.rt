//! Whether the variable of one binder of a problem is undercover, without memory.

ghost use Rattle.std.specs.Prelude.{◌≡◌, ◌<◌, ◌^◌, ◌&&◌, ◌∷◌, map};
ghost use Rattle.tf_core.specs.Counts.{normal_depth, greatest};
ghost use Rattle.tf_core.specs.Sorts.{joined};
ghost use Rattle.tf_core.specs.Sound.{IsSoundNormal};
ghost use Rattle.tf_naked.specs.Standing.{is_undercover};
ghost use Rattle.enc_cover.specs.Undercover.{undercover_binders, HasBinder, is_undercover_at};
ghost use Rattle.enc_cover.specs.Calls.Passed.{sought};
ghost use Rattle.enc_cover.specs.Calls.Sought.{HasFewArguments};

use crate::sought::stands;
use enc_base::Boxed;
use tf_core::{Nnf, Normal, Signature};

/// What a search for a binder has come to.
#[derive(Debug, Clone, Copy)]
enum Search {
    /// Whether the binder is universal and its variable undercover.
    Found(bool),
    /// The binder isn't here, and so many binders stand between.
    Left(usize),
}

/// Whether the variable of a binder is undercover: it stands at the cover of a parameter or on a
/// side of a positive equation. The binders of a formula, of both kinds, are counted from 0 in
/// reading order; an existential one is never undercover. It takes no memory.
///
/// The formula is read up to the binder, and the binder's body once. Where the variable is an
/// argument whose declared type is a parameter, that parameter's cover is looked for among the
/// symbol's arguments.
pub fn is_undercover(normal: &Normal, formula: usize, binder: usize) -> bool
    requires sound { IsSoundNormal normal.now }
    requires within { HasBinder normal.now formula binder }
    ensures exact { result ≡ is_undercover_at normal.now formula binder }
{
    match normal.formulas.as_slice().get(formula) {
        Some(formula) => match find(&formula.body, &normal.signature, binder) {
            Search::Found(undercover) => undercover,
            Search::Left(_) => false,
        },
        None => false,
    }
}

// looks for a binder in a formula, before which so many others stand
#[cycle(find)]
fn find(formula: &Nnf, signature: &Signature, before: usize) -> Search
    requires few { HasFewArguments signature.now }
    requires depth { normal_depth formula.now < 2 ^ 32 }
    ensures exact { result ≡ sought (undercover_binders signature.now formula.now) before }
{
    match formula {
        Nnf::True => Search::Left(before),
        Nnf::False => Search::Left(before),
        Nnf::Atom(_, _, _, _) => Search::Left(before),
        Nnf::Equation(_, _, _, _) => Search::Left(before),
        Nnf::And(parts) => find_in_parts(parts.as_slice(), signature, before),
        Nnf::Or(parts) => find_in_parts(parts.as_slice(), signature, before),
        Nnf::ForAll(_, body) => find_from(true, body, signature, before),
        Nnf::Exists(_, body) => find_from(false, body, signature, before),
    }
}

// looks for it in formulas, one after another
#[cycle(find)]
fn find_in_parts(parts: &[Nnf], signature: &Signature, before: usize) -> Search
    requires few { HasFewArguments signature.now }
    requires depth { greatest (map normal_depth parts.now) < 2 ^ 32 }
    ensures exact { result ≡ sought (joined (map (undercover_binders signature.now) parts.now))
        before }
{
    let mut left = before;
    for part in parts {
        match find(part, signature, left) {
            Search::Found(undercover) => return Search::Found(undercover),
            Search::Left(behind) => left = behind,
        }
    }
    Search::Left(left)
}

// looks for it from a binder on, universal or not, that stands round a formula
#[cycle(find)]
fn find_from(universal: bool, body: &Boxed<Nnf>, signature: &Signature, before: usize) -> Search
    requires few { HasFewArguments signature.now }
    requires depth { normal_depth body.now < 2 ^ 32 }
    ensures exact { result ≡ sought ((universal && is_undercover signature.now body.now)
        ∷ undercover_binders signature.now body.now) before }
{
    if before == 0 {
        return Search::Found(universal && stands(body.get(), signature, 0));
    }
    find(body.get(), signature, before - 1)
}
