//! Whether a variable stands at a cover or on a side of a positive equation, without memory.

ghost use Rattle.std.specs.Prelude.{◌≡◌, ◌+◌, ◌<◌, ◌^◌, false, map, length, slice_index_or};
ghost use Rattle.std.specs.List.{list_any};
ghost use Rattle.tf_core.specs.Counts.{normal_depth, greatest};
ghost use Rattle.tf_naked.specs.Covers.{covers};
ghost use Rattle.tf_naked.specs.Standing.{is_covering, standing, stands, stands_in_application};
ghost use Rattle.enc_cover.specs.Calls.Sought.{HasFewArguments, stands_at, stands_in_terms};

use tf_core::{Nnf, Signature, Symbol, Term, Ty};
use tf_naked::cover_of;

/// Whether the variable of the i-th enclosing binder stands so in a formula.
#[cycle(stands)]
pub(crate) fn stands(formula: &Nnf, signature: &Signature, i: u32) -> bool
    requires few { HasFewArguments signature.now }
    requires depth { i + normal_depth formula.now < 2 ^ 32 }
    ensures exact { result ≡ stands signature.now is_covering formula.now i }
{
    match formula {
        Nnf::True => false,
        Nnf::False => false,
        Nnf::Atom(_, f, _, terms) => stands_in_application(*f, terms.as_slice(), signature, i),
        Nnf::Equation(positive, _, left, right) => {
            stands_in_side(*positive, left, signature, i)
                || stands_in_side(*positive, right, signature, i)
        }
        Nnf::And(parts) => stands_in_parts(parts.as_slice(), signature, i),
        Nnf::Or(parts) => stands_in_parts(parts.as_slice(), signature, i),
        Nnf::ForAll(_, body) => stands(body.get(), signature, i + 1),
        Nnf::Exists(_, body) => stands(body.get(), signature, i + 1),
    }
}

// whether it does in one of the formulas
#[cycle(stands)]
fn stands_in_parts(parts: &[Nnf], signature: &Signature, i: u32) -> bool
    requires few { HasFewArguments signature.now }
    requires depth { i + greatest (map normal_depth parts.now) < 2 ^ 32 }
    ensures exact { result ≡ list_any (λ part. stands signature.now is_covering part i) parts.now }
{
    for part in parts {
        if stands(part, signature, i) {
            return true;
        }
    }
    false
}

// whether it does in a side of an equation of this sign, or is that side
fn stands_in_side(positive: bool, term: &Term, signature: &Signature, i: u32) -> bool
    requires few { HasFewArguments signature.now }
    ensures exact { result ≡ stands_at signature.now positive term.now i }
{
    match term {
        Term::Var(n) => positive && *n == i,
        Term::Apply(f, _, terms) => stands_in_application(*f, terms.as_slice(), signature, i),
    }
}

// whether it does in the terms to which the f-th symbol is applied
#[cycle(terms)]
fn stands_in_application(f: u32, terms: &[Term], signature: &Signature, i: u32) -> bool
    requires few { HasFewArguments signature.now }
    ensures exact { result ≡ stands_in_application signature.now is_covering f
        (map (standing signature.now is_covering) terms.now) i }
{
    match signature.symbols.as_slice().get(f as usize) {
        Some(symbol) => stands_in_terms(symbol, terms, signature, i),
        None => false,
    }
}

// whether it does in the terms to which a symbol is applied
#[cycle(terms)]
fn stands_in_terms(symbol: &Symbol, terms: &[Term], signature: &Signature, i: u32) -> bool
    requires few { HasFewArguments signature.now }
    requires arguments { length symbol.now.arguments < 2 ^ 28 }
    ensures exact { result ≡ stands_in_terms signature.now symbol.now terms.now i }
{
    let count = symbol.arguments.as_slice().len();
    for (place, term) in terms.iter().enumerate() {
        if place >= count {
            return false;
        }
        if stands_in_argument(symbol, place, term, signature, i) {
            return true;
        }
    }
    false
}

// whether it does in a term at an argument place of a symbol, or is that term at a cover
#[cycle(terms)]
fn stands_in_argument(
    symbol: &Symbol,
    place: usize,
    term: &Term,
    signature: &Signature,
    i: u32,
) -> bool
    requires few { HasFewArguments signature.now }
    requires arguments { length symbol.now.arguments < 2 ^ 28 }
    requires within { place < length symbol.now.arguments }
    ensures exact { result ≡ stands_at signature.now
        (slice_index_or (covers symbol.now) place false) term.now i }
{
    match term {
        // the covers are looked for at the places of this variable alone
        Term::Var(n) => *n == i && is_cover(symbol, place),
        Term::Apply(f, _, terms) => stands_in_application(*f, terms.as_slice(), signature, i),
    }
}

// whether an argument place is the cover of a parameter
fn is_cover(symbol: &Symbol, place: usize) -> bool
    requires arguments { length symbol.now.arguments < 2 ^ 28 }
    requires within { place < length symbol.now.arguments }
    ensures exact { result ≡ slice_index_or (covers symbol.now) place false }
{
    match &symbol.arguments.as_slice()[place] {
        Ty::Var(parameter) => match cover_of(symbol, *parameter) {
            Some(cover) => cover as usize == place,
            None => false,
        },
        Ty::Apply(_, _) => false,
    }
}
