ghost use Rattle.std.specs.Prelude.{◌≡◌, true, false, [], ◌∷◌, map, IfOk};
ghost use Rattle.tf_core.specs.Types.{instantiate};
ghost use Rattle.tf_core.specs.Substitution.{substitute_term};
ghost use Rattle.tf_nnf.specs.Forms.{constant, joined, quantified, equal_forms};
ghost use Rattle.tf_nnf.specs.NormalForm.{fresh_types, made};

use crate::instance::{Fresh, instance, instances, term_instance, term_instances};
use enc_base::{Boxed, List, NoMemory};
use std::alloc::Global;
use tf_core::{Formula, Nnf, Term, Ty};

/// The normal form of the formula, or where `positive` is false that of its negation, with fresh
/// constructors in place of type variables.
#[cycle(form)]
pub fn form(alloc: Global, fresh: Fresh, positive: bool, formula: &Formula) -> Result<Nnf, NoMemory>
    ensures { IfOk result (λ nnf. nnf ≡ made fresh.first fresh.count positive formula.now) }
{
    match formula {
        Formula::True => Ok(constant(positive)),
        Formula::False => Ok(constant(!positive)),
        Formula::Atom(f, types, terms) => {
            atom(
                alloc,
                fresh,
                positive,
                *f,
                types.as_slice(),
                terms.as_slice(),
            )
        }
        Formula::Equal(ty, left, right) => equation(alloc, fresh, positive, ty, left, right),
        Formula::Not(a) => form(alloc, fresh, !positive, a.get()),
        Formula::And(parts) => list(alloc, fresh, positive, positive, parts.as_slice()),
        Formula::Or(parts) => list(alloc, fresh, !positive, positive, parts.as_slice()),
        Formula::Implies(a, b) => {
            let left = form(alloc, fresh, !positive, a.get())?;
            let right = form(alloc, fresh, positive, b.get())?;
            pair(alloc, !positive, left, right)
        }
        Formula::If(a, b) => {
            let left = form(alloc, fresh, positive, a.get())?;
            let right = form(alloc, fresh, !positive, b.get())?;
            pair(alloc, !positive, left, right)
        }
        Formula::Iff(a, b) => {
            let left = both_forms(alloc, fresh, a.get())?;
            let right = both_forms(alloc, fresh, b.get())?;
            equivalence(alloc, positive, left, right)
        }
        Formula::Xor(a, b) => {
            let left = both_forms(alloc, fresh, a.get())?;
            let right = both_forms(alloc, fresh, b.get())?;
            equivalence(alloc, !positive, left, right)
        }
        Formula::Nand(a, b) => {
            let left = form(alloc, fresh, !positive, a.get())?;
            let right = form(alloc, fresh, !positive, b.get())?;
            pair(alloc, !positive, left, right)
        }
        Formula::Nor(a, b) => {
            let left = form(alloc, fresh, !positive, a.get())?;
            let right = form(alloc, fresh, !positive, b.get())?;
            pair(alloc, positive, left, right)
        }
        Formula::ForAll(ty, body) => quantifier(alloc, fresh, positive, positive, body.get(), ty),
        Formula::Exists(ty, body) => quantifier(alloc, fresh, !positive, positive, body.get(), ty),
    }
}

// the forms of a formula and of its negation
#[derive(Drop)]
struct BothForms {
    positive: Nnf,
    negative: Nnf,
}

#[cycle(form)]
fn both_forms(alloc: Global, fresh: Fresh, formula: &Formula) -> Result<BothForms, NoMemory>
    ensures positive { IfOk result (λ forms. forms.positive ≡ made fresh.first fresh.count true formula.now) }
    ensures negative { IfOk result (λ forms. forms.negative ≡ made fresh.first fresh.count false formula.now) }
{
    let positive = form(alloc, fresh, true, formula)?;
    let negative = form(alloc, fresh, false, formula)?;
    Ok(BothForms { positive, negative })
}

// a conjunction or a disjunction of the forms of a list
#[cycle(form)]
fn list(
    alloc: Global,
    fresh: Fresh,
    conjunction: bool,
    positive: bool,
    parts: &[Formula],
) -> Result<Nnf, NoMemory>
    ensures { IfOk result (λ nnf. nnf ≡ joined conjunction (map (made fresh.first fresh.count positive) parts.now)) }
{
    let mut forms = List::new(alloc);
    for part in parts {
        forms.push(form(alloc, fresh, positive, part)?)?;
    }
    Ok(connected(conjunction, forms))
}

// a universal or an existential formula
#[cycle(form)]
fn quantifier(
    alloc: Global,
    fresh: Fresh,
    universal: bool,
    positive: bool,
    body: &Formula,
    ty: &Ty,
) -> Result<Nnf, NoMemory>
    ensures { IfOk result (λ nnf. nnf ≡ quantified universal (instantiate (fresh_types fresh.first fresh.count) ty.now) (made fresh.first fresh.count positive body.now)) }
{
    let ty = instance(alloc, fresh, ty)?;
    let body = Boxed::new(alloc, form(alloc, fresh, positive, body)?)?;
    if universal {
        Ok(Nnf::ForAll(ty, body))
    } else {
        Ok(Nnf::Exists(ty, body))
    }
}

fn constant(positive: bool) -> Nnf
    ensures { result ≡ constant positive }
{
    if positive { Nnf::True } else { Nnf::False }
}

fn atom(
    alloc: Global,
    fresh: Fresh,
    positive: bool,
    f: u32,
    types: &[Ty],
    terms: &[Term],
) -> Result<Nnf, NoMemory>
    ensures { IfOk result (λ nnf. nnf ≡ Nnf.Atom positive f (map (instantiate (fresh_types fresh.first fresh.count)) types.now) (map (substitute_term (fresh_types fresh.first fresh.count)) terms.now)) }
{
    let types = instances(alloc, fresh, types)?;
    let terms = term_instances(alloc, fresh, terms)?;
    Ok(Nnf::Atom(positive, f, types, terms))
}

fn equation(
    alloc: Global,
    fresh: Fresh,
    positive: bool,
    ty: &Ty,
    left: &Term,
    right: &Term,
) -> Result<Nnf, NoMemory>
    ensures { IfOk result (λ nnf. nnf ≡ Nnf.Equation positive (instantiate (fresh_types fresh.first fresh.count) ty.now) (substitute_term (fresh_types fresh.first fresh.count) left.now) (substitute_term (fresh_types fresh.first fresh.count) right.now)) }
{
    let ty = instance(alloc, fresh, ty)?;
    let left = term_instance(alloc, fresh, left)?;
    let right = term_instance(alloc, fresh, right)?;
    Ok(Nnf::Equation(positive, ty, left, right))
}

fn connected(conjunction: bool, parts: List<Nnf>) -> Nnf
    ensures { result ≡ joined conjunction parts }
{
    if conjunction {
        Nnf::And(parts)
    } else {
        Nnf::Or(parts)
    }
}

// a conjunction or a disjunction of two
fn pair(alloc: Global, conjunction: bool, left: Nnf, right: Nnf) -> Result<Nnf, NoMemory>
    ensures { IfOk result (λ nnf. nnf ≡ joined conjunction (left ∷ right ∷ [])) }
{
    let mut parts = List::new(alloc);
    parts.push(left)?;
    parts.push(right)?;
    Ok(connected(conjunction, parts))
}

// both formulas hold or neither, or where `positive` is false just one of them
fn equivalence(alloc: Global, positive: bool, a: BothForms, b: BothForms) -> Result<Nnf, NoMemory>
    ensures { IfOk result (λ nnf. nnf ≡ equal_forms positive a.positive a.negative b.positive b.negative) }
{
    let BothForms {
        positive: a,
        negative: not_a,
    } = a;
    let BothForms {
        positive: b,
        negative: not_b,
    } = b;
    let (first, second) = if positive {
        (pair(alloc, false, not_a, b)?, pair(alloc, false, not_b, a)?)
    } else {
        (pair(alloc, false, a, b)?, pair(alloc, false, not_a, not_b)?)
    };
    pair(alloc, true, first, second)
}
