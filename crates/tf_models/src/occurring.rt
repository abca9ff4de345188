ghost use Rattle.std.specs.Prelude.{ℕ, ◌≡◌, ◌↔◌, ◌||◌, false, IsTrue};
ghost use Rattle.std.specs.List.{list_any};
ghost use Rattle.tf_core.specs.Occurrences.{occurs_in_type, occurs_in_types, occurs_in_term, occurs_in_terms, occurs_in};
ghost use Rattle.tf_models.specs.Search.{AreUsed};

use tf_core::{Formula, Term, Ty};

// whether a type variable occurs in a type
#[cycle(type_has)]
pub(crate) fn type_has(ty: &Ty, i: u32) -> bool
    ensures exact { result ≡ occurs_in_type i ty.now }
{
    match ty {
        Ty::Var(j) => i == *j,
        Ty::Apply(_, types) => some_type_has(types.as_slice(), i),
    }
}

// whether it occurs in some of the types
#[cycle(type_has)]
fn some_type_has(types: &[Ty], i: u32) -> bool
    ensures exact { result ≡ occurs_in_types i types.now }
{
    for ty in types {
        if type_has(ty, i) {
            return true;
        }
    }
    false
}

// whether it occurs in a term
#[cycle(term_has)]
fn term_has(term: &Term, i: u32) -> bool
    ensures exact { result ≡ occurs_in_term i term.now }
{
    match term {
        Term::Var(_) => false,
        Term::Apply(_, types, terms) => application_has(terms.as_slice(), types.as_slice(), i),
    }
}

// whether it occurs in the types or the terms that a symbol is applied to
#[cycle(term_has)]
fn application_has(terms: &[Term], types: &[Ty], i: u32) -> bool
    ensures exact { result ≡ (occurs_in_types i types.now || occurs_in_terms i terms.now) }
{
    some_type_has(types, i) || some_term_has(terms, i)
}

// whether it occurs in some of the terms
#[cycle(term_has)]
fn some_term_has(terms: &[Term], i: u32) -> bool
    ensures exact { result ≡ occurs_in_terms i terms.now }
{
    for term in terms {
        if term_has(term, i) {
            return true;
        }
    }
    false
}

// whether it occurs in an equation's type or one of its sides
fn equation_has(ty: &Ty, left: &Term, right: &Term, i: u32) -> bool
    ensures exact { result ≡ (occurs_in_type i ty.now || occurs_in_term i left.now || occurs_in_term i right.now) }
{
    type_has(ty, i) || term_has(left, i) || term_has(right, i)
}

// whether it occurs in a formula
#[cycle(formula_has)]
pub(crate) fn formula_has(formula: &Formula, i: u32) -> bool
    ensures exact { result ≡ occurs_in i formula.now }
{
    match formula {
        Formula::True => false,
        Formula::False => false,
        Formula::Atom(_, types, terms) => application_has(terms.as_slice(), types.as_slice(), i),
        Formula::Equal(ty, left, right) => equation_has(ty, left, right, i),
        Formula::Not(a) => formula_has(a.get(), i),
        Formula::And(parts) => some_formula_has(parts.as_slice(), i),
        Formula::Or(parts) => some_formula_has(parts.as_slice(), i),
        Formula::Implies(a, b) => formula_has(a.get(), i) || formula_has(b.get(), i),
        Formula::If(a, b) => formula_has(a.get(), i) || formula_has(b.get(), i),
        Formula::Iff(a, b) => formula_has(a.get(), i) || formula_has(b.get(), i),
        Formula::Xor(a, b) => formula_has(a.get(), i) || formula_has(b.get(), i),
        Formula::Nand(a, b) => formula_has(a.get(), i) || formula_has(b.get(), i),
        Formula::Nor(a, b) => formula_has(a.get(), i) || formula_has(b.get(), i),
        Formula::ForAll(ty, body) => binder_has(body.get(), ty, i),
        Formula::Exists(ty, body) => binder_has(body.get(), ty, i),
    }
}

// whether it occurs in a binder's type or its body
#[cycle(formula_has)]
fn binder_has(body: &Formula, ty: &Ty, i: u32) -> bool
    ensures exact { result ≡ (occurs_in_type i ty.now || occurs_in i body.now) }
{
    type_has(ty, i) || formula_has(body, i)
}

// whether it occurs in some of the formulas
#[cycle(formula_has)]
fn some_formula_has(parts: &[Formula], i: u32) -> bool
    ensures exact { result ≡ list_any (occurs_in i) parts.now }
{
    for part in parts {
        if formula_has(part, i) {
            return true;
        }
    }
    false
}

// whether no type variable occurs in a type
#[cycle(is_closed)]
pub(crate) fn is_closed(ty: &Ty) -> bool
    ensures exact { IsTrue result ↔ ((i : ℕ) → occurs_in_type i ty.now ≡ false) }
{
    match ty {
        Ty::Var(_) => false,
        Ty::Apply(_, types) => are_closed(types.as_slice()),
    }
}

// whether none occurs in any of the types
#[cycle(is_closed)]
pub(crate) fn are_closed(types: &[Ty]) -> bool
    ensures exact { IsTrue result ↔ ((i : ℕ) → occurs_in_types i types.now ≡ false) }
{
    for ty in types {
        if !is_closed(ty) {
            return false;
        }
    }
    true
}

// one more than the greatest type variable that occurs in a formula, of those below a count, or 0
pub(crate) fn used_types(formula: &Formula, count: u32) -> u32
    ensures exact { AreUsed formula.now count result }
{
    for i in (0..count).rev() {
        if formula_has(formula, i) {
            return i + 1;
        }
    }
    0
}
