ghost use Rattle.std.specs.Prelude.{◌≡◌, ◌↔◌, ◌<◌, ◌^◌, IsTrue, IfOk, map};
ghost use Rattle.std.specs.List.{list_all};
ghost use Rattle.tf_core.specs.Substitution.{raised, variables_below, shift, substitute_term};

use crate::ty::{Ty, copy_types, instances_of, same_types};
use enc_base::{List, NoMemory};
use std::alloc::Global;

/// A term: a variable, or a function applied to types and terms.
///
/// `Var(i)` is the variable of the i-th enclosing binder, the nearest being 0.
/// `Apply(f, types, terms)` names the f-th symbol of the signature, with one type for each parameter.
#[derive(Debug, Drop)]
pub enum Term {
    Var(u32),
    Apply(u32, List<Ty>, List<Term>),
}

impl Term {
    /// An equal term.
    #[cycle(copy_term)]
    pub fn copy(&self, alloc: Global) -> Result<Term, NoMemory>
        ensures { IfOk result (λ copied. copied ≡ self.now) }
    {
        match self {
            Term::Var(i) => Ok(Term::Var(*i)),
            Term::Apply(f, types, terms) => {
                let types = copy_types(alloc, types.as_slice())?;
                let terms = copy_terms(alloc, terms.as_slice())?;
                Ok(Term::Apply(*f, types, terms))
            }
        }
    }

    /// Whether the two are equal.
    #[cycle(same_term)]
    pub fn same(&self, other: &Term) -> bool
        ensures { IsTrue result ↔ (self.now ≡ other.now) }
    {
        match (self, other) {
            (Term::Var(i), Term::Var(j)) => *i == *j,
            (Term::Apply(f, types, terms), Term::Apply(g, other_types, others)) => {
                *f == *g
                    && same_types(types.as_slice(), other_types.as_slice())
                    && same_terms(terms.as_slice(), others.as_slice())
            }
            _ => false,
        }
    }

    /// The term with each variable at or above `from` raised by `by`: what it is behind so many new
    /// binders. Each sum is below 2^32; a variable below `from` has none.
    #[cycle(shift)]
    pub fn shift(&self, alloc: Global, by: u32, from: u32) -> Result<Term, NoMemory>
        requires sums { IsTrue (variables_below (2 ^ 32) (shift by from self.now)) }
        ensures exact { IfOk result (λ term. term ≡ shift by from self.now) }
    {
        match self {
            Term::Var(i) => Ok(Term::Var(raise(*i, by, from))),
            Term::Apply(f, types, terms) => {
                let types = copy_types(alloc, types.as_slice())?;
                let terms = shifted(alloc, terms.as_slice(), by, from)?;
                Ok(Term::Apply(*f, types, terms))
            }
        }
    }

    /// The term with its type variables replaced.
    #[cycle(substitute)]
    pub fn substitute_types(&self, alloc: Global, types: &[Ty]) -> Result<Term, NoMemory>
        ensures exact { IfOk result (λ term. term ≡ substitute_term types.now self.now) }
    {
        match self {
            Term::Var(i) => Ok(Term::Var(*i)),
            Term::Apply(f, arguments, terms) => {
                let arguments = instances_of(alloc, arguments.as_slice(), types)?;
                let terms = substituted_terms(alloc, terms.as_slice(), types)?;
                Ok(Term::Apply(*f, arguments, terms))
            }
        }
    }
}

// a variable raised where it stands at or above a bound
fn raise(i: u32, by: u32, from: u32) -> u32
    requires { raised by from i < 2 ^ 32 }
    ensures { result ≡ raised by from i }
{
    if i < from { i } else { i + by }
}

// each of the terms shifted
#[cycle(shift)]
fn shifted(alloc: Global, terms: &[Term], by: u32, from: u32) -> Result<List<Term>, NoMemory>
    requires { IsTrue (list_all (λ t. variables_below (2 ^ 32) (shift by from t)) terms.now) }
    ensures { IfOk result (λ made. made ≡ map (shift by from) terms.now) }
{
    let mut made = List::new(alloc);
    for term in terms {
        made.push(term.shift(alloc, by, from)?)?;
    }
    Ok(made)
}

/// Each of the terms with its type variables replaced.
#[cycle(substitute)]
pub fn substituted_terms(
    alloc: Global,
    terms: &[Term],
    types: &[Ty],
) -> Result<List<Term>, NoMemory>
    ensures { IfOk result (λ made. made ≡ map (substitute_term types.now) terms.now) }
{
    let mut made = List::new(alloc);
    for term in terms {
        made.push(term.substitute_types(alloc, types)?)?;
    }
    Ok(made)
}

/// Equal terms.
#[cycle(copy_term)]
pub fn copy_terms(alloc: Global, terms: &[Term]) -> Result<List<Term>, NoMemory>
    ensures { IfOk result (λ copied. copied ≡ terms.now) }
{
    let mut copied = List::new(alloc);
    for term in terms {
        copied.push(term.copy(alloc)?)?;
    }
    Ok(copied)
}

/// Whether the two lists are equal.
#[cycle(same_term)]
pub fn same_terms(terms: &[Term], others: &[Term]) -> bool
    ensures { IsTrue result ↔ (terms.now ≡ others.now) }
{
    if terms.len() != others.len() {
        return false;
    }
    for (i, term) in terms.iter().enumerate() {
        if !term.same(&others[i]) {
            return false;
        }
    }
    true
}
