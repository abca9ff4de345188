ghost use Rattle.std.specs.Prelude.{◌≡◌, ◌↔◌, ◌-◌, ◌^◌, IsTrue, IfOk, map, max, min};
ghost use Rattle.fof_models.specs.Sound.{depth, greatest};

use enc_base::{Boxed, List, NoMemory};
use std::alloc::Global;

/// An untyped term: a variable, or a function applied to terms.
///
/// `Var(i)` is the variable of the i-th enclosing binder, the nearest being 0.
/// `Apply(f, terms)` names the f-th symbol of the signature.
#[derive(Debug, Drop)]
pub enum FofTerm {
    Var(u32),
    Apply(u32, List<FofTerm>),
}

impl FofTerm {
    /// An equal term.
    #[cycle(copy_term)]
    pub fn copy(&self, alloc: Global) -> Result<FofTerm, NoMemory>
        ensures { IfOk result (λ term. term ≡ self.now) }
    {
        match self {
            FofTerm::Var(i) => Ok(FofTerm::Var(*i)),
            FofTerm::Apply(f, terms) => Ok(FofTerm::Apply(
                *f,
                copy_terms(alloc, terms.as_slice())?,
            )),
        }
    }

    /// Whether the two are equal.
    #[cycle(same_term)]
    pub fn same(&self, other: &FofTerm) -> bool
        ensures { IsTrue result ↔ (self.now ≡ other.now) }
    {
        match (self, other) {
            (FofTerm::Var(i), FofTerm::Var(j)) => *i == *j,
            (FofTerm::Apply(f, terms), FofTerm::Apply(g, others)) => {
                *f == *g && same_terms(terms.as_slice(), others.as_slice())
            }
            _ => false,
        }
    }
}

/// Equal terms.
#[cycle(copy_term)]
pub fn copy_terms(alloc: Global, terms: &[FofTerm]) -> Result<List<FofTerm>, NoMemory>
    ensures { IfOk result (λ copied. copied ≡ terms.now) }
{
    let mut copied = List::new(alloc);
    for term in terms {
        copied.push(term.copy(alloc)?)?;
    }
    Ok(copied)
}

/// Whether the two lists are equal.
#[cycle(same_term)]
pub fn same_terms(terms: &[FofTerm], others: &[FofTerm]) -> bool
    ensures { IsTrue result ↔ (terms.now ≡ others.now) }
{
    if terms.len() != others.len() {
        return false;
    }
    for (i, term) in terms.iter().enumerate() {
        if !term.same(&others[i]) {
            return false;
        }
    }
    true
}

/// An untyped first-order formula.
///
/// A typing axiom begins with a quantifier for each argument of its symbol, so a prefix of
/// quantifiers of one kind may be as long as the input. The calls of this crate go over it by a
/// loop, and so does the drop of a formula: they take stack for the other levels alone. `Debug`,
/// which is derived, takes stack for each.
#[derive(Debug)]
pub enum Fof {
    True,
    False,
    Atom(u32, List<FofTerm>),
    Equal(FofTerm, FofTerm),
    Not(Boxed<Fof>),
    And(List<Fof>),
    Or(List<Fof>),
    Implies(Boxed<Fof>, Boxed<Fof>),
    ForAll(Boxed<Fof>),
    Exists(Boxed<Fof>),
}

impl Drop for Fof {
    // A loop down the last part, so that a long prefix of quantifiers takes no stack.
    fn drop(mut self) {
        loop {
            match self {
                Fof::True => return,
                Fof::False => return,
                Fof::Atom(_, _) => return,
                Fof::Equal(_, _) => return,
                Fof::Not(a) => self = a.into_inner(),
                Fof::And(parts) => {
                    drop(parts);
                    return;
                }
                Fof::Or(parts) => {
                    drop(parts);
                    return;
                }
                Fof::Implies(a, b) => {
                    drop(a);
                    self = b.into_inner();
                }
                Fof::ForAll(body) => self = body.into_inner(),
                Fof::Exists(body) => self = body.into_inner(),
            }
        }
    }
}

impl Fof {
    /// An equal formula.
    #[cycle(copy_formula)]
    pub fn copy(&self, alloc: Global) -> Result<Fof, NoMemory>
        ensures { IfOk result (λ formula. formula ≡ self.now) }
    {
        match self {
            Fof::True => Ok(Fof::True),
            Fof::False => Ok(Fof::False),
            Fof::Atom(p, terms) => Ok(Fof::Atom(*p, copy_terms(alloc, terms.as_slice())?)),
            Fof::Equal(left, right) => Ok(Fof::Equal(left.copy(alloc)?, right.copy(alloc)?)),
            Fof::Not(a) => Ok(Fof::Not(copy_boxed(alloc, a)?)),
            Fof::And(parts) => Ok(Fof::And(copy_formulas(alloc, parts.as_slice())?)),
            Fof::Or(parts) => Ok(Fof::Or(copy_formulas(alloc, parts.as_slice())?)),
            Fof::Implies(a, b) => Ok(Fof::Implies(copy_boxed(alloc, a)?, copy_boxed(alloc, b)?)),
            Fof::ForAll(inner) => {
                let (more, body) = inner.get().below_universals();
                let copied = body.copy(alloc)?.under_universals(alloc, more)?;
                Ok(Fof::ForAll(Boxed::new(alloc, copied)?))
            }
            Fof::Exists(inner) => {
                let (more, body) = inner.get().below_existentials();
                let copied = body.copy(alloc)?.under_existentials(alloc, more)?;
                Ok(Fof::Exists(Boxed::new(alloc, copied)?))
            }
        }
    }

    /// Whether the two are equal.
    #[cycle(same_formula)]
    pub fn same(&self, other: &Fof) -> bool
        ensures { IsTrue result ↔ (self.now ≡ other.now) }
    {
        match (self, other) {
            (Fof::True, Fof::True) => true,
            (Fof::False, Fof::False) => true,
            (Fof::Atom(p, terms), Fof::Atom(q, others)) => {
                *p == *q && same_terms(terms.as_slice(), others.as_slice())
            }
            (Fof::Equal(left, right), Fof::Equal(other_left, other_right)) => {
                left.same(other_left) && right.same(other_right)
            }
            (Fof::Not(a), Fof::Not(b)) => a.get().same(b.get()),
            (Fof::And(parts), Fof::And(others)) => {
                same_formulas(parts.as_slice(), others.as_slice())
            }
            (Fof::Or(parts), Fof::Or(others)) => same_formulas(parts.as_slice(), others.as_slice()),
            (Fof::Implies(a, b), Fof::Implies(c, d)) => {
                a.get().same(c.get()) && b.get().same(d.get())
            }
            (Fof::ForAll(a), Fof::ForAll(b)) => {
                let (count, a) = a.get().below_universals();
                let (other_count, b) = b.get().below_universals();
                count == other_count && a.same(b)
            }
            (Fof::Exists(a), Fof::Exists(b)) => {
                let (count, a) = a.get().below_existentials();
                let (other_count, b) = b.get().below_existentials();
                count == other_count && a.same(b)
            }
            _ => false,
        }
    }

    /// The greatest number of nested binders, or 2^32 - 1 where it is larger: for so many elements
    /// `Structure::holds` needs room. It takes no memory.
    #[cycle(nested)]
    pub fn nested(&self) -> u32
        ensures exact { result ≡ min (depth self.now) (2 ^ 32 - 1) }
    {
        match self {
            Fof::True => 0,
            Fof::False => 0,
            Fof::Atom(_, _) => 0,
            Fof::Equal(_, _) => 0,
            Fof::Not(a) => a.get().nested(),
            Fof::And(parts) => most_nested(parts.as_slice()),
            Fof::Or(parts) => most_nested(parts.as_slice()),
            Fof::Implies(a, b) => greater(a.get().nested(), b.get().nested()),
            Fof::ForAll(inner) => {
                let (more, body) = inner.get().below_universals();
                body.nested().saturating_add(more).saturating_add(1)
            }
            Fof::Exists(inner) => {
                let (more, body) = inner.get().below_existentials();
                body.nested().saturating_add(more).saturating_add(1)
            }
        }
    }
}

// an equal formula in a box of its own
#[cycle(copy_formula)]
fn copy_boxed(alloc: Global, formula: &Boxed<Fof>) -> Result<Boxed<Fof>, NoMemory>
    ensures { IfOk result (λ copied. copied ≡ formula.now) }
{
    Boxed::new(alloc, formula.get().copy(alloc)?)
}

/// Equal formulas.
#[cycle(copy_formula)]
pub fn copy_formulas(alloc: Global, formulas: &[Fof]) -> Result<List<Fof>, NoMemory>
    ensures { IfOk result (λ copied. copied ≡ formulas.now) }
{
    let mut copied = List::new(alloc);
    for formula in formulas {
        copied.push(formula.copy(alloc)?)?;
    }
    Ok(copied)
}

/// Whether the two lists are equal.
#[cycle(same_formula)]
pub fn same_formulas(formulas: &[Fof], others: &[Fof]) -> bool
    ensures { IsTrue result ↔ (formulas.now ≡ others.now) }
{
    if formulas.len() != others.len() {
        return false;
    }
    for (i, formula) in formulas.iter().enumerate() {
        if !formula.same(&others[i]) {
            return false;
        }
    }
    true
}

// the greatest number of nested binders in formulas, or 2^32 - 1 where it is larger
#[cycle(nested)]
fn most_nested(parts: &[Fof]) -> u32
    ensures exact { result ≡ min (greatest (map depth parts.now)) (2 ^ 32 - 1) }
{
    let mut most = 0;
    for part in parts {
        most = greater(most, part.nested());
    }
    most
}

// the greater of two numbers
pub(crate) fn greater(a: u32, b: u32) -> u32
    ensures { result ≡ max a b }
{
    if a < b { b } else { a }
}
