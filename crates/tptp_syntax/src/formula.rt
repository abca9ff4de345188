//! Formulas as they are written.

ghost use Rattle.std.specs.Prelude.{◌≡◌, ◌↔◌, IsTrue, IfOk};

use crate::term::{RawTerm, copy_terms, same_terms};
use crate::types::{Bound, copy_bounds, same_bounds};
use enc_base::{Boxed, List, Name, NoMemory};
use std::alloc::Global;

/// A formula, as `fof_logic_formula` and `tff_logic_formula` of the TPTP language's grammar, in this
/// profile. Brackets leave no node.
#[derive(Debug, Drop)]
pub enum RawFormula {
    /// `$true`.
    True,
    /// `$false`.
    False,
    /// A predicate with its arguments, as `p(X)`.
    Atom(Name, List<RawTerm>),
    /// `s = t`.
    Equal(RawTerm, RawTerm),
    /// `s != t`.
    Unequal(RawTerm, RawTerm),
    /// `~ a`.
    Not(Boxed<RawFormula>),
    /// `a & b & c`, with at least two parts.
    And(List<RawFormula>),
    /// `a | b | c`, with at least two parts.
    Or(List<RawFormula>),
    /// `a => b`.
    Implies(Boxed<RawFormula>, Boxed<RawFormula>),
    /// `a <= b`.
    If(Boxed<RawFormula>, Boxed<RawFormula>),
    /// `a <=> b`.
    Iff(Boxed<RawFormula>, Boxed<RawFormula>),
    /// `a <~> b`.
    Xor(Boxed<RawFormula>, Boxed<RawFormula>),
    /// `a ~& b`.
    Nand(Boxed<RawFormula>, Boxed<RawFormula>),
    /// `a ~| b`.
    Nor(Boxed<RawFormula>, Boxed<RawFormula>),
    /// `![X, ..]: a`, with at least one variable.
    ForAll(List<Bound>, Boxed<RawFormula>),
    /// `?[X, ..]: a`, with at least one variable.
    Exists(List<Bound>, Boxed<RawFormula>),
}

impl RawFormula {
    /// An equal formula.
    #[cycle(copy_formula)]
    pub fn copy(&self, alloc: Global) -> Result<RawFormula, NoMemory>
        ensures { IfOk result (λ copied. copied ≡ self.now) }
    {
        match self {
            RawFormula::True => Ok(RawFormula::True),
            RawFormula::False => Ok(RawFormula::False),
            RawFormula::Atom(name, terms) => {
                let name = name.copy(alloc)?;
                Ok(RawFormula::Atom(name, copy_terms(alloc, terms.as_slice())?))
            }
            RawFormula::Equal(left, right) => {
                let left = left.copy(alloc)?;
                Ok(RawFormula::Equal(left, right.copy(alloc)?))
            }
            RawFormula::Unequal(left, right) => {
                let left = left.copy(alloc)?;
                Ok(RawFormula::Unequal(left, right.copy(alloc)?))
            }
            RawFormula::Not(a) => Ok(RawFormula::Not(copy_boxed(alloc, a)?)),
            RawFormula::And(parts) => {
                Ok(RawFormula::And(copy_formulas(alloc, parts.as_slice())?))
            }
            RawFormula::Or(parts) => Ok(RawFormula::Or(copy_formulas(alloc, parts.as_slice())?)),
            RawFormula::Implies(a, b) => {
                Ok(RawFormula::Implies(copy_boxed(alloc, a)?, copy_boxed(alloc, b)?))
            }
            RawFormula::If(a, b) => {
                Ok(RawFormula::If(copy_boxed(alloc, a)?, copy_boxed(alloc, b)?))
            }
            RawFormula::Iff(a, b) => {
                Ok(RawFormula::Iff(copy_boxed(alloc, a)?, copy_boxed(alloc, b)?))
            }
            RawFormula::Xor(a, b) => {
                Ok(RawFormula::Xor(copy_boxed(alloc, a)?, copy_boxed(alloc, b)?))
            }
            RawFormula::Nand(a, b) => {
                Ok(RawFormula::Nand(copy_boxed(alloc, a)?, copy_boxed(alloc, b)?))
            }
            RawFormula::Nor(a, b) => {
                Ok(RawFormula::Nor(copy_boxed(alloc, a)?, copy_boxed(alloc, b)?))
            }
            RawFormula::ForAll(bounds, body) => {
                let bounds = copy_bounds(alloc, bounds.as_slice())?;
                Ok(RawFormula::ForAll(bounds, copy_boxed(alloc, body)?))
            }
            RawFormula::Exists(bounds, body) => {
                let bounds = copy_bounds(alloc, bounds.as_slice())?;
                Ok(RawFormula::Exists(bounds, copy_boxed(alloc, body)?))
            }
        }
    }

    /// Whether the two are equal.
    #[cycle(same_formula)]
    pub fn same(&self, other: &RawFormula) -> bool
        ensures { IsTrue result ↔ (self.now ≡ other.now) }
    {
        match (self, other) {
            (RawFormula::True, RawFormula::True) => true,
            (RawFormula::False, RawFormula::False) => true,
            (RawFormula::Atom(name, terms), RawFormula::Atom(other, others)) => {
                name.same(other) && same_terms(terms.as_slice(), others.as_slice())
            }
            (RawFormula::Equal(a, b), RawFormula::Equal(c, d)) => a.same(c) && b.same(d),
            (RawFormula::Unequal(a, b), RawFormula::Unequal(c, d)) => a.same(c) && b.same(d),
            (RawFormula::Not(a), RawFormula::Not(b)) => same_boxed(a, b),
            (RawFormula::And(parts), RawFormula::And(others)) => {
                same_formulas(parts.as_slice(), others.as_slice())
            }
            (RawFormula::Or(parts), RawFormula::Or(others)) => {
                same_formulas(parts.as_slice(), others.as_slice())
            }
            (RawFormula::Implies(a, b), RawFormula::Implies(c, d)) => same_boxed(a, c)
                && same_boxed(b, d),
            (RawFormula::If(a, b), RawFormula::If(c, d)) => same_boxed(a, c) && same_boxed(b, d),
            (RawFormula::Iff(a, b), RawFormula::Iff(c, d)) => same_boxed(a, c) && same_boxed(b, d),
            (RawFormula::Xor(a, b), RawFormula::Xor(c, d)) => same_boxed(a, c) && same_boxed(b, d),
            (RawFormula::Nand(a, b), RawFormula::Nand(c, d)) => same_boxed(a, c)
                && same_boxed(b, d),
            (RawFormula::Nor(a, b), RawFormula::Nor(c, d)) => same_boxed(a, c) && same_boxed(b, d),
            (RawFormula::ForAll(bounds, body), RawFormula::ForAll(others, other)) => {
                same_bounds(bounds.as_slice(), others.as_slice()) && same_boxed(body, other)
            }
            (RawFormula::Exists(bounds, body), RawFormula::Exists(others, other)) => {
                same_bounds(bounds.as_slice(), others.as_slice()) && same_boxed(body, other)
            }
            _ => false,
        }
    }
}

// an equal formula in a box of its own
#[cycle(copy_formula)]
fn copy_boxed(alloc: Global, formula: &Boxed<RawFormula>) -> Result<Boxed<RawFormula>, NoMemory>
    ensures { IfOk result (λ copied. copied ≡ formula.now) }
{
    Boxed::new(alloc, formula.get().copy(alloc)?)
}

// whether two boxes hold equal formulas
#[cycle(same_formula)]
fn same_boxed(formula: &Boxed<RawFormula>, other: &Boxed<RawFormula>) -> bool
    ensures { IsTrue result ↔ (formula.now ≡ other.now) }
{
    formula.get().same(other.get())
}

/// Equal formulas.
#[cycle(copy_formula)]
pub fn copy_formulas(alloc: Global, formulas: &[RawFormula]) -> Result<List<RawFormula>, NoMemory>
    ensures { IfOk result (λ copied. copied ≡ formulas.now) }
{
    let mut copied = List::new(alloc);
    for formula in formulas {
        copied.push(formula.copy(alloc)?)?;
    }
    Ok(copied)
}

/// Whether the two lists are equal.
#[cycle(same_formula)]
pub fn same_formulas(formulas: &[RawFormula], others: &[RawFormula]) -> bool
    ensures { IsTrue result ↔ (formulas.now ≡ others.now) }
{
    if formulas.len() != others.len() {
        return false;
    }
    for (i, formula) in formulas.iter().enumerate() {
        if !formula.same(&others[i]) {
            return false;
        }
    }
    true
}
