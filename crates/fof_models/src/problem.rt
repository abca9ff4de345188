ghost use Rattle.std.specs.Prelude.{◌≡◌, ◌↔◌, IsTrue, IfOk};
ghost use Rattle.fof_models.specs.Sound.{IsSound, most_terms};

use crate::formula::{Fof, greater};
use enc_base::{List, Name, NoMemory};
use std::alloc::Global;

/// A function or a predicate, its number of arguments, and the name that it would like to have.
#[derive(Debug, Drop)]
pub struct FofSymbol {
    pub wanted: Name,
    pub arity: u32,
    pub predicate: bool,
}

impl FofSymbol {
    /// An equal symbol.
    pub fn copy(&self, alloc: Global) -> Result<FofSymbol, NoMemory>
        ensures { IfOk result (λ symbol. symbol ≡ self.now) }
    {
        Ok(FofSymbol {
            wanted: self.wanted.copy(alloc)?,
            arity: self.arity,
            predicate: self.predicate,
        })
    }

    /// Whether the two are equal.
    pub fn same(&self, other: &FofSymbol) -> bool
        ensures { IsTrue result ↔ (self.now ≡ other.now) }
    {
        self.wanted.same(&other.wanted)
            && self.arity == other.arity
            && self.predicate == other.predicate
    }
}

/// Equal symbols.
pub fn copy_symbols(alloc: Global, symbols: &[FofSymbol]) -> Result<List<FofSymbol>, NoMemory>
    ensures { IfOk result (λ copied. copied ≡ symbols.now) }
{
    let mut copied = List::new(alloc);
    for symbol in symbols {
        copied.push(symbol.copy(alloc)?)?;
    }
    Ok(copied)
}

/// Whether the two lists are equal.
pub fn same_symbols(symbols: &[FofSymbol], others: &[FofSymbol]) -> bool
    ensures { IsTrue result ↔ (symbols.now ≡ others.now) }
{
    if symbols.len() != others.len() {
        return false;
    }
    for (i, symbol) in symbols.iter().enumerate() {
        if !symbol.same(&others[i]) {
            return false;
        }
    }
    true
}

/// What a formula is stated as. Both are hypotheses.
#[derive(Debug, Drop)]
pub enum FofRole {
    Axiom,
    NegatedConjecture,
}

impl FofRole {
    /// An equal role. It takes no memory, and has an error because every type's copy has one.
    pub fn copy(&self, _alloc: Global) -> Result<FofRole, NoMemory>
        ensures { IfOk result (λ role. role ≡ self.now) }
    {
        match self {
            FofRole::Axiom => Ok(FofRole::Axiom),
            FofRole::NegatedConjecture => Ok(FofRole::NegatedConjecture),
        }
    }

    /// Whether the two are equal.
    pub fn same(&self, other: &FofRole) -> bool
        ensures { IsTrue result ↔ (self.now ≡ other.now) }
    {
        match (self, other) {
            (FofRole::Axiom, FofRole::Axiom) => true,
            (FofRole::NegatedConjecture, FofRole::NegatedConjecture) => true,
            _ => false,
        }
    }
}

/// A formula that a problem states.
#[derive(Debug, Drop)]
pub struct FofFormula {
    pub name: Name,
    pub role: FofRole,
    pub body: Fof,
}

impl FofFormula {
    /// An equal formula.
    pub fn copy(&self, alloc: Global) -> Result<FofFormula, NoMemory>
        ensures { IfOk result (λ formula. formula ≡ self.now) }
    {
        Ok(FofFormula {
            name: self.name.copy(alloc)?,
            role: self.role.copy(alloc)?,
            body: self.body.copy(alloc)?,
        })
    }

    /// Whether the two are equal.
    pub fn same(&self, other: &FofFormula) -> bool
        ensures { IsTrue result ↔ (self.now ≡ other.now) }
    {
        self.name.same(&other.name) && self.role.same(&other.role) && self.body.same(&other.body)
    }
}

/// Equal stated formulas.
pub fn copy_stated(alloc: Global, formulas: &[FofFormula]) -> Result<List<FofFormula>, NoMemory>
    ensures { IfOk result (λ copied. copied ≡ formulas.now) }
{
    let mut copied = List::new(alloc);
    for formula in formulas {
        copied.push(formula.copy(alloc)?)?;
    }
    Ok(copied)
}

/// Whether the two lists are equal.
pub fn same_stated(formulas: &[FofFormula], others: &[FofFormula]) -> bool
    ensures { IsTrue result ↔ (formulas.now ≡ others.now) }
{
    if formulas.len() != others.len() {
        return false;
    }
    for (i, formula) in formulas.iter().enumerate() {
        if !formula.same(&others[i]) {
            return false;
        }
    }
    true
}

/// An untyped problem: a signature, and formulas over it.
#[derive(Debug, Drop)]
pub struct FofProblem {
    pub signature: List<FofSymbol>,
    pub formulas: List<FofFormula>,
}

impl FofProblem {
    /// An equal problem.
    pub fn copy(&self, alloc: Global) -> Result<FofProblem, NoMemory>
        ensures { IfOk result (λ problem. problem ≡ self.now) }
    {
        Ok(FofProblem {
            signature: copy_symbols(alloc, self.signature.as_slice())?,
            formulas: copy_stated(alloc, self.formulas.as_slice())?,
        })
    }

    /// Whether the two are equal.
    pub fn same(&self, other: &FofProblem) -> bool
        ensures { IsTrue result ↔ (self.now ≡ other.now) }
    {
        same_symbols(self.signature.as_slice(), other.signature.as_slice())
            && same_stated(self.formulas.as_slice(), other.formulas.as_slice())
    }

    /// The greatest number of nested binders in a formula of the problem. It takes no memory.
    pub fn most_terms(&self) -> u32
        requires sound { IsSound self.now }
        ensures exact { result ≡ most_terms self.now }
    {
        let mut most = 0;
        for formula in self.formulas.as_slice() {
            most = greater(most, formula.body.nested());
        }
        most
    }
}
