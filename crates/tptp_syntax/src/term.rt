//! Terms as they are written.

ghost use Rattle.std.specs.Prelude.{◌≡◌, ◌↔◌, IsTrue, IfOk};

use enc_base::{List, Name, NoMemory};
use std::alloc::Global;

/// A term, as `fof_term` and `tff_term` of the TPTP language's grammar, in this profile.
#[derive(Debug, Drop)]
pub enum RawTerm {
    /// A variable, as `X`.
    Variable(Name),
    /// A symbol with its arguments, as `f(X,a)`; a constant has none.
    Apply(Name, List<RawTerm>),
    /// `$i`, which may stand for a type argument.
    Individuals,
}

impl RawTerm {
    /// An equal term.
    #[cycle(copy_term)]
    pub fn copy(&self, alloc: Global) -> Result<RawTerm, NoMemory>
        ensures { IfOk result (λ copied. copied ≡ self.now) }
    {
        match self {
            RawTerm::Variable(name) => Ok(RawTerm::Variable(name.copy(alloc)?)),
            RawTerm::Apply(name, terms) => {
                let name = name.copy(alloc)?;
                Ok(RawTerm::Apply(name, copy_terms(alloc, terms.as_slice())?))
            }
            RawTerm::Individuals => Ok(RawTerm::Individuals),
        }
    }

    /// Whether the two are equal.
    #[cycle(same_term)]
    pub fn same(&self, other: &RawTerm) -> bool
        ensures { IsTrue result ↔ (self.now ≡ other.now) }
    {
        match (self, other) {
            (RawTerm::Variable(name), RawTerm::Variable(other)) => name.same(other),
            (RawTerm::Apply(name, terms), RawTerm::Apply(other, others)) => {
                name.same(other) && same_terms(terms.as_slice(), others.as_slice())
            }
            (RawTerm::Individuals, RawTerm::Individuals) => true,
            _ => false,
        }
    }
}

/// Equal terms.
#[cycle(copy_term)]
pub fn copy_terms(alloc: Global, terms: &[RawTerm]) -> Result<List<RawTerm>, NoMemory>
    ensures { IfOk result (λ copied. copied ≡ terms.now) }
{
    let mut copied = List::new(alloc);
    for term in terms {
        copied.push(term.copy(alloc)?)?;
    }
    Ok(copied)
}

/// Whether the two lists are equal.
#[cycle(same_term)]
pub fn same_terms(terms: &[RawTerm], others: &[RawTerm]) -> bool
    ensures { IsTrue result ↔ (terms.now ≡ others.now) }
{
    if terms.len() != others.len() {
        return false;
    }
    for (i, term) in terms.iter().enumerate() {
        if !term.same(&others[i]) {
            return false;
        }
    }
    true
}
