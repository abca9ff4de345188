ghost use Rattle.std.specs.Prelude.{◌≡◌, ℕ, map, IfOk};
ghost use Rattle.enc_marks.specs.Calls.Flags.{is_set, number_of};
ghost use Rattle.enc_marks.specs.Occurrence.{count_below, renumber, renumber_term};

use crate::flags::Occurring;
use enc_base::{Boxed, List, NoMemory};
use fof_models::{Fof, FofTerm};
use std::alloc::Global;

/// A new number for each symbol.
#[derive(Debug, Drop)]
pub struct Numbering {
    numbers: Vec<u32>,
    count: u32,
}

impl Numbering {
    /// The number of each symbol among those that occur: how many before it do.
    pub fn new(alloc: Global, occurring: &Occurring) -> Result<Numbering, NoMemory>
        ensures { IfOk result (λ numbering. (m : ℕ) → number_of numbering m ≡ count_below m (is_set
            occurring.now)) }
    {
        let mut numbers = Vec::new(alloc);
        let mut count = 0;
        for occurs in occurring.flags.as_slice() {
            numbers.push(count)?;
            if *occurs {
                count += 1;
            }
        }
        Ok(Numbering { numbers, count })
    }

    fn number(&self, m: u32) -> u32
        ensures { result ≡ number_of self.now m }
    {
        self.numbers.get(m as usize).copied().unwrap_or(self.count)
    }

    #[cycle(term)]
    fn term(&self, alloc: Global, term: &FofTerm) -> Result<FofTerm, NoMemory>
        ensures { IfOk result (λ made. made ≡ renumber_term (number_of self.now) term.now) }
    {
        match term {
            FofTerm::Var(i) => Ok(FofTerm::Var(*i)),
            FofTerm::Apply(f, terms) => {
                let terms = self.terms(alloc, terms.as_slice())?;
                Ok(FofTerm::Apply(self.number(*f), terms))
            }
        }
    }

    #[cycle(term)]
    fn terms(&self, alloc: Global, terms: &[FofTerm]) -> Result<List<FofTerm>, NoMemory>
        ensures { IfOk result (λ made. made ≡ map (renumber_term (number_of self.now)) terms.now) }
    {
        let mut made = List::new(alloc);
        for term in terms {
            made.push(self.term(alloc, term)?)?;
        }
        Ok(made)
    }

    /// A formula with its symbols under their new numbers.
    #[cycle(formula)]
    pub fn formula(&self, alloc: Global, formula: &Fof) -> Result<Fof, NoMemory>
        ensures { IfOk result (λ made. made ≡ renumber (number_of self.now) formula.now) }
    {
        match formula {
            Fof::True => Ok(Fof::True),
            Fof::False => Ok(Fof::False),
            Fof::Atom(p, terms) => {
                let terms = self.terms(alloc, terms.as_slice())?;
                Ok(Fof::Atom(self.number(*p), terms))
            }
            Fof::Equal(left, right) => {
                let left = self.term(alloc, left)?;
                let right = self.term(alloc, right)?;
                Ok(Fof::Equal(left, right))
            }
            Fof::Not(a) => Ok(Fof::Not(self.boxed(alloc, a)?)),
            Fof::And(parts) => Ok(Fof::And(self.formulas(alloc, parts.as_slice())?)),
            Fof::Or(parts) => Ok(Fof::Or(self.formulas(alloc, parts.as_slice())?)),
            Fof::Implies(a, b) => {
                let a = self.boxed(alloc, a)?;
                let b = self.boxed(alloc, b)?;
                Ok(Fof::Implies(a, b))
            }
            Fof::ForAll(body) => Ok(Fof::ForAll(self.boxed(alloc, body)?)),
            Fof::Exists(body) => Ok(Fof::Exists(self.boxed(alloc, body)?)),
        }
    }

    #[cycle(formula)]
    fn boxed(&self, alloc: Global, formula: &Boxed<Fof>) -> Result<Boxed<Fof>, NoMemory>
        ensures { IfOk result (λ made. made ≡ renumber (number_of self.now) formula.now) }
    {
        Boxed::new(alloc, self.formula(alloc, formula.get())?)
    }

    #[cycle(formula)]
    fn formulas(&self, alloc: Global, parts: &[Fof]) -> Result<List<Fof>, NoMemory>
        ensures { IfOk result (λ made. made ≡ map (renumber (number_of self.now)) parts.now) }
    {
        let mut made = List::new(alloc);
        for part in parts {
            made.push(self.formula(alloc, part)?)?;
        }
        Ok(made)
    }
}
