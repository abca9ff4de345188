ghost use Rattle.std.specs.Prelude.{◌≡◌, ◌+◌, ◌<◌, ◌^◌, ◌||◌, ℕ, eqb, length, IfOk, OnOk};
ghost use Rattle.std.specs.List.{list_any};
ghost use Rattle.enc_marks.specs.Calls.Closures.{closures};
ghost use Rattle.enc_marks.specs.Encoded.{is_present};
ghost use Rattle.enc_marks.specs.Calls.Flags.{is_set};
ghost use Rattle.enc_marks.specs.Occurrence.{occurs, occurs_in_term};

use crate::flags::Occurring;
use crate::open_formula::OpenFormula;
use enc_base::NoMemory;
use fof_models::{Fof, FofTerm};
use std::alloc::Global;

impl Occurring {
    /// The symbols that occur in these formulas.
    pub fn of_formulas(alloc: Global, formulas: &[OpenFormula]) -> Result<Occurring, NoMemory>
        ensures { IfOk result (λ occurring. (m : ℕ) → is_set occurring m ≡ is_present (closures
            formulas.now) m) }
    {
        let mut occurring = Occurring {
            flags: Vec::new(alloc),
        };
        for formula in formulas {
            occurring.add_formula(&formula.body)?;
        }
        Ok(occurring)
    }

    /// Whether the symbol of this number occurs.
    pub fn has(&self, m: usize) -> bool
        ensures { result ≡ is_set self.now m }
    {
        self.flags.get(m).copied().unwrap_or(false)
    }

    // No problem has so many symbols that the last number of 32 bits is one's: it is taken for want
    // of memory.
    fn add(&mut self, m: u32) -> Result<(), NoMemory>
        ensures { OnOk result ((i : ℕ) → is_set self.new i ≡ (is_set self.old i || eqb i m)) }
    {
        if m == u32::MAX {
            return Err(NoMemory);
        }
        let at = m as usize;
        self.grow(at)?;
        self.flags[at] = true;
        Ok(())
    }

    // makes room for a flag at this number
    fn grow(&mut self, at: usize) -> Result<(), NoMemory>
        requires { at + 1 < 2 ^ 32 }
        ensures same { OnOk result ((i : ℕ) → is_set self.new i ≡ is_set self.old i) }
        ensures room { OnOk result (at < length self.new.flags.items) }
    {
        if at >= self.flags.len() {
            self.flags.resize(at + 1, false)?;
        }
        Ok(())
    }

    #[cycle(add_term)]
    fn add_term(&mut self, term: &FofTerm) -> Result<(), NoMemory>
        ensures { OnOk result ((m : ℕ) → is_set self.new m ≡ (is_set self.old m || occurs_in_term m
            term.now)) }
    {
        match term {
            FofTerm::Var(_) => Ok(()),
            FofTerm::Apply(f, terms) => {
                self.add(*f)?;
                self.add_terms(terms.as_slice())
            }
        }
    }

    #[cycle(add_term)]
    fn add_terms(&mut self, terms: &[FofTerm]) -> Result<(), NoMemory>
        ensures { OnOk result ((m : ℕ) → is_set self.new m ≡ (is_set self.old m || list_any
            (occurs_in_term m) terms.now)) }
    {
        for term in terms {
            self.add_term(term)?;
        }
        Ok(())
    }

    #[cycle(add_formula)]
    fn add_formula(&mut self, formula: &Fof) -> Result<(), NoMemory>
        ensures { OnOk result ((m : ℕ) → is_set self.new m ≡ (is_set self.old m || occurs m
            formula.now)) }
    {
        match formula {
            Fof::True => Ok(()),
            Fof::False => Ok(()),
            Fof::Atom(p, terms) => {
                self.add(*p)?;
                self.add_terms(terms.as_slice())
            }
            Fof::Equal(left, right) => {
                self.add_term(left)?;
                self.add_term(right)
            }
            Fof::Not(a) => self.add_formula(a.get()),
            Fof::And(parts) => self.add_formulas(parts.as_slice()),
            Fof::Or(parts) => self.add_formulas(parts.as_slice()),
            Fof::Implies(a, b) => {
                self.add_formula(a.get())?;
                self.add_formula(b.get())
            }
            Fof::ForAll(body) => self.add_formula(body.get()),
            Fof::Exists(body) => self.add_formula(body.get()),
        }
    }

    #[cycle(add_formula)]
    fn add_formulas(&mut self, parts: &[Fof]) -> Result<(), NoMemory>
        ensures { OnOk result ((m : ℕ) → is_set self.new m
            ≡ (is_set self.old m || list_any (occurs m)
            parts.now)) }
    {
        for part in parts {
            self.add_formula(part)?;
        }
        Ok(())
    }
}
