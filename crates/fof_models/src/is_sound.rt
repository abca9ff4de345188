ghost use Rattle.std.specs.Prelude.{◌≡◌, ◌↔◌, ◌&&◌, ◌-◌, ◌^◌, ℕ, IsTrue, length, leb, ltb, map, min, sum, slice_get};
ghost use Rattle.std.specs.List.{AllByRecursion, list_all};
ghost use Rattle.fof_models.specs.Sound.{is_symbol, is_term, are_terms, is_formula, are_formulas, has_pairs, binder_count, AreShort, IsSoundSignature, IsSoundFormula, IsSound};
ghost use Rattle.fof_models.specs.Counted.{Counts};

use crate::formula::{Fof, FofTerm};
use crate::problem::{FofFormula, FofProblem, FofSymbol};

// symbols, arguments of a symbol and binders of a formula number fewer than this
const BOUND: u32 = 0x4000_0000;

impl FofProblem {
    /// Whether the problem is sound, as each call that takes a problem asks. It takes no memory,
    /// and time in proportion to the problem.
    pub fn is_sound(&self) -> bool
        ensures exact { IsTrue result ↔ IsSound self.now }
    {
        let signature = self.signature.as_slice();
        is_sound_signature(signature) && are_sound(signature, self.formulas.as_slice())
    }
}

/// Whether a signature has fewer than 2^30 symbols, and each of them fewer than 2^30 arguments. It
/// takes no memory.
pub fn is_sound_signature(signature: &[FofSymbol]) -> bool
    ensures exact { IsTrue result ↔ IsSoundSignature signature.now }
{
    signature.len() < BOUND as usize && are_short(signature)
}

// whether each symbol has few enough arguments
fn are_short(symbols: &[FofSymbol]) -> bool
    ensures { IsTrue result ↔ AreShort symbols.now }
{
    for symbol in symbols {
        if symbol.arity >= BOUND {
            return false;
        }
    }
    true
}

// whether each stated formula is sound
fn are_sound(signature: &[FofSymbol], formulas: &[FofFormula]) -> bool
    ensures { IsTrue result ↔ AllByRecursion (IsSoundFormula signature.now) formulas.now }
{
    for formula in formulas {
        if !is_sound_formula(signature, formula) {
            return false;
        }
    }
    true
}

// whether a stated formula is sound
fn is_sound_formula(signature: &[FofSymbol], formula: &FofFormula) -> bool
    ensures { IsTrue result ↔ IsSoundFormula signature.now formula.now }
{
    formula.body.is_over(signature, 0) && has_pairs(&formula.body) && binders(&formula.body) < BOUND
}

impl FofTerm {
    /// Whether the term is one over a signature and under so many binders, as `Structure::value`
    /// asks: symbols are functions of the signature, at their numbers of arguments, and variables
    /// are bound. It takes no memory.
    pub fn is_over(&self, signature: &[FofSymbol], binders: u32) -> bool
        ensures exact { result ≡ is_term signature.now self.now binders }
    {
        is_term(signature, self, binders as u64)
    }
}

impl Fof {
    /// Whether the formula is one over a signature and under so many binders, as `Structure::holds`
    /// asks: symbols are of the signature, in their kinds and at their numbers of arguments, and
    /// variables are bound. It takes no memory.
    pub fn is_over(&self, signature: &[FofSymbol], binders: u32) -> bool
        ensures exact { result ≡ is_formula signature.now self.now binders }
    {
        is_formula(signature, self, binders as u64)
    }
}

// whether a term is one under a number of binders, which may be too large to count
#[cycle(term)]
fn is_term(signature: &[FofSymbol], term: &FofTerm, binders: u64) -> bool
    ensures { (n : ℕ) → Counts binders n → result ≡ is_term signature.now term.now n }
{
    match term {
        FofTerm::Var(i) => is_bound(*i, binders),
        FofTerm::Apply(f, terms) => {
            let terms = terms.as_slice();
            is_symbol(signature, *f, false, terms.len()) && are_terms(signature, terms, binders)
        }
    }
}

// whether each is a term under a number of binders
#[cycle(term)]
fn are_terms(signature: &[FofSymbol], terms: &[FofTerm], binders: u64) -> bool
    ensures { (n : ℕ) → Counts binders n → result ≡ are_terms signature.now terms.now n }
{
    for term in terms {
        if !is_term(signature, term, binders) {
            return false;
        }
    }
    true
}

// whether a variable is bound under a number of binders
fn is_bound(i: u32, binders: u64) -> bool
    ensures { (n : ℕ) → Counts binders n → result ≡ ltb i n }
{
    (i as u64) < binders
}

// whether a symbol is there, of this kind and with so many arguments
fn is_symbol(signature: &[FofSymbol], f: u32, predicate: bool, count: usize) -> bool
    ensures { result ≡ is_symbol (slice_get signature.now f) predicate count }
{
    match signature.get(f as usize) {
        Some(symbol) => symbol.predicate == predicate && symbol.arity as usize == count,
        None => false,
    }
}

// whether a formula is one under a number of binders, which may be too large to count
#[cycle(formula)]
fn is_formula(signature: &[FofSymbol], formula: &Fof, binders: u64) -> bool
    ensures { (n : ℕ) → Counts binders n → result ≡ is_formula signature.now formula.now n }
{
    match formula {
        Fof::True => true,
        Fof::False => true,
        Fof::Atom(p, terms) => {
            let terms = terms.as_slice();
            is_symbol(signature, *p, true, terms.len()) && are_terms(signature, terms, binders)
        }
        Fof::Equal(left, right) => {
            is_term(signature, left, binders) && is_term(signature, right, binders)
        }
        Fof::Not(a) => is_formula(signature, a.get(), binders),
        Fof::And(parts) => are_formulas(signature, parts.as_slice(), binders),
        Fof::Or(parts) => are_formulas(signature, parts.as_slice(), binders),
        Fof::Implies(a, b) => {
            is_formula(signature, a.get(), binders) && is_formula(signature, b.get(), binders)
        }
        Fof::ForAll(inner) => {
            let (more, body) = inner.get().below_universals();
            is_formula(signature, body, binders.saturating_add(1 + more as u64))
        }
        Fof::Exists(inner) => {
            let (more, body) = inner.get().below_existentials();
            is_formula(signature, body, binders.saturating_add(1 + more as u64))
        }
    }
}

// whether each is a formula under a number of binders
#[cycle(formula)]
fn are_formulas(signature: &[FofSymbol], parts: &[Fof], binders: u64) -> bool
    ensures { (n : ℕ) → Counts binders n → result ≡ are_formulas signature.now parts.now n }
{
    for part in parts {
        if !is_formula(signature, part, binders) {
            return false;
        }
    }
    true
}

// whether each list of conjuncts or disjuncts has at least two items
#[cycle(pairs)]
fn has_pairs(formula: &Fof) -> bool
    ensures { result ≡ has_pairs formula.now }
{
    match formula {
        Fof::True => true,
        Fof::False => true,
        Fof::Atom(_, _) => true,
        Fof::Equal(_, _) => true,
        Fof::Not(a) => has_pairs(a.get()),
        Fof::And(parts) => have_pairs(parts.as_slice()),
        Fof::Or(parts) => have_pairs(parts.as_slice()),
        Fof::Implies(a, b) => has_pairs(a.get()) && has_pairs(b.get()),
        Fof::ForAll(inner) => has_pairs(inner.get().below_universals().1),
        Fof::Exists(inner) => has_pairs(inner.get().below_existentials().1),
    }
}

// whether there are at least two parts, and so many in each list within them
#[cycle(pairs)]
fn have_pairs(parts: &[Fof]) -> bool
    ensures { result ≡ (leb 2 (length parts.now) && list_all has_pairs parts.now) }
{
    if parts.len() < 2 {
        return false;
    }
    for part in parts {
        if !has_pairs(part) {
            return false;
        }
    }
    true
}

// how many binders a formula has, or the greatest count where it has more
#[cycle(binders)]
fn binders(formula: &Fof) -> u32
    ensures { result ≡ min (binder_count formula.now) (2 ^ 32 - 1) }
{
    match formula {
        Fof::True => 0,
        Fof::False => 0,
        Fof::Atom(_, _) => 0,
        Fof::Equal(_, _) => 0,
        Fof::Not(a) => binders(a.get()),
        Fof::And(parts) => all_binders(parts.as_slice()),
        Fof::Or(parts) => all_binders(parts.as_slice()),
        Fof::Implies(a, b) => binders(a.get()).saturating_add(binders(b.get())),
        Fof::ForAll(inner) => {
            let (more, body) = inner.get().below_universals();
            binders(body).saturating_add(more).saturating_add(1)
        }
        Fof::Exists(inner) => {
            let (more, body) = inner.get().below_existentials();
            binders(body).saturating_add(more).saturating_add(1)
        }
    }
}

// how many binders the parts have, or the greatest count where they have more
#[cycle(binders)]
fn all_binders(parts: &[Fof]) -> u32
    ensures { result ≡ min (sum (map binder_count parts.now)) (2 ^ 32 - 1) }
{
    let mut count = 0u32;
    for part in parts {
        count = count.saturating_add(binders(part));
    }
    count
}
