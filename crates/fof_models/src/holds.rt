ghost use Rattle.std.specs.Prelude.{◌≡◌, ◌≤◌, ◌+◌, ◌↔◌, true, map, length, eqb, IsTrue, slice_get};
ghost use Rattle.fof_models.specs.Structures.{reading};
ghost use Rattle.fof_models.specs.Sound.{is_symbol, are_terms, is_formula, are_formulas, depth, greatest};
ghost use Rattle.fof_models.specs.Evaluation.{value_in, true_in, all_true, some_true, IsReady, IsEach};

use crate::env::FofEnv;
use crate::formula::{Fof, FofTerm};
use crate::problem::FofSymbol;
use crate::structure::Structure;

impl Structure {
    /// Whether a formula is true under the elements of the environment, which stays as it was. It
    /// looks at no part behind one that decides: of conjuncts, of disjuncts, of elements, and at a
    /// conclusion only where the premise is true. It takes no memory.
    #[cycle(holds)]
    pub fn holds(&self, signature: &[FofSymbol], formula: &Fof, env: &mut FofEnv) -> bool
        requires ready { IsReady signature.now self.now env.old.items }
        requires sound { IsTrue (is_formula signature.now formula.now (length env.old.items)) }
        requires room { length env.old.items + depth formula.now ≤ env.old.room }
        ensures exact { result ≡ true_in self.now env.old.items formula.now }
        ensures kept { env.new ≡ env.old }
    {
        match formula {
            Fof::True => true,
            Fof::False => false,
            Fof::Atom(p, terms) => self.holds_at(signature, *p, terms.as_slice(), env),
            Fof::Equal(left, right) => {
                let left = self.value(signature, left, env);
                let right = self.value(signature, right, env);
                left == right
            }
            Fof::Not(a) => !self.holds(signature, a.get(), env),
            Fof::And(parts) => self.all_hold(signature, parts.as_slice(), env),
            Fof::Or(parts) => self.some_holds(signature, parts.as_slice(), env),
            Fof::Implies(a, b) => {
                !self.holds(signature, a.get(), env) || self.holds(signature, b.get(), env)
            }
            Fof::ForAll(inner) => {
                let (more, body) = inner.get().below_universals();
                self.is_each(signature, body, 1 + more as usize, true, env)
            }
            Fof::Exists(inner) => {
                let (more, body) = inner.get().below_existentials();
                !self.is_each(signature, body, 1 + more as usize, false, env)
            }
        }
    }

    // whether a predicate holds of terms
    fn holds_at(&self, signature: &[FofSymbol], p: u32, terms: &[FofTerm], env: &FofEnv) -> bool
        requires ready { IsReady signature.now self.now env.now.items }
        requires symbol { IsTrue (is_symbol (slice_get signature.now p) true (length terms.now)) }
        requires sound { IsTrue (are_terms signature.now terms.now (length env.now.items)) }
        ensures { result ≡ eqb ((reading self.now).symbol_at p (map (value_in self.now env.now.items) terms.now)) 1 }
    {
        let table = self.table(p);
        let at = self.place_in(table, signature, terms, env);
        table[at] == 1
    }

    // whether each part holds
    #[cycle(holds)]
    fn all_hold(&self, signature: &[FofSymbol], parts: &[Fof], env: &mut FofEnv) -> bool
        requires ready { IsReady signature.now self.now env.old.items }
        requires sound { IsTrue (are_formulas signature.now parts.now (length env.old.items)) }
        requires room { length env.old.items + greatest (map depth parts.now) ≤ env.old.room }
        ensures exact { result ≡ all_true self.now env.old.items parts.now }
        ensures kept { env.new ≡ env.old }
    {
        for part in parts {
            if !self.holds(signature, part, env) {
                return false;
            }
        }
        true
    }

    // whether some part holds
    #[cycle(holds)]
    fn some_holds(&self, signature: &[FofSymbol], parts: &[Fof], env: &mut FofEnv) -> bool
        requires ready { IsReady signature.now self.now env.old.items }
        requires sound { IsTrue (are_formulas signature.now parts.now (length env.old.items)) }
        requires room { length env.old.items + greatest (map depth parts.now) ≤ env.old.room }
        ensures exact { result ≡ some_true self.now env.old.items parts.now }
        ensures kept { env.new ≡ env.old }
    {
        for part in parts {
            if self.holds(signature, part, env) {
                return true;
            }
        }
        false
    }

    // whether a formula has a truth value for each tuple of so many elements more
    #[cycle(holds)]
    fn is_each(
        &self,
        signature: &[FofSymbol],
        body: &Fof,
        count: usize,
        value: bool,
        env: &mut FofEnv,
    ) -> bool
        requires ready { IsReady signature.now self.now env.old.items }
        requires sound { IsTrue (is_formula signature.now body.now (length env.old.items + count)) }
        requires room { length env.old.items + count + depth body.now ≤ env.old.room }
        ensures exact { IsTrue result ↔ IsEach self.now env.old.items body.now count value }
        ensures kept { env.new ≡ env.old }
    {
        env.bind_zeros(count);
        while self.holds(signature, body, env) == value {
            if !env.next_tuple(count, self.size) {
                return true;
            }
        }
        env.unbind_last(count);
        false
    }
}
