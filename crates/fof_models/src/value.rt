ghost use Rattle.std.specs.Prelude.{◌≡◌, ◌<◌, false, map, length, replicate, IsTrue, slice_get};
ghost use Rattle.enc_base.specs.Tables.{tuple_count};
ghost use Rattle.enc_base.specs.Tuples.{IsPlaced};
ghost use Rattle.fof_models.specs.Structures.{table_of, reading};
ghost use Rattle.fof_models.specs.Sound.{is_symbol, is_term, are_terms};
ghost use Rattle.fof_models.specs.Evaluation.{value_in, IsReady};

use crate::env::FofEnv;
use crate::formula::FofTerm;
use crate::problem::FofSymbol;
use crate::structure::Structure;

impl Structure {
    /// The value of a term: an element. It takes no memory.
    #[cycle(value)]
    pub fn value(&self, signature: &[FofSymbol], term: &FofTerm, env: &FofEnv) -> u32
        requires ready { IsReady signature.now self.now env.now.items }
        requires sound { IsTrue (is_term signature.now term.now (length env.now.items)) }
        ensures exact { result ≡ value_in self.now env.now.items term.now }
        ensures within { result < self.now.size }
    {
        match term {
            FofTerm::Var(i) => env.element(*i),
            FofTerm::Apply(f, terms) => self.applied(signature, *f, terms.as_slice(), env),
        }
    }

    // the table of a symbol
    pub(crate) fn table(&self, symbol: u32) -> &[u32]
        requires { symbol < length self.now.tables }
        ensures { result.now ≡ table_of self.now symbol }
    {
        self.tables.as_slice()[symbol as usize].as_slice()
    }

    // the value of a function at terms
    #[cycle(value)]
    fn applied(&self, signature: &[FofSymbol], f: u32, terms: &[FofTerm], env: &FofEnv) -> u32
        requires ready { IsReady signature.now self.now env.now.items }
        requires symbol { IsTrue (is_symbol (slice_get signature.now f) false (length terms.now)) }
        requires sound { IsTrue (are_terms signature.now terms.now (length env.now.items)) }
        ensures exact { result ≡ (reading self.now).symbol_at f (map (value_in self.now env.now.items) terms.now) }
        ensures within { result < self.now.size }
    {
        let table = self.table(f);
        let at = self.place_in(table, signature, terms, env);
        table[at]
    }

    // the place of the tuple of the terms' values in a table
    #[cycle(value)]
    pub(crate) fn place_in(
        &self,
        table: &[u32],
        signature: &[FofSymbol],
        terms: &[FofTerm],
        env: &FofEnv,
    ) -> usize
        requires ready { IsReady signature.now self.now env.now.items }
        requires entries { length table.now ≡ tuple_count (replicate (length terms.now) self.now.size) }
        requires sound { IsTrue (are_terms signature.now terms.now (length env.now.items)) }
        ensures { IsPlaced (replicate (length terms.now) self.now.size)
            (map (value_in self.now env.now.items) terms.now) result }
    {
        let mut at = 0usize;
        for term in terms {
            let value = self.value(signature, term, env);
            at = at * self.size as usize + value as usize;
        }
        at
    }
}
