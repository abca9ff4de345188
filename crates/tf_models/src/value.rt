ghost use Rattle.std.specs.Prelude.{◌≡◌, ◌≤◌, map, length};
ghost use Rattle.enc_base.specs.Tables.{EachBelow, tuple_count};
ghost use Rattle.enc_base.specs.Tuples.{IsPlaced};
ghost use Rattle.tf_models.specs.Reading.{tables};
ghost use Rattle.tf_models.specs.Fit.{bounds_at};
ghost use Rattle.tf_models.specs.Evaluation.{value_in, entry_in, IsReady, IsBlock, IsTerm, AreTerms, IsElement, IsApplied};

use crate::env::Env;
use crate::members::Members;
use crate::structure::TypedStructure;
use tf_core::{Signature, Symbol, Term, Ty};

impl TypedStructure {
    /// The value of a term: an element of its type's member. It takes no memory.
    #[cycle(value)]
    pub fn value(&self, signature: &Signature, term: &Term, env: &Env) -> u32
        requires ready { IsReady signature.now self.now }
        requires term { IsTerm signature.now self.now env.now term.now }
        ensures exact { result ≡ value_in signature.now self.now env.now term.now }
        ensures element { IsElement signature.now self.now env.now term.now result }
    {
        match term {
            Term::Var(i) => env.element(*i),
            Term::Apply(f, types, terms) => {
                self.entry(signature, *f, terms.as_slice(), types.as_slice(), env)
            }
        }
    }

    // what the table of a symbol gives for types and terms
    #[cycle(value)]
    pub(crate) fn entry(
        &self,
        signature: &Signature,
        f: u32,
        terms: &[Term],
        types: &[Ty],
        env: &Env,
    ) -> u32
        requires ready { IsReady signature.now self.now }
        requires applied { IsApplied signature.now self.now env.now f types.now terms.now }
        ensures exact { result ≡ entry_in signature.now self.now env.now f types.now terms.now }
    {
        let symbol = &signature.symbols.as_slice()[f as usize];
        let table = self.symbol_table(f);
        let number = self.place_of_types(signature, types, Members::Listed(env.members()), table);
        let start = self.block_start(signature, symbol, number, table);
        let at = self.place_in_block(signature, terms, symbol, number, env, table);
        table[start + at]
    }

    // the place of the tuple of the terms' values in a block of a symbol's table
    #[cycle(value)]
    fn place_in_block(
        &self,
        signature: &Signature,
        terms: &[Term],
        symbol: &Symbol,
        number: usize,
        env: &Env,
        table: &[u32],
    ) -> usize
        requires ready { IsReady signature.now self.now }
        requires block { IsBlock signature.now self.now symbol.now number }
        requires terms { AreTerms signature.now self.now env.now terms.now }
        requires below { EachBelow (bounds_at (tables self.now) symbol.now number) (map (value_in signature.now self.now env.now) terms.now) }
        requires entries { tuple_count (bounds_at (tables self.now) symbol.now number) ≤ length table.now }
        ensures exact { IsPlaced (bounds_at (tables self.now) symbol.now number) (map (value_in signature.now self.now env.now) terms.now) result }
    {
        let count = self.sizes.as_slice().len() as u32;
        let members = Members::Numbered(number as u64, count, symbol.parameters);
        let types = symbol.arguments.as_slice();
        let mut at = 0usize;
        for (i, term) in terms.iter().enumerate() {
            let size = self.size_of(signature, &types[i], members);
            let value = self.value(signature, term, env);
            at = at * size as usize + value as usize;
        }
        at
    }
}
