ghost use Rattle.std.specs.Prelude.{ℕ, ◌≡◌, ◌<◌, ◌≤◌, ◌+◌, ◌^◌, ◌↔◌, IsTrue, MatchOption, length, replicate, drop, slice_index};
ghost use Rattle.enc_base.specs.Tables.{tuple_count, sum_below};
ghost use Rattle.tf_core.specs.Typing.{IsSymbol, IsSignature};
ghost use Rattle.tf_core.specs.TypedTables.{IsWellFormed};
ghost use Rattle.tf_models.specs.Reading.{tables};
ghost use Rattle.tf_models.specs.Fit.{IsInhabited, IsTable, ConstructorsFit, IsSymbolTable, TablesFit, block_count, length_at, bound_at, parameters_at};
ghost use Rattle.tf_models.specs.Evaluation.{IsBlock, IsBlockOf, HasEvenBlocks};

use crate::members::Members;
use crate::occurring::{are_closed, is_closed};
use crate::structure::TypedStructure;
use tf_core::{Signature, Symbol};

impl TypedStructure {
    /// Whether the tables fit a signature: there are members, each with an element, and there is a
    /// table of the right length for each constructor and each symbol, with each entry in its range.
    /// It takes no memory.
    pub fn well_formed(&self, signature: &Signature) -> bool
        requires few { length self.now.sizes < 2 ^ 32 }
        requires typed { IsSignature signature.now }
        ensures exact { IsTrue result ↔ IsWellFormed signature.now (tables self.now) }
    {
        self.constructors_fit(signature) && self.symbols_fit(signature)
    }

    // whether there are members, each with an element, and a table of members for each constructor
    fn constructors_fit(&self, signature: &Signature) -> bool
        requires few { length self.now.sizes < 2 ^ 32 }
        ensures { IsTrue result ↔ ConstructorsFit signature.now (tables self.now) }
    {
        let constructors = signature.constructors.as_slice();
        let tables = self.constructors.as_slice();
        if !is_inhabited(self.sizes.as_slice()) || tables.len() != constructors.len() {
            return false;
        }
        let count = self.sizes.as_slice().len() as u32;
        for (i, constructor) in constructors.iter().enumerate() {
            if !is_table(count, constructor.arity, tables[i].as_slice()) {
                return false;
            }
        }
        true
    }

    // whether there is a table for each symbol
    fn symbols_fit(&self, signature: &Signature) -> bool
        requires few { length self.now.sizes < 2 ^ 32 }
        requires typed { IsSignature signature.now }
        requires constructors { ConstructorsFit signature.now (tables self.now) }
        ensures { IsTrue result ↔ TablesFit signature.now (tables self.now) }
    {
        let symbols = signature.symbols.as_slice();
        let tables = self.symbols.as_slice();
        if tables.len() != symbols.len() {
            return false;
        }
        for (i, symbol) in symbols.iter().enumerate() {
            if !self.is_symbol_table(signature, symbol, tables[i].as_slice()) {
                return false;
            }
        }
        true
    }

    // whether a table is one of a symbol's; blocks that are alike are looked at together
    fn is_symbol_table(&self, signature: &Signature, symbol: &Symbol, table: &[u32]) -> bool
        requires few { length self.now.sizes < 2 ^ 32 }
        requires typed { IsSymbol signature.now symbol.now }
        requires constructors { ConstructorsFit signature.now (tables self.now) }
        ensures { IsTrue result ↔ IsSymbolTable (tables self.now) symbol.now table.now }
    {
        let count = self.sizes.as_slice().len() as u32;
        let Some(blocks) = count_tuples(count, symbol.parameters, table.len()) else {
            return false;
        };
        if has_even_blocks(symbol) {
            return self.is_even_table(signature, symbol, table, blocks);
        }
        let mut start = 0usize;
        for number in 0..blocks {
            match self.block_of(signature, symbol, number as u64, &table[start..]) {
                Some(length) => start += length,
                None => return false,
            }
        }
        start == table.len()
    }

    // whether a table is one of a symbol's whose blocks are equally long and have one bound
    fn is_even_table(
        &self,
        signature: &Signature,
        symbol: &Symbol,
        table: &[u32],
        blocks: usize,
    ) -> bool
        requires few { length self.now.sizes < 2 ^ 32 }
        requires typed { IsSymbol signature.now symbol.now }
        requires constructors { ConstructorsFit signature.now (tables self.now) }
        requires even { HasEvenBlocks symbol.now }
        requires blocks { blocks ≡ block_count (tables self.now) symbol.now }
        ensures exact { IsTrue result ↔ IsSymbolTable (tables self.now) symbol.now table.now }
    {
        let length = self.block_length(signature, symbol, 0);
        if length.saturating_mul(blocks as u64) != table.len() as u64 {
            return false;
        }
        are_below(table, self.block_bound(signature, symbol, 0))
    }

    // the length of a block of a symbol's table, if some entries begin with such a block
    fn block_of(
        &self,
        signature: &Signature,
        symbol: &Symbol,
        number: u64,
        entries: &[u32],
    ) -> Option<usize>
        requires block { IsBlock signature.now self.now symbol.now number }
        ensures { MatchOption result (IsBlockOf self.now symbol.now number entries.now → ⊥) (λ length. (length ≡ length_at (tables self.now) symbol.now number) × IsBlockOf self.now symbol.now number entries.now) }
    {
        let length = self.block_length(signature, symbol, number);
        if length > entries.len() as u64 {
            return None;
        }
        let length = length as usize;
        if are_below(
            &entries[..length],
            self.block_bound(signature, symbol, number),
        ) {
            Some(length)
        } else {
            None
        }
    }

    /// The bound of the entries of a block: the size of the member that the result type is, or 2 for
    /// a predicate.
    pub fn block_bound(&self, signature: &Signature, symbol: &Symbol, number: u64) -> u32
        requires block { IsBlock signature.now self.now symbol.now number }
        ensures { result ≡ bound_at (tables self.now) symbol.now.result (parameters_at (tables self.now) symbol.now number) }
    {
        let count = self.sizes.as_slice().len() as u32;
        match &symbol.result {
            None => 2,
            Some(ty) => {
                self.size_of(
                    signature,
                    ty,
                    Members::Numbered(number, count, symbol.parameters),
                )
            }
        }
    }
}

// whether no type of a symbol's has a variable, so that all its blocks are alike
fn has_even_blocks(symbol: &Symbol) -> bool
    ensures exact { IsTrue result → HasEvenBlocks symbol.now }
{
    match &symbol.result {
        None => are_closed(symbol.arguments.as_slice()),
        Some(ty) => is_closed(ty) && are_closed(symbol.arguments.as_slice()),
    }
}

// whether there are sizes, and none is 0
fn is_inhabited(sizes: &[u32]) -> bool
    ensures { IsTrue result ↔ IsInhabited sizes.now }
{
    for size in sizes {
        if *size == 0 {
            return false;
        }
    }
    !sizes.is_empty()
}

// whether a table has an entry for each tuple of so many numbers, each below the bound as well
fn is_table(bound: u32, arity: u32, table: &[u32]) -> bool
    requires { 0 < bound }
    ensures { IsTrue result ↔ IsTable bound arity table.now }
{
    count_tuples(bound, arity, table.len()) == Some(table.len()) && are_below(table, bound)
}

// whether each entry is below a bound
fn are_below(table: &[u32], bound: u32) -> bool
    ensures { IsTrue result ↔ ((i : ℕ) → i < length table.now → slice_index table.now i < bound) }
{
    for entry in table {
        if *entry >= bound {
            return false;
        }
    }
    true
}

// how many tuples of so many numbers below a bound there are, if they are no more than `most`
fn count_tuples(bound: u32, count: u32, most: usize) -> Option<usize>
    requires { 0 < bound }
    ensures { MatchOption result (most < tuple_count (replicate count bound)) (λ tuples. tuples ≡ tuple_count (replicate count bound)) }
{
    if bound == 1 {
        return if most == 0 { None } else { Some(1) };
    }
    let mut tuples = 1u128;
    for _ in 0..count {
        tuples *= bound as u128;
        if tuples > most as u128 {
            return None;
        }
    }
    if tuples > most as u128 {
        return None;
    }
    Some(tuples as usize)
}
