//! The entries of a typed structure, counted by the tables of its constructors.
#![tactic(auto)]

ghost use Rattle.std.specs.Prelude.{◌≡◌, ◌≤◌, ◌<◌, ◌^◌, length, replicate, IfOk};
ghost use Rattle.enc_base.specs.Tables.{EachBelow, tuple_count};
ghost use Rattle.enc_base.specs.Tuples.{IsPlaced};
ghost use Rattle.enc_base.specs.Counts.{in_64_bits};
ghost use Rattle.tf_core.specs.Typing.{IsSignature, IsSymbol};
ghost use Rattle.tf_models.specs.Reading.{tables};
ghost use Rattle.tf_models.specs.Fit.{ConstructorsFit};
ghost use Rattle.model_tables.specs.CountedTables.{without_symbols, AreCounted};
ghost use Rattle.model_tables.specs.Typed as typed;

use enc_base::NoMemory;
use std::alloc::Global;
use structure_tables::{TypedSource, entries_of_symbol, typed_entries};
use tf_core::{Signature, Symbol};
use tf_models::TypedStructure;

/// A structure of which only the sizes and the tables of the constructors are looked at: each
/// symbol gives 0.
#[derive(Drop)]
pub struct CountedTables<'a> {
    pub signature: &'a Signature,
    pub structure: &'a TypedStructure,
}

impl TypedSource for CountedTables<'_> {
    ghost signature = { λ it. it.signature.now };

    ghost structure = { λ it. without_symbols (tables it.structure.now) };

    ghost is_ready = { AreCounted };

    fn constructor_value(&self, constructor: u32, members: &[u32]) -> u32 {
        let table = self.structure.constructors.as_slice()[constructor as usize].as_slice();
        let count = self.structure.sizes.as_slice().len();
        table[place_of(members, count, table)]
    }

    fn symbol_value(&self, _symbol: u32, _members: &[u32], _elements: &[u32]) -> u32 {
        0
    }
}

/// The place of a tuple of so many numbers below a bound, in a table with an entry for each.
fn place_of(members: &[u32], bound: usize, table: &[u32]) -> usize
    requires members { EachBelow (replicate (length members.now) bound) members.now }
    requires entries { tuple_count (replicate (length members.now) bound) ≤ length table.now }
    ensures { IsPlaced (replicate (length members.now) bound) members.now result }
{
    let mut at = 0usize;
    for member in members {
        at = at * bound + *member as usize;
    }
    at
}

impl CountedTables<'_> {
    /// How many entries the structure has, or 2^64 - 1 where it has more.
    pub fn entries(&self, alloc: Global) -> Result<u64, NoMemory>
        requires typed { IsSignature self.now.signature.now }
        requires constructors { ConstructorsFit self.now.signature.now (tables self.now.structure.now) }
        requires few { length self.now.structure.now.sizes < 2 ^ 32 }
        ensures { IfOk result (λ entries. entries
            ≡ in_64_bits (typed.typed_entries self.now.signature.now (tables self.now.structure.now))) }
    {
        let sizes = self.structure.sizes.as_slice();
        typed_entries(alloc, self.signature, sizes, self)
    }

    /// How many entries the table of a symbol has, or 2^64 - 1 where it has more.
    pub fn symbol_entries(&self, alloc: Global, symbol: &Symbol) -> Result<u64, NoMemory>
        requires typed { IsSignature self.now.signature.now }
        requires symbol { IsSymbol self.now.signature.now symbol.now }
        requires constructors { ConstructorsFit self.now.signature.now (tables self.now.structure.now) }
        requires few { length self.now.structure.now.sizes < 2 ^ 32 }
        ensures { IfOk result (λ entries. entries
            ≡ in_64_bits (typed.symbol_entries (tables self.now.structure.now) symbol.now)) }
    {
        let sizes = self.structure.sizes.as_slice();
        entries_of_symbol(alloc, self, sizes, symbol)
    }
}
