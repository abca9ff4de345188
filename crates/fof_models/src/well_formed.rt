ghost use Rattle.std.specs.Prelude.{◌≡◌, ◌<◌, ◌↔◌, ℕ, IsTrue, length, replicate, slice_index};
ghost use Rattle.enc_base.specs.Tables.{tuple_count};
ghost use Rattle.fof_models.specs.Structures.{IsWellFormed, IsTable};

use crate::problem::FofSymbol;
use crate::structure::Structure;

impl Structure {
    /// Whether the structure fits a signature: its domain isn't empty, each symbol has a table with
    /// one entry for each tuple of elements, and each entry is in its range. It takes no memory.
    pub fn well_formed(&self, signature: &[FofSymbol]) -> bool
        ensures exact { IsTrue result ↔ IsWellFormed signature.now self.now }
    {
        let tables = self.tables.as_slice();
        if self.size == 0 || tables.len() != signature.len() {
            return false;
        }
        for (i, symbol) in signature.iter().enumerate() {
            if !is_table(symbol, self.size, tables[i].as_slice()) {
                return false;
            }
        }
        true
    }
}

// whether a table is one of a symbol's
fn is_table(symbol: &FofSymbol, size: u32, table: &[u32]) -> bool
    requires { 0 < size }
    ensures { IsTrue result ↔ IsTable symbol.now size table.now }
{
    let bound = if symbol.predicate { 2 } else { size };
    is_long(table, size, symbol.arity) && are_below(table, bound)
}

// whether each entry is below a bound
fn are_below(table: &[u32], bound: u32) -> bool
    ensures { IsTrue result ↔ ((i : ℕ) → i < length table.now → slice_index table.now i < bound) }
{
    for entry in table {
        if *entry >= bound {
            return false;
        }
    }
    true
}

// whether a table has an entry for each tuple of so many elements
fn is_long(table: &[u32], size: u32, arity: u32) -> bool
    requires { 0 < size }
    ensures { IsTrue result ↔ (length table.now ≡ tuple_count (replicate arity size)) }
{
    if size == 1 {
        return table.len() == 1;
    }
    let mut count = 1u128;
    for _ in 0..arity {
        count *= size as u128;
        if count > table.len() as u128 {
            return false;
        }
    }
    count == table.len() as u128
}
