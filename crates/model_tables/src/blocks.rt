//! The entries of a symbol's table against their bounds, one block after another.
#![tactic(auto)]

ghost use Rattle.std.specs.Prelude.{◌≡◌, ◌<◌, ◌^◌, length, slice_index};
ghost use Rattle.tf_core.specs.Typing.{IsSymbol};
ghost use Rattle.tf_models.specs.Reading.{tables};
ghost use Rattle.tf_models.specs.Fit.{ConstructorsFit};
ghost use Rattle.model_tables.specs.Faults as faults;
ghost use Rattle.model_tables.specs.Typed.{symbol_entries, symbol_bounds};

use crate::checks::first_over;
use tf_core::{Signature, Symbol};
use tf_models::TypedStructure;

/// The first entry that is out of range, of as many entries as the symbol's table has. Each block
/// has an entry, so that there are no more turns than entries.
pub fn first_out_of_range(
    structure: &TypedStructure,
    signature: &Signature,
    symbol: &Symbol,
    entries: &[u32],
) -> Option<u32>
    requires typed { IsSymbol signature.now symbol.now }
    requires constructors { ConstructorsFit signature.now (tables structure.now) }
    requires few { length structure.now.sizes < 2 ^ 32 }
    requires long { length entries.now ≡ symbol_entries (tables structure.now) symbol.now }
    ensures { result ≡ faults.first_over (λ i. slice_index (symbol_bounds (tables structure.now) symbol.now) i) 0 entries.now }
{
    let mut start = 0usize;
    let mut number = 0u64;
    'walk: while start < entries.len() {
        let end = start + structure.block_length(signature, symbol, number) as usize;
        let bound = structure.block_bound(signature, symbol, number);
        let over = first_over(&entries[start..end], bound as u64);
        if over.is_some() {
            return over;
        }
        start = end;
        number += 1;
    }
    None
}
