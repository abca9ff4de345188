//! The entries of an item of a typed table, checked at its end.
#![tactic(auto)]

ghost use Rattle.std.specs.Prelude.{◌≤◌, ◌<◌, ◌^◌, length, replicate, Some};
ghost use Rattle.enc_base.specs.Tables.{tuple_count};
ghost use Rattle.enc_base.specs.Counts.{most_entries};
ghost use Rattle.tf_core.specs.Typing.{IsSignature, IsSymbol};
ghost use Rattle.tf_models.specs.Reading.{tables};
ghost use Rattle.tf_models.specs.Fit.{ConstructorsFit};
ghost use Rattle.model_tables.specs.declared.form.Kind.TheVariants as kind;
ghost use Rattle.model_tables.specs.Faults.{entry_faults};
ghost use Rattle.model_tables.specs.Typed.{constructor_shape, symbol_shape, symbol_entries};
ghost use Rattle.model_tables.specs.Checks.{Checks};

use crate::blocks::first_out_of_range;
use crate::checks::{check_length, check_range, first_over};
use crate::counted::CountedTables;
use crate::error::TableError;
use std::alloc::Global;
use structure_tables::count_tuples;
use tf_core::{Constructor, Signature, Symbol};
use tf_models::TypedStructure;

/// Checks the entries of a constructor's item.
pub fn check_constructor(
    alloc: Global,
    constructor: &Constructor,
    members: u64,
    entries: &[u32],
) -> Result<(), TableError>
    requires small { tuple_count (replicate constructor.now.arity members) ≤ most_entries }
    ensures { Checks (entry_faults (constructor_shape members (Some constructor.now)) (record {
      kind = kind.Constructor;
      name = constructor.now.name;
      entries = entries.now;
    })) result }
{
    let name = constructor.name.as_slice();
    let expected = count_tuples(members, constructor.arity);
    check_length(alloc, name, expected, entries.len() as u64)?;
    check_range(alloc, name, first_over(entries, members))
}

/// Checks the entries of a symbol's item.
pub fn check_symbol(
    alloc: Global,
    signature: &Signature,
    structure: &TypedStructure,
    symbol: &Symbol,
    entries: &[u32],
) -> Result<(), TableError>
    requires typed { IsSignature signature.now }
    requires symbol { IsSymbol signature.now symbol.now }
    requires constructors { ConstructorsFit signature.now (tables structure.now) }
    requires few { length structure.now.sizes < 2 ^ 32 }
    requires small { symbol_entries (tables structure.now) symbol.now ≤ most_entries }
    ensures { Checks (entry_faults (symbol_shape (tables structure.now) (Some symbol.now)) (record {
      kind = kind.Symbol;
      name = symbol.now.name;
      entries = entries.now;
    })) result }
{
    let name = symbol.name.as_slice();
    let counted = CountedTables {
        signature,
        structure,
    };
    let expected = counted.symbol_entries(alloc, symbol)?;
    check_length(alloc, name, expected, entries.len() as u64)?;
    let over = first_out_of_range(structure, signature, symbol, entries);
    check_range(alloc, name, over)
}
