//! The blocks of symbol instances in the tables of a structure.

ghost use Rattle.std.specs.Prelude.{◌≡◌, ◌≤◌, ◌+◌, length, map, take, drop, slice_get, Some, IfOk};
ghost use Rattle.enc_base.specs.Counts.{in_64_bits};
ghost use Rattle.tf_models.specs.Reading.{tables};
ghost use Rattle.tf_models.specs.Evaluation.{IsReady};
ghost use Rattle.enc_mono.specs.Origins.{IsOriginOf};
ghost use Rattle.enc_mono.specs.Restricted.{origin_block};
ghost use Rattle.enc_mono.specs.Blocks.{IsNumberOf, AreStarts, AreAllStarts};

use crate::instances::Origin;
use enc_base::{List, NoMemory};
use std::alloc::Global;
use structure_tables::count_tuples;
use tf_core::{Signature, Symbol};
use tf_models::{Members, TypedStructure};

// the number of the tuple of members that the types of a symbol instance are
fn number_of_origin(signature: &Signature, origin: &Origin, model: &TypedStructure) -> usize
    requires ready { IsReady signature.now model.now }
    requires origin { IsOriginOf signature.now 0 origin.now }
    ensures { IsNumberOf (tables model.now) origin.now result }
{
    let table = model.symbol_table(origin.symbol);
    model.place_of_types(
        signature,
        origin.types.as_slice(),
        Members::Listed(&[]),
        table,
    )
}

/// How many entries the block of a symbol instance has, or 2^64 - 1 where it has more.
pub(crate) fn length_of_origin(
    signature: &Signature,
    origin: &Origin,
    model: &TypedStructure,
) -> u64
    requires ready { IsReady signature.now model.now }
    requires origin { IsOriginOf signature.now 0 origin.now }
    ensures { result
        ≡ in_64_bits (length (origin_block signature.now (tables model.now) origin.now)) }
{
    let number = number_of_origin(signature, origin, model);
    let symbol = &signature.symbols.as_slice()[origin.symbol as usize];
    model.block_length(signature, symbol, number as u64)
}

/// Where the blocks of each symbol begin.
pub(crate) fn starts_of_symbols(
    alloc: Global,
    signature: &Signature,
    model: &TypedStructure,
) -> Result<List<List<usize>>, NoMemory>
    requires ready { IsReady signature.now model.now }
    ensures { IfOk result (AreAllStarts (tables model.now) signature.now.symbols) }
{
    let mut starts = List::new(alloc);
    for (f, symbol) in signature.symbols.as_slice().iter().enumerate() {
        let table = model.symbols.as_slice()[f].as_slice();
        starts.push(starts_of_blocks(alloc, signature, f, symbol, model, table)?)?;
    }
    Ok(starts)
}

// where the blocks of a symbol begin
fn starts_of_blocks(
    alloc: Global,
    signature: &Signature,
    f: usize,
    symbol: &Symbol,
    model: &TypedStructure,
    table: &[u32],
) -> Result<List<usize>, NoMemory>
    requires ready { IsReady signature.now model.now }
    requires at { slice_get signature.now.symbols f ≡ Some symbol.now }
    requires table { slice_get model.now.symbols f ≡ Some table.now }
    ensures { IfOk result (AreStarts (tables model.now) symbol.now) }
{
    let count = count_tuples(model.sizes.as_slice().len() as u64, symbol.parameters);
    let mut starts = List::new(alloc);
    let mut start = 0usize;
    for number in 0..count {
        starts.push(start)?;
        start += model.block_length(signature, symbol, number) as usize;
    }
    Ok(starts)
}

/// The block of a symbol instance.
pub(crate) fn block_of_origin<'a>(
    signature: &Signature,
    origin: &Origin,
    starts: &[List<usize>],
    model: &'a TypedStructure,
) -> &'a [u32]
    requires ready { IsReady signature.now model.now }
    requires origin { IsOriginOf signature.now 0 origin.now }
    requires starts { AreAllStarts (tables model.now) signature.now.symbols starts.now }
    ensures { result.now ≡ origin_block signature.now (tables model.now) origin.now }
{
    let number = number_of_origin(signature, origin, model);
    let symbol = &signature.symbols.as_slice()[origin.symbol as usize];
    let start = starts[origin.symbol as usize].as_slice()[number];
    let length = model.block_length(signature, symbol, number as u64) as usize;
    part_of(model.symbol_table(origin.symbol), start, length)
}

// so many entries from a place on
fn part_of(entries: &[u32], start: usize, count: usize) -> &[u32]
    requires { start + count ≤ length entries.now }
    ensures { result.now ≡ take count (drop start entries.now) }
{
    &entries[start..start + count]
}
