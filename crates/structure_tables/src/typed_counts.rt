ghost use Rattle.std.specs.Prelude.{◌≡◌, ◌+◌, ◌<◌, ◌^◌, length, replicate, slice_index, sum, sum_by, true, IfOk};
ghost use Rattle.std.specs.List.{All};
ghost use Rattle.enc_base.specs.Tables.{EachBelow, tuple_count};
ghost use Rattle.enc_base.specs.Counts.{in_64_bits};
ghost use Rattle.tf_core.specs.Typing.{IsSymbol, IsSignature};
ghost use Rattle.tf_core.specs.Structures.{argument_sizes, member_count};
ghost use Rattle.structure_tables.specs.EntryCounts.{typed_count, symbol_count};
ghost use Rattle.structure_tables.specs.Sources.{IsSized};

use crate::blocks::sizes_of_arguments;
use crate::counts::{count_tuples, multiply};
use crate::group_counts::entries_of_groups;
use crate::tuples::repeated;
use crate::typed::TypedSource;
use enc_base::NoMemory;
use std::alloc::Global;
use tf_core::{Constructor, Signature, Symbol};

/// How many numbers the tables of a structure hold, the sizes of its members counted in, or
/// 2^64 - 1 where there are more. Nothing of their number is made.
///
/// The sizes and the constructors come first, and nothing is counted behind the place where the count
/// is too large. Parameters of a symbol that stand in one argument type are a group, and the entries
/// are a product over groups. For a parameter that occurs once it is found from below how many tuples
/// give each member that a type can be, in a step for each entry of a constructor's table; a step for
/// each tuple of members is taken only for the parameters of a group that occur more than once.
pub fn typed_entries<S: TypedSource>(
    alloc: Global,
    signature: &Signature,
    sizes: &[u32],
    source: &S,
) -> Result<u64, NoMemory>
    requires ready { S.is_ready source.now }
    requires signature { signature.now ≡ S.signature source.now }
    requires typed { IsSignature signature.now }
    requires sized { IsSized signature.now (S.structure source.now) sizes.now }
    ensures exact { IfOk result (λ entries. entries ≡ in_64_bits (typed_count signature.now (S.structure source.now))) }
{
    let members = add_sizes(sizes);
    let constructors = entries_of_constructors(sizes, signature.constructors.as_slice());
    let before = members.saturating_add(constructors);
    add_symbols(alloc, source, sizes, signature.symbols.as_slice(), before)
}

/// The sum of sizes, or 2^64 - 1 where it is more.
pub fn add_sizes(sizes: &[u32]) -> u64
    ensures { result ≡ in_64_bits (sum sizes.now) }
{
    let mut entries = 0u64;
    for size in sizes {
        entries = entries.saturating_add(*size as u64);
    }
    entries
}

/// How many entries the tables of constructors have, or 2^64 - 1 where they have more.
pub fn entries_of_constructors(sizes: &[u32], constructors: &[Constructor]) -> u64
    ensures { result ≡ in_64_bits (sum_by (λ constructor. tuple_count (replicate constructor.arity (length sizes.now))) constructors.now) }
{
    let count = sizes.len() as u64;
    let mut entries = 0u64;
    for constructor in constructors {
        entries = entries.saturating_add(count_tuples(count, constructor.arity));
    }
    entries
}

// adds the entries of the tables of symbols to a count, until it is too large
fn add_symbols<S: TypedSource>(
    alloc: Global,
    source: &S,
    sizes: &[u32],
    symbols: &[Symbol],
    before: u64,
) -> Result<u64, NoMemory>
    requires ready { S.is_ready source.now }
    requires symbols { symbols.now ≡ (S.signature source.now).symbols }
    requires typed { IsSignature (S.signature source.now) }
    requires sized { IsSized (S.signature source.now) (S.structure source.now) sizes.now }
    ensures { IfOk result (λ entries. entries ≡ in_64_bits (before + sum_by (symbol_count (S.structure source.now)) symbols.now)) }
{
    let mut entries = before;
    for symbol in symbols {
        if entries == u64::MAX {
            return Ok(entries);
        }
        let more = entries_of_symbol(alloc, source, sizes, symbol)?;
        entries = entries.saturating_add(more);
    }
    Ok(entries)
}

/// How many entries the table of a symbol has, or 2^64 - 1 where it has more. Nothing of their
/// number is made.
pub fn entries_of_symbol<S: TypedSource>(
    alloc: Global,
    source: &S,
    sizes: &[u32],
    symbol: &Symbol,
) -> Result<u64, NoMemory>
    requires ready { S.is_ready source.now }
    requires sized { IsSized (S.signature source.now) (S.structure source.now) sizes.now }
    requires typed { IsSymbol (S.signature source.now) symbol.now }
    ensures { IfOk result (λ entries. entries ≡ in_64_bits (symbol_count (S.structure source.now) symbol.now)) }
{
    let tuples = count_tuples(sizes.len() as u64, symbol.parameters);
    if tuples == u64::MAX {
        return Ok(tuples);
    }
    if tuples == 1 {
        let members = repeated(alloc, 0, symbol.parameters as usize)?;
        return entries_of_block(alloc, source, sizes, symbol, members.as_slice());
    }
    if are_same(sizes) {
        return entries_of_same_blocks(alloc, source, sizes, symbol, tuples);
    }
    entries_of_groups(alloc, source, sizes, symbol)
}

// whether all sizes are the first one
fn are_same(sizes: &[u32]) -> bool
    ensures { result ≡ true → All (λ size. size ≡ slice_index sizes.now 0) sizes.now }
{
    for size in sizes {
        if *size != sizes[0] {
            return false;
        }
    }
    true
}

// how many entries the table of a symbol has, of so many blocks, where all members have one size
fn entries_of_same_blocks<S: TypedSource>(
    alloc: Global,
    source: &S,
    sizes: &[u32],
    symbol: &Symbol,
    blocks: u64,
) -> Result<u64, NoMemory>
    requires ready { S.is_ready source.now }
    requires sized { IsSized (S.signature source.now) (S.structure source.now) sizes.now }
    requires typed { IsSymbol (S.signature source.now) symbol.now }
    requires same { All (λ size. size ≡ slice_index sizes.now 0) sizes.now }
    requires blocks { blocks ≡ in_64_bits (tuple_count (replicate symbol.now.parameters (length sizes.now))) }
    ensures { IfOk result (λ entries. entries ≡ in_64_bits (symbol_count (S.structure source.now) symbol.now)) }
{
    let members = repeated(alloc, 0, symbol.parameters as usize)?;
    let block = entries_of_block(alloc, source, sizes, symbol, members.as_slice())?;
    Ok(blocks.saturating_mul(block))
}

// how many entries the block of members has
fn entries_of_block<S: TypedSource>(
    alloc: Global,
    source: &S,
    sizes: &[u32],
    symbol: &Symbol,
    members: &[u32],
) -> Result<u64, NoMemory>
    requires ready { S.is_ready source.now }
    requires sized { IsSized (S.signature source.now) (S.structure source.now) sizes.now }
    requires typed { IsSymbol (S.signature source.now) symbol.now }
    requires members { EachBelow (replicate symbol.now.parameters (member_count (S.structure source.now))) members.now }
    ensures { IfOk result (λ entries. entries ≡ in_64_bits (tuple_count (argument_sizes (S.structure source.now) symbol.now members.now))) }
{
    let bounds = sizes_of_arguments(alloc, source, sizes, symbol, members)?;
    Ok(multiply(bounds.as_slice()))
}
