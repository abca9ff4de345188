ghost use Rattle.std.specs.Prelude.{◌≡◌, ◌++◌, length, replicate, slice_get, Some, OnOk, IfOk};
ghost use Rattle.enc_base.specs.Tables.{EachBelow};
ghost use Rattle.tf_core.specs.Typing.{IsSymbol};
ghost use Rattle.tf_core.specs.Structures.{argument_sizes, member_count, AreArguments};
ghost use Rattle.structure_tables.specs.Sources.{AreArgumentsFor, IsSized};
ghost use Rattle.structure_tables.specs.TypedTabled.{symbol_block, symbol_table};

use crate::tuples::{TupleFunction, append_table, repeated, with_room};
use crate::typed::TypedSource;
use crate::typed_counts::entries_of_symbol;
use crate::types::member_of_type;
use enc_base::{List, NoMemory, next_tuple};
use std::alloc::Global;
use tf_core::Symbol;

/// The table of a symbol: a block for each tuple of members.
pub(crate) fn table_of_symbol<S: TypedSource>(
    alloc: Global,
    source: &S,
    sizes: &[u32],
    f: u32,
    symbol: &Symbol,
) -> Result<List<u32>, NoMemory>
    requires ready { S.is_ready source.now }
    requires sized { IsSized (S.signature source.now) (S.structure source.now) sizes.now }
    requires at { slice_get (S.signature source.now).symbols f ≡ Some symbol.now }
    requires typed { IsSymbol (S.signature source.now) symbol.now }
    ensures { IfOk result (λ entries. entries ≡ symbol_table (S.structure source.now) symbol.now f) }
{
    let bounds = repeated(alloc, sizes.len() as u32, symbol.parameters as usize)?;
    let mut members = repeated(alloc, 0, symbol.parameters as usize)?;
    let length = entries_of_symbol(alloc, source, sizes, symbol)?;
    let mut entries = with_room(alloc, length)?;
    loop {
        append_block(
            alloc,
            source,
            sizes,
            f,
            symbol,
            members.as_slice(),
            &mut entries,
        )?;
        if !next_tuple(&mut members, bounds.as_slice()) {
            return Ok(entries);
        }
    }
}

// appends the block of members
fn append_block<S: TypedSource>(
    alloc: Global,
    source: &S,
    sizes: &[u32],
    f: u32,
    symbol: &Symbol,
    members: &[u32],
    entries: &mut List<u32>,
) -> Result<(), NoMemory>
    requires ready { S.is_ready source.now }
    requires sized { IsSized (S.signature source.now) (S.structure source.now) sizes.now }
    requires at { slice_get (S.signature source.now).symbols f ≡ Some symbol.now }
    requires typed { IsSymbol (S.signature source.now) symbol.now }
    requires members { EachBelow (replicate symbol.now.parameters (member_count (S.structure source.now))) members.now }
    ensures { OnOk result (entries.new ≡ entries.old ++ symbol_block (S.structure source.now) symbol.now f members.now) }
{
    let bounds = sizes_of_arguments(alloc, source, sizes, symbol, members)?;
    let block = BlockOf {
        source,
        symbol: f,
        members,
    };
    append_table(alloc, entries, bounds.as_slice(), &block)
}

/// The sizes of the members that a symbol's argument types are.
pub(crate) fn sizes_of_arguments<S: TypedSource>(
    alloc: Global,
    source: &S,
    sizes: &[u32],
    symbol: &Symbol,
    members: &[u32],
) -> Result<List<u32>, NoMemory>
    requires ready { S.is_ready source.now }
    requires sized { IsSized (S.signature source.now) (S.structure source.now) sizes.now }
    requires typed { IsSymbol (S.signature source.now) symbol.now }
    requires members { EachBelow (replicate symbol.now.parameters (member_count (S.structure source.now))) members.now }
    ensures { IfOk result (λ bounds. bounds ≡ argument_sizes (S.structure source.now) symbol.now members.now) }
{
    let mut bounds = List::new(alloc);
    for ty in symbol.arguments.as_slice() {
        let member = member_of_type(alloc, source, ty, members)?;
        bounds.push(sizes[member as usize])?;
    }
    Ok(bounds)
}

// a block of a symbol
#[derive(Drop)]
struct BlockOf<'a, S> {
    source: &'a S,
    symbol: u32,
    members: &'a [u32],
}

impl<S: TypedSource> TupleFunction for BlockOf<'_, S> {
    ghost is_defined = { λ it values. S.is_ready it.source.now × AreArgumentsFor (S.signature it.source.now) (S.structure it.source.now) it.symbol it.members.now values };

    ghost gives = { λ it. (S.structure it.source.now).symbol_at it.symbol it.members.now };

    fn at(&self, values: &[u32]) -> u32 {
        self.source.symbol_value(self.symbol, self.members, values)
    }
}
