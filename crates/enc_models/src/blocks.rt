ghost use Rattle.std.specs.Prelude.{◌≡◌, map, option_map, slice_get, Some, IfOk};
ghost use Rattle.enc_base.specs.Tables.{sum_below};
ghost use Rattle.tf_models.specs.Reading.{tables};
ghost use Rattle.tf_models.specs.Fit.{length_at, parameters_at};
ghost use Rattle.tf_models.specs.Evaluation.{member_in, IsBlock, IsReady};
ghost use Rattle.enc_models.specs.Calls.Blocks.{IsKept, AreBlocks, AreBlocksAt, AreBlocksOf, IsMarkIn, AreMarksIn};

use enc_base::{List, NoMemory};
use enc_marks::Mark;
use std::alloc::Global;
use tf_core::{Signature, Symbol};
use tf_models::{Members, TypedStructure};

/// A block of a symbol's table.
#[derive(Drop)]
pub(crate) struct Block {
    /// The place of its first entry.
    pub start: usize,
    /// The members that the types of the symbol's arguments are.
    pub arguments: List<u32>,
    /// The member that the type of its values is.
    pub value: Option<u32>,
}

/// The blocks of the table of each symbol that a mark stands for. Any other mark has an empty list.
///
/// A block is kept with a number for each argument. That is less than the entries that the lowered
/// table has for it: there are at least two numbers for each argument. So it is at a cover too,
/// where a member is told by its own number and by the stamps of its elements. A collapsed domain
/// may have one number alone; then there is one block, and the symbol itself is as long.
pub(crate) fn blocks_of_marks(
    alloc: Global,
    signature: &Signature,
    model: &TypedStructure,
    marks: &[Mark],
) -> Result<List<List<Block>>, NoMemory>
    requires ready { IsReady signature.now model.now }
    requires marks { AreMarksIn signature.now marks.now }
    ensures { IfOk result (λ blocks. AreBlocksOf signature.now model.now marks.now blocks) }
{
    let mut blocks = List::new(alloc);
    for mark in marks {
        blocks.push(blocks_of_mark(alloc, signature, model, mark)?)?;
    }
    Ok(blocks)
}

// those of one mark
fn blocks_of_mark(
    alloc: Global,
    signature: &Signature,
    model: &TypedStructure,
    mark: &Mark,
) -> Result<List<Block>, NoMemory>
    requires ready { IsReady signature.now model.now }
    requires mark { IsMarkIn signature.now mark.now }
    ensures { IfOk result (λ blocks. AreBlocksAt signature.now model.now mark.now blocks) }
{
    match mark {
        Mark::Symbol(f) => {
            let symbol = &signature.symbols.as_slice()[*f as usize];
            blocks_of_symbol(alloc, signature, model, *f, symbol)
        }
        _ => Ok(List::new(alloc)),
    }
}

// those of a symbol's table
fn blocks_of_symbol(
    alloc: Global,
    signature: &Signature,
    model: &TypedStructure,
    f: u32,
    symbol: &Symbol,
) -> Result<List<Block>, NoMemory>
    requires ready { IsReady signature.now model.now }
    requires at { slice_get signature.now.symbols f ≡ Some symbol.now }
    ensures { IfOk result (λ blocks. AreBlocks model.now symbol.now blocks) }
{
    let table = model.symbol_table(f);
    let mut blocks = List::new(alloc);
    let mut start = 0usize;
    while start < table.len() {
        let number = blocks.as_slice().len() as u64;
        blocks.push(block_of(alloc, signature, model, symbol, number, start)?)?;
        start += model.block_length(signature, symbol, number) as usize;
    }
    Ok(blocks)
}

// the block of this number, which begins here
fn block_of(
    alloc: Global,
    signature: &Signature,
    model: &TypedStructure,
    symbol: &Symbol,
    number: u64,
    start: usize,
) -> Result<Block, NoMemory>
    requires block { IsBlock signature.now model.now symbol.now number }
    requires start { start ≡ sum_below number (length_at (tables model.now) symbol.now) }
    ensures { IfOk result (IsKept model.now symbol.now number) }
{
    let arguments = members_of_arguments(alloc, signature, model, symbol, number)?;
    Ok(Block {
        start,
        arguments,
        value: member_of_value(signature, model, symbol, number),
    })
}

// the members that the types of a symbol's arguments are in a block
fn members_of_arguments(
    alloc: Global,
    signature: &Signature,
    model: &TypedStructure,
    symbol: &Symbol,
    number: u64,
) -> Result<List<u32>, NoMemory>
    requires block { IsBlock signature.now model.now symbol.now number }
    ensures { IfOk result (λ members. members
        ≡ map (member_in model.now (parameters_at (tables model.now) symbol.now number))
        symbol.now.arguments) }
{
    let count = model.sizes.as_slice().len() as u32;
    let parameters = Members::Numbered(number, count, symbol.parameters);
    let mut members = List::new(alloc);
    for ty in symbol.arguments.as_slice() {
        members.push(model.member_of(signature, ty, parameters))?;
    }
    Ok(members)
}

// the member that the type of a symbol's values is in a block
fn member_of_value(
    signature: &Signature,
    model: &TypedStructure,
    symbol: &Symbol,
    number: u64,
) -> Option<u32>
    requires block { IsBlock signature.now model.now symbol.now number }
    ensures { result ≡ option_map (member_in model.now
        (parameters_at (tables model.now) symbol.now number)) symbol.now.result }
{
    let count = model.sizes.as_slice().len() as u32;
    let parameters = Members::Numbered(number, count, symbol.parameters);
    match &symbol.result {
        Some(ty) => Some(model.member_of(signature, ty, parameters)),
        None => None,
    }
}
