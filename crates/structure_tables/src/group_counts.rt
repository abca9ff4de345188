ghost use Rattle.std.specs.Prelude.{◌≡◌, ◌*◌, cond, eqb, ltb, false, length, replicate, IfOk};
ghost use Rattle.enc_base.specs.Tables.{EachBelow, tuple_count};
ghost use Rattle.enc_base.specs.Counts.{in_64_bits};
ghost use Rattle.tf_core.specs.Typing.{IsSymbol};
ghost use Rattle.tf_core.specs.Structures.{member_count};
ghost use Rattle.structure_tables.specs.EntryCounts.{symbol_count};
ghost use Rattle.structure_tables.specs.ParameterSets.{bounds_of};
ghost use Rattle.structure_tables.specs.ParameterGroups.{sizes_inside, count_inside, kept_inside, is_kept, is_unused, AreGroups, AreUses};
ghost use Rattle.structure_tables.specs.Sources.{IsSized};

use crate::counts::multiply;
use crate::groups::{Groups, groups_of};
use crate::tuples::repeated;
use crate::type_ways::add_sizes_of_type;
use crate::typed::TypedSource;
use enc_base::{List, NoMemory, next_tuple};
use std::alloc::Global;
use tf_core::Symbol;

/// How many entries the table of a symbol has: the product of what its groups of parameters give,
/// times the members for each parameter that doesn't occur.
///
/// The group without parameters comes first. For each other one it takes a step for each tuple of
/// members for those of its parameters that occur more than once, until the product is too large.
pub(crate) fn entries_of_groups<S: TypedSource>(
    alloc: Global,
    source: &S,
    sizes: &[u32],
    symbol: &Symbol,
) -> Result<u64, NoMemory>
    requires ready { S.is_ready source.now }
    requires sized { IsSized (S.signature source.now) (S.structure source.now) sizes.now }
    requires typed { IsSymbol (S.signature source.now) symbol.now }
    ensures { IfOk result (λ entries. entries ≡ in_64_bits (symbol_count (S.structure source.now) symbol.now)) }
{
    let groups = groups_of(alloc, symbol)?;
    let unused = bounds_of_unused(alloc, sizes.len() as u32, groups.uses.as_slice())?;
    let free = multiply(unused.as_slice());
    let constant = symbol.parameters;
    let mut entries = times_group(alloc, source, sizes, symbol, &groups, constant, free)?;
    for group in 0..symbol.parameters {
        if entries == u64::MAX {
            return Ok(entries);
        }
        entries = times_group(alloc, source, sizes, symbol, &groups, group, entries)?;
    }
    Ok(entries)
}

// a factor times what a group gives: the entries of its argument types, for each tuple of members
// for its parameters
fn times_group<S: TypedSource>(
    alloc: Global,
    source: &S,
    sizes: &[u32],
    symbol: &Symbol,
    groups: &Groups,
    group: u32,
    factor: u64,
) -> Result<u64, NoMemory>
    requires ready { S.is_ready source.now }
    requires sized { IsSized (S.signature source.now) (S.structure source.now) sizes.now }
    requires typed { IsSymbol (S.signature source.now) symbol.now }
    requires groups { AreGroups symbol.now groups.now.parameters groups.now.arguments }
    requires uses { AreUses symbol.now groups.now.uses }
    ensures { IfOk result (λ entries. entries ≡ in_64_bits (factor * count_inside (S.structure source.now) (is_kept groups.now.uses) symbol.now groups.now.parameters (λ other. eqb other group))) }
{
    let bounds = bounds_of_group(alloc, sizes.len() as u32, groups, group)?;
    let mut members = repeated(alloc, 0, bounds.as_slice().len())?;
    let mut entries = 0u64;
    loop {
        let now = members.as_slice();
        let block = entries_of_members(alloc, source, sizes, symbol, groups, group, now)?;
        entries = entries.saturating_add(block);
        let product = factor.saturating_mul(entries);
        if product == u64::MAX || !next_tuple(&mut members, bounds.as_slice()) {
            return Ok(product);
        }
    }
}

// how many members each kept parameter of a group has, the others the first alone
fn bounds_of_group(
    alloc: Global,
    members: u32,
    groups: &Groups,
    group: u32,
) -> Result<List<u32>, NoMemory>
    requires { length groups.now.uses ≡ length groups.now.parameters }
    ensures { IfOk result (λ bounds. bounds ≡ bounds_of members (kept_inside (is_kept groups.now.uses) groups.now.parameters (λ other. eqb other group)) (length groups.now.parameters)) }
{
    let uses = groups.uses.as_slice();
    let mut bounds = List::new(alloc);
    for (i, other) in groups.parameters.as_slice().iter().enumerate() {
        bounds.push(bound_of_group(members, uses[i], *other == group))?;
    }
    Ok(bounds)
}

// how many members a parameter with so many uses has, inside a group or outside it
fn bound_of_group(members: u32, uses: u32, is_inside: bool) -> u32
    ensures { result ≡ cond (cond (ltb 1 uses) is_inside false) members 1 }
{
    if uses > 1 {
        return if is_inside { members } else { 1 };
    }
    1
}

// how many members each parameter has that doesn't occur, the others the first alone
fn bounds_of_unused(alloc: Global, members: u32, uses: &[u32]) -> Result<List<u32>, NoMemory>
    ensures { IfOk result (λ bounds. bounds ≡ bounds_of members (is_unused uses.now) (length uses.now)) }
{
    let mut bounds = List::new(alloc);
    for count in uses {
        bounds.push(bound_of_unused(members, *count))?;
    }
    Ok(bounds)
}

// how many members a parameter with so many uses has, where it has none
fn bound_of_unused(members: u32, uses: u32) -> u32
    ensures { result ≡ cond (eqb uses 0) members 1 }
{
    if uses == 0 { members } else { 1 }
}

// the product of the sizes of a group's argument types, under members for the kept parameters
fn entries_of_members<S: TypedSource>(
    alloc: Global,
    source: &S,
    sizes: &[u32],
    symbol: &Symbol,
    groups: &Groups,
    group: u32,
    members: &[u32],
) -> Result<u64, NoMemory>
    requires ready { S.is_ready source.now }
    requires sized { IsSized (S.signature source.now) (S.structure source.now) sizes.now }
    requires typed { IsSymbol (S.signature source.now) symbol.now }
    requires groups { AreGroups symbol.now groups.now.parameters groups.now.arguments }
    requires uses { AreUses symbol.now groups.now.uses }
    requires members { EachBelow (replicate symbol.now.parameters (member_count (S.structure source.now))) members.now }
    ensures { IfOk result (λ entries. entries ≡ in_64_bits (tuple_count (sizes_inside (S.structure source.now) (is_kept groups.now.uses) symbol.now.arguments groups.now.parameters (λ other. eqb other group) members.now))) }
{
    let found = groups.arguments.as_slice();
    let uses = groups.uses.as_slice();
    let mut tuples = 1u64;
    for (i, ty) in symbol.arguments.as_slice().iter().enumerate() {
        if found[i] == group {
            let more = add_sizes_of_type(alloc, source, sizes, uses, members, ty)?;
            tuples = tuples.saturating_mul(more);
        }
    }
    Ok(tuples)
}
