ghost use Rattle.std.specs.Prelude.{◌≡◌, ◌<◌, ◌≤◌, ◌+◌, ◌++◌, ◌^◌, ℕ, cond, eqb, map, length, min, slice_index, IfOk, OnOk};
ghost use Rattle.structure_tables.specs.ParameterSets.{uses_of};
ghost use Rattle.std.specs.List.{All, flat_map};
ghost use Rattle.structure_tables.specs.ParameterGroups.{variables, group_of, group_of_type, AreParameters, AreJoined, AreGroups, AreUses};

use crate::tuples::repeated;
use enc_base::{List, NoMemory};
use std::alloc::Global;
use tf_core::{Symbol, Ty};

/// Groups of a symbol's parameters and of its argument types, by their numbers, and how often each
/// parameter occurs, more often than twice being as twice.
#[derive(Drop)]
pub(crate) struct Groups {
    pub parameters: List<u32>,
    pub arguments: List<u32>,
    pub uses: List<u32>,
}

/// Groups of which the parameters that stand in one argument type are together, and as few others
/// as can be.
pub(crate) fn groups_of(alloc: Global, symbol: &Symbol) -> Result<Groups, NoMemory>
    requires { All (λ ty. AreParameters symbol.now.parameters (variables ty)) symbol.now.arguments }
    ensures groups { IfOk result (λ groups. AreGroups symbol.now groups.parameters groups.arguments) }
    ensures uses { IfOk result (λ groups. AreUses symbol.now groups.uses) }
{
    let parameters = groups_of_parameters(alloc, symbol)?;
    let types = symbol.arguments.as_slice();
    let arguments = groups_of_types(alloc, types, parameters.as_slice())?;
    let uses = uses_of_parameters(alloc, symbol)?;
    Ok(Groups {
        parameters,
        arguments,
        uses,
    })
}

// a group for each parameter
fn groups_of_parameters(alloc: Global, symbol: &Symbol) -> Result<List<u32>, NoMemory>
    requires { All (λ ty. AreParameters symbol.now.parameters (variables ty)) symbol.now.arguments }
    ensures groups { IfOk result (λ groups. AreGroups symbol.now groups (map (group_of_type groups) symbol.now.arguments)) }
    ensures few { IfOk result (λ groups. length groups < 2 ^ 32) }
{
    let mut groups = numbers_below(alloc, symbol.parameters)?;
    for ty in symbol.arguments.as_slice() {
        let variables = variables_of(alloc, ty)?;
        join(&mut groups, variables.as_slice());
    }
    Ok(List::from_vec(groups))
}

// the group of each type
fn groups_of_types(alloc: Global, types: &[Ty], groups: &[u32]) -> Result<List<u32>, NoMemory>
    requires few { length groups.now < 2 ^ 32 }
    requires parameters { All (λ ty. AreParameters (length groups.now) (variables ty)) types.now }
    ensures { IfOk result (λ found. found ≡ map (group_of_type groups.now) types.now) }
{
    let mut found = List::new(alloc);
    for ty in types {
        let variables = variables_of(alloc, ty)?;
        found.push(group_of(groups, variables.as_slice()))?;
    }
    Ok(found)
}

// how often each parameter occurs
fn uses_of_parameters(alloc: Global, symbol: &Symbol) -> Result<List<u32>, NoMemory>
    requires { All (λ ty. AreParameters symbol.now.parameters (variables ty)) symbol.now.arguments }
    ensures { IfOk result (λ uses. AreUses symbol.now uses) }
{
    let mut uses = repeated(alloc, 0, symbol.parameters as usize)?;
    for ty in symbol.arguments.as_slice() {
        let variables = variables_of(alloc, ty)?;
        add_uses(&mut uses, variables.as_slice());
    }
    Ok(List::from_vec(uses))
}

// counts variables as used once more
fn add_uses(uses: &mut [u32], variables: &[u32])
    requires few { (i : ℕ) → i < length uses.old → slice_index uses.old i ≤ 2 }
    requires parameters { AreParameters (length uses.old) variables.now }
    ensures { (i : ℕ) → i < length uses.old → slice_index uses.new i ≡ min (slice_index uses.old i + uses_of variables.now i) 2 }
{
    for variable in variables {
        let place = *variable as usize;
        uses[place] = once_more(uses[place]);
    }
}

// a use more, more than two being as two
fn once_more(uses: u32) -> u32
    ensures { result ≡ min (uses + 1) 2 }
{
    if uses == 0 { 1 } else { 2 }
}

// each parameter a group of its own
fn numbers_below(alloc: Global, count: u32) -> Result<Vec<u32>, NoMemory>
    ensures { IfOk result (λ numbers. (length numbers.items ≡ count) × All (λ number. number < count) numbers.items) }
{
    let mut numbers = Vec::new(alloc);
    for number in 0..count {
        numbers.push(number)?;
    }
    Ok(numbers)
}

// puts variables together
fn join(groups: &mut [u32], variables: &[u32])
    requires few { length groups.old < 2 ^ 32 }
    requires below { All (λ group. group < length groups.old) groups.old }
    requires parameters { AreParameters (length groups.old) variables.now }
    ensures { AreJoined groups.old variables.now groups.new }
{
    let group = group_of(groups, variables);
    for variable in variables {
        let other = groups[*variable as usize];
        replace(groups, other, group);
    }
}

// replaces each item that is one number by another
fn replace(items: &mut [u32], from: u32, to: u32)
    ensures { items.new ≡ map (λ item. cond (eqb item from) to item) items.old }
{
    for item in items.iter_mut() {
        *item = if *item == from { to } else { *item };
    }
}

// the group of variables
fn group_of(groups: &[u32], variables: &[u32]) -> u32
    requires few { length groups.now < 2 ^ 32 }
    requires parameters { AreParameters (length groups.now) variables.now }
    ensures { result ≡ group_of groups.now variables.now }
{
    match variables.first() {
        Some(variable) => groups[*variable as usize],
        None => groups.len() as u32,
    }
}

// the variables of a type, from the left
fn variables_of(alloc: Global, ty: &Ty) -> Result<List<u32>, NoMemory>
    ensures { IfOk result (λ found. found ≡ variables ty.now) }
{
    let mut found = List::new(alloc);
    push_variables(ty, &mut found)?;
    Ok(found)
}

// appends the variables of a type
#[cycle(variables)]
fn push_variables(ty: &Ty, found: &mut List<u32>) -> Result<(), NoMemory>
    ensures { OnOk result (found.new ≡ found.old ++ variables ty.now) }
{
    match ty {
        Ty::Var(i) => found.push(*i),
        Ty::Apply(_, types) => push_variables_of_types(types.as_slice(), found),
    }
}

// appends the variables of types
#[cycle(variables)]
fn push_variables_of_types(types: &[Ty], found: &mut List<u32>) -> Result<(), NoMemory>
    ensures { OnOk result (found.new ≡ found.old ++ flat_map variables types.now) }
{
    for ty in types {
        push_variables(ty, found)?;
    }
    Ok(())
}
