//! Numbers of types: those of the symbols, and of what their arguments are asked to be.

ghost use Rattle.std.specs.Prelude.{◌≡◌, ◌<◌, ◌++◌, [], ◌∷◌, length, map, option_map, IfOk, OnOk};
ghost use Rattle.tf_core.specs.Types.{instantiate};
ghost use Rattle.tf_types.specs.Instances.{arguments_of};
ghost use Rattle.tf_types.specs.Numbers.{AreNumbers, type_at};
ghost use Rattle.tf_check.specs.Bound.{Keeps, IsNumberIfAny, numbers_in, symbol_at, symbol_types, types_of_symbols};

use crate::scope::{Scope, SymbolNumbers};
use crate::table::{Profile, Table};
use enc_base::{List, NoMemory};
use std::alloc::Global;
use tf_core::Ty;
use tf_types::{TypeId, TypeNode};

/// No names, and the symbols of the table.
pub(crate) fn scope_over<'a>(alloc: Global, table: &Table) -> Result<Scope<'a>, NoMemory>
    ensures names { IfOk result (λ scope. scope.names ≡ []) }
    ensures symbols { IfOk result (λ scope. scope.symbols ≡ types_of_symbols table.now) }
{
    let mut scope = Scope::new(alloc);
    for place in 0..table.symbol_count() {
        add_symbol(alloc, &mut scope, table.profile(place))?;
    }
    Ok(scope)
}

/// Adds a symbol of this type behind the others.
fn add_symbol(alloc: Global, scope: &mut Scope, profile: &Profile) -> Result<(), NoMemory>
    ensures names { OnOk result (scope.new.names ≡ scope.old.names) }
    ensures symbols { OnOk result (scope.new.symbols ≡ scope.old.symbols
        ++ symbol_types profile.now.arguments profile.now.result ∷ []) }
{
    let listed = numbers_of(alloc, scope, profile.arguments.as_slice())?;
    let arguments = scope.number_of_list(listed.as_slice())?;
    let result = number_if_any(scope, &profile.result)?;
    scope.push_symbol(SymbolNumbers { arguments, result })
}

/// The number of the type, if there is one.
fn number_if_any(scope: &mut Scope, ty: &Option<Ty>) -> Result<Option<TypeId>, NoMemory>
    ensures exact { IfOk result (λ id. option_map (type_at scope.new.types) id ≡ ty.now) }
    ensures number { IfOk result (IsNumberIfAny scope.new.types) }
    ensures kept { OnOk result (Keeps scope.old scope.new) }
{
    match ty {
        None => Ok(None),
        Some(ty) => Ok(Some(scope.number_of(ty)?)),
    }
}

/// The numbers of types.
pub(crate) fn numbers_of(
    alloc: Global,
    scope: &mut Scope,
    types: &[Ty],
) -> Result<List<TypeId>, NoMemory>
    ensures exact { IfOk result (λ ids. map (type_at scope.new.types) ids ≡ types.now) }
    ensures numbers { IfOk result (AreNumbers scope.new.types) }
    ensures kept { OnOk result (Keeps scope.old scope.new) }
{
    let mut numbers = List::new(alloc);
    for ty in types {
        numbers.push(scope.number_of(ty)?)?;
    }
    Ok(numbers)
}

/// The numbers of the types that the symbol at the place asks of its arguments, seen at the types
/// for its parameters.
pub(crate) fn arguments_at(
    alloc: Global,
    scope: &mut Scope,
    place: usize,
    types: &[TypeId],
) -> Result<List<TypeId>, NoMemory>
    requires within { place < length scope.old.symbols }
    requires numbers { AreNumbers scope.old.types types.now }
    ensures exact { IfOk result (λ ids. map (type_at scope.new.types) ids
        ≡ arguments_of (instantiate (map (type_at scope.old.types) types.now)
        (symbol_at scope.old place).arguments)) }
    ensures numbers { IfOk result (AreNumbers scope.new.types) }
    ensures kept { OnOk result (Keeps scope.old scope.new) }
{
    let declared = scope.symbol(place).arguments;
    let instance = scope.instance(declared, types)?;
    let node = scope.node_at(instance)?;
    Ok(node_arguments(alloc, node))
}

/// The numbers of the arguments of a type. A variable has none.
fn node_arguments(alloc: Global, node: TypeNode) -> List<TypeId>
    ensures { result ≡ numbers_in node }
{
    match node {
        TypeNode::Var(_) => List::new(alloc),
        TypeNode::Apply(_, numbers) => numbers,
    }
}
