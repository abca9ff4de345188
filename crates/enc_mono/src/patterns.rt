//! The patterns of a formula: its symbol instances, each once.

ghost use Rattle.std.specs.Prelude.{◌↔◌, IfOk};
ghost use Rattle.std.specs.List.{Contains};
ghost use Rattle.tf_core.specs.declared.ty.Ty.{Ty};
ghost use Rattle.enc_mono.specs.Calls.Numbered.{ArePatterns};

use crate::listing::list_instances;
use enc_base::{List, NoMemory};
use indexmap::IndexSet;
use std::alloc::Global;
use tf_core::{Nnf, Ty};
use tf_types::{TypeId, TypeTable};

/// The symbol instances of a formula as types, each once.
pub(crate) fn patterns_of(alloc: Global, formula: &Nnf) -> Result<List<Ty>, NoMemory>
    ensures { IfOk result (ArePatterns formula.now) }
{
    let mut listed = List::new(alloc);
    list_instances(alloc, formula, &mut listed)?;
    each_once(alloc, listed.as_slice())
}

// each of the types once
fn each_once(alloc: Global, types: &[Ty]) -> Result<List<Ty>, NoMemory>
    ensures { IfOk result (λ made. (ty : Ty) → Contains types.now ty ↔ Contains made ty) }
{
    let mut table = TypeTable::new(alloc);
    let mut numbers: IndexSet<TypeId> = IndexSet::new(alloc);
    let mut made = List::new(alloc);
    for ty in types {
        let id = table.number_of(ty)?;
        let (_, added) = numbers.insert_full(id)?;
        if added {
            made.push(ty.copy(alloc)?)?;
        }
    }
    Ok(made)
}
