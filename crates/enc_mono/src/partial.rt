//! Partial substitutions, and what they are extended by.

ghost use Rattle.std.specs.Prelude.{◌≡◌, ◌<◌, ◌^◌, IfOk, OnOk, IfSome, IfNone, None, Some, length, slice_get, map};
ghost use Rattle.enc_mono.specs.Calls.Numbered.{keys_in};
ghost use Rattle.enc_mono.specs.Calls.Searched.{IsPut, IsTotal, AreUnder, bound_to, nothing_bound};

use enc_base::{List, NoMemory};
use indexmap::IndexSet;
use std::alloc::Global;
use tf_core::Ty;
use tf_types::TypeId;

/// The partial substitution that binds none of so many type variables.
pub(crate) fn nothing(alloc: Global, variables: usize) -> Result<List<Option<TypeId>>, NoMemory>
    ensures { IfOk result (λ made. made ≡ nothing_bound variables) }
{
    let mut made = List::new(alloc);
    for _ in 0..variables {
        made.push(None)?;
    }
    Ok(made)
}

/// Puts a list into a set, and says whether it wasn't there.
pub(crate) fn put(
    alloc: Global,
    set: &mut IndexSet<Vec<Option<TypeId>>>,
    bound: &[Option<TypeId>],
) -> Result<bool, NoMemory>
    ensures put { IfOk result (IsPut (map (λ key. key.items) set.old.keys)
        (map (λ key. key.items) set.new.keys) bound.now) }
    ensures within { OnOk result (length set.new.keys < 2 ^ 63) }
{
    let key = bound.to_vec(alloc)?;
    let (_, added) = set.insert_full(key)?;
    let _ = set.len();
    Ok(added)
}

/// The first type variable that isn't bound.
pub(crate) fn first_free(bound: &[Option<TypeId>]) -> Option<usize>
    ensures free { IfSome result (λ i. slice_get bound.now i ≡ Some None) }
    ensures total { IfNone result (IsTotal bound.now) }
{
    for (i, entry) in bound.iter().enumerate() {
        match entry {
            Some(_) => (),
            None => return Some(i),
        }
    }
    None
}

/// The numbers to which all type variables are bound.
pub(crate) fn numbers_in(alloc: Global, bound: &[Option<TypeId>]) -> Result<List<TypeId>, NoMemory>
    requires total { IsTotal bound.now }
    ensures { IfOk result (λ ids. bound_to ids ≡ bound.now) }
{
    let mut ids = List::new(alloc);
    for entry in bound {
        if let Some(id) = entry {
            ids.push(*id)?;
        }
    }
    Ok(ids)
}

/// The numbers under the pattern's symbol.
pub(crate) fn instances_under<'a>(index: &'a [IndexSet<TypeId>], pattern: &Ty) -> &'a [TypeId]
    ensures { AreUnder (keys_in index.now) pattern.now result.now }
{
    match pattern {
        Ty::Var(_) => &[],
        Ty::Apply(f, _) => match index.get(*f as usize) {
            Some(ids) => ids.as_slice(),
            None => &[],
        },
    }
}
