//! A list of sorts as it grows.

ghost use Rattle.std.specs.Prelude.{◌≡◌, [], ◌∷◌, ◌++◌, OnOk};
ghost use Rattle.tf_core.specs.Sorts.{once, declared_types};
ghost use Rattle.tf_naked.specs.Calls.Sets.{IsSetOf};
ghost use Rattle.tf_naked.specs.Calls.Listing.{IsListing, Lists};

use crate::set::TypeSet;
use enc_base::{List, NoMemory};
use std::alloc::Global;
use tf_core::{Symbol, Ty};

/// The sorts that were found, in their order, and the set of them.
#[derive(Drop)]
pub(crate) struct Listing {
    pub(crate) set: TypeSet,
    pub(crate) sorts: List<Ty>,
}

impl Listing {
    /// No sorts.
    pub(crate) fn new(alloc: Global) -> Listing
        ensures listing { IsListing result }
        ensures empty { result.sorts ≡ [] }
    {
        Listing {
            set: TypeSet::new(alloc),
            sorts: List::new(alloc),
        }
    }
}

/// Lists the types that a symbol is declared with.
pub(crate) fn list_symbol(
    alloc: Global,
    symbol: &Symbol,
    listing: &mut Listing,
) -> Result<(), NoMemory>
    requires listing { IsListing listing.old }
    ensures { OnOk result (Lists listing.old listing.new (declared_types symbol.now)) }
{
    list_types(alloc, symbol.arguments.as_slice(), listing)?;
    match &symbol.result {
        Some(ty) => list_type(alloc, ty, listing),
        None => Ok(()),
    }
}

/// Lists a type: where it isn't listed, its arguments, from the left, and then the type itself.
#[cycle(list_type)]
pub(crate) fn list_type(alloc: Global, ty: &Ty, listing: &mut Listing) -> Result<(), NoMemory>
    requires listing { IsListing listing.old }
    ensures { OnOk result (Lists listing.old listing.new (ty.now ∷ [])) }
{
    if listing.set.contains(ty)? {
        return Ok(());
    }
    match ty {
        Ty::Var(_) => list_itself(alloc, ty, listing),
        Ty::Apply(_, arguments) => {
            list_types(alloc, arguments.as_slice(), listing)?;
            list_itself(alloc, ty, listing)
        }
    }
}

/// Lists types, one after another.
#[cycle(list_type)]
fn list_types(alloc: Global, types: &[Ty], listing: &mut Listing) -> Result<(), NoMemory>
    requires listing { IsListing listing.old }
    ensures { OnOk result (Lists listing.old listing.new types.now) }
{
    for ty in types {
        list_type(alloc, ty, listing)?;
    }
    Ok(())
}

// lists a type alone, whose arguments are listed, where it isn't listed itself
fn list_itself(alloc: Global, ty: &Ty, listing: &mut Listing) -> Result<(), NoMemory>
    requires set { IsSetOf listing.old.set listing.old.sorts }
    ensures set { OnOk result (IsSetOf listing.new.set listing.new.sorts) }
    ensures listed { OnOk result (listing.new.sorts
        ≡ listing.old.sorts ++ once listing.old.sorts (ty.now ∷ [])) }
{
    if listing.set.insert(ty)? {
        listing.sorts.push(ty.copy(alloc)?)?;
    }
    Ok(())
}
