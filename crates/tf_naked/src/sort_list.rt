//! The list of sorts of a normal problem.

ghost use Rattle.std.specs.Prelude.{◌≡◌, map, IfOk, OnOk};
ghost use Rattle.tf_core.specs.Sorts.{joined, declared_types, binder_types, or_individuals, sorts};
ghost use Rattle.tf_naked.specs.Calls.Listing.{IsListing, Lists};

use crate::listing::{Listing, list_symbol, list_type};
use enc_base::{List, NoMemory};
use std::alloc::Global;
use tf_core::{Nnf, Normal, NormalFormula, Symbol, Ty};

/// The sorts of a problem in their order: the types of its symbols and then those at its binders,
/// each after its arguments and once. Types have numbers, so that none is looked for in the list: it
/// takes time in proportion to the problem and to the list.
pub fn sorts(alloc: Global, normal: &Normal) -> Result<List<Ty>, NoMemory>
    ensures exact { IfOk result (λ found. found ≡ sorts normal.now) }
{
    let mut listing = Listing::new(alloc);
    list_symbols(alloc, normal.signature.symbols.as_slice(), &mut listing)?;
    list_formulas(alloc, normal.formulas.as_slice(), &mut listing)?;
    let Listing { set: _, sorts } = listing;
    or_individuals(alloc, sorts)
}

// lists the types of symbols
fn list_symbols(alloc: Global, symbols: &[Symbol], listing: &mut Listing) -> Result<(), NoMemory>
    requires listing { IsListing listing.old }
    ensures { OnOk result (Lists listing.old listing.new (joined (map declared_types symbols.now))) }
{
    for symbol in symbols {
        list_symbol(alloc, symbol, listing)?;
    }
    Ok(())
}

// lists the types at the binders of formulas
fn list_formulas(
    alloc: Global,
    formulas: &[NormalFormula],
    listing: &mut Listing,
) -> Result<(), NoMemory>
    requires listing { IsListing listing.old }
    ensures { OnOk result (Lists listing.old listing.new
        (joined (map (λ formula. binder_types formula.body) formulas.now))) }
{
    for formula in formulas {
        list_binders(alloc, &formula.body, listing)?;
    }
    Ok(())
}

// lists the types at a formula's binders
#[cycle(list_binders)]
fn list_binders(alloc: Global, formula: &Nnf, listing: &mut Listing) -> Result<(), NoMemory>
    requires listing { IsListing listing.old }
    ensures { OnOk result (Lists listing.old listing.new (binder_types formula.now)) }
{
    match formula {
        Nnf::True => Ok(()),
        Nnf::False => Ok(()),
        Nnf::Atom(_, _, _, _) => Ok(()),
        Nnf::Equation(_, _, _, _) => Ok(()),
        Nnf::And(parts) => list_binders_in_parts(alloc, parts.as_slice(), listing),
        Nnf::Or(parts) => list_binders_in_parts(alloc, parts.as_slice(), listing),
        Nnf::ForAll(ty, body) => {
            list_type(alloc, ty, listing)?;
            list_binders(alloc, body.get(), listing)
        }
        Nnf::Exists(ty, body) => {
            list_type(alloc, ty, listing)?;
            list_binders(alloc, body.get(), listing)
        }
    }
}

// the same for parts, one after another
#[cycle(list_binders)]
fn list_binders_in_parts(
    alloc: Global,
    parts: &[Nnf],
    listing: &mut Listing,
) -> Result<(), NoMemory>
    requires listing { IsListing listing.old }
    ensures { OnOk result (Lists listing.old listing.new (joined (map binder_types parts.now))) }
{
    for part in parts {
        list_binders(alloc, part, listing)?;
    }
    Ok(())
}

// the sorts, or where there is none the individuals alone
fn or_individuals(alloc: Global, sorts: List<Ty>) -> Result<List<Ty>, NoMemory>
    ensures { IfOk result (λ found. found ≡ or_individuals sorts) }
{
    if !sorts.as_slice().is_empty() {
        return Ok(sorts);
    }
    let mut only = List::new(alloc);
    only.push(Ty::Apply(0, List::new(alloc)))?;
    Ok(only)
}
