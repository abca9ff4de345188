//! The symbols of an untyped problem, found by the names of items.
#![tactic(auto)]

ghost use Rattle.std.specs.Prelude.{◌≡◌, ◌<◌, length, slice_get, Option, Some, None, IfSome, IfOk};
ghost use Rattle.model_tables.specs.declared.form.Kind.{Kind};
ghost use Rattle.model_tables.specs.Grammar.{Item};
ghost use Rattle.model_tables.specs.Faults as faults;
ghost use Rattle.model_tables.specs.Faults.{name_faults, entry_faults};
ghost use Rattle.model_tables.specs.Untyped.{symbol_shape};
ghost use Rattle.model_tables.specs.Held.{slots_of};
ghost use Rattle.model_tables.specs.Checks.{Checks};
ghost use Rattle.model_tables.specs.ReadUntyped.{AreReady, IsWantedAt, wants_of};
ghost use Rattle.fof_models.specs.Structures.{values_below};
ghost use Rattle.fof_models.specs.declared.problem.FofSymbol.{FofSymbol};

use crate::checks::{check_known, check_length, check_new, check_range, first_over};
use crate::error::TableError;
use crate::form::Kind;
use crate::index::Index;
use crate::lines::kind_of;
use enc_base::List;
use fof_models::FofSymbol;
use std::alloc::Global;
use structure_tables::count_tuples;

/// The symbols of a problem with their names, and the size of a domain.
#[derive(Drop)]
pub struct Symbols<'a> {
    pub signature: &'a [FofSymbol],
    pub names: Index<'a>,
    pub size: u32,
}

/// The bound of the entries of a symbol's table.
fn bound_of(symbol: &FofSymbol, size: u32) -> u64
    ensures { result ≡ values_below symbol.now size }
{
    if symbol.predicate { 2 } else { size as u64 }
}

/// Whether the kinds are the same.
fn same_kind(kind: Kind, other: Kind) -> bool
    ensures { result ≡ faults.same_kind kind other }
{
    match (kind, other) {
        (Kind::Constructor, Kind::Constructor) => true,
        (Kind::Symbol, Kind::Symbol) => true,
        (Kind::Function, Kind::Function) => true,
        (Kind::Predicate, Kind::Predicate) => true,
        _ => false,
    }
}

impl Symbols<'_> {
    /// The place of the symbol that has an item's kind and name.
    fn place_of(&self, kind: Kind, name: &[u8]) -> Option<usize>
        requires { AreReady self.now }
        ensures wanted { IsWantedAt (wants_of self.now) kind name.now result }
        ensures within { IfSome result (λ at. at < length self.now.signature.now) }
    {
        match self.names.find(name) {
            Some(at) => {
                if same_kind(kind, kind_of(&self.signature[at])) {
                    Some(at)
                } else {
                    None
                }
            }
            None => None,
        }
    }

    /// The place of the symbol of an item, unless the item may not stand there.
    pub fn check_name(
        &self,
        alloc: Global,
        kind: Kind,
        name: &[u8],
        slots: &[Option<List<u32>>],
    ) -> Result<usize, TableError>
        requires ready { AreReady self.now }
        requires slots { length slots.now ≡ length self.now.signature.now }
        ensures checks { (items : List Item) → slots.now ≡ slots_of (wants_of self.now) items
            → Checks (name_faults (wants_of self.now) items kind name.now) result }
        ensures wanted { IfOk result (λ at.
            IsWantedAt (wants_of self.now) kind name.now (Some at)) }
        ensures within { IfOk result (λ at. at < length slots.now) }
        ensures new { IfOk result (λ at. slice_get slots.now at ≡ Some None) }
    {
        let at = check_known(alloc, self.place_of(kind, name), name)?;
        check_new(alloc, slots[at].is_some(), name)?;
        Ok(at)
    }

    /// Checks that the entries of an item fit the symbol at a place.
    pub fn check_entries(
        &self,
        alloc: Global,
        at: usize,
        name: &[u8],
        entries: &[u32],
    ) -> Result<(), TableError>
        requires ready { AreReady self.now }
        requires within { at < length self.now.signature.now }
        ensures { (symbol : FofSymbol) (kind : Kind) → slice_get self.now.signature.now at ≡ Some symbol
            → Checks (entry_faults (symbol_shape self.now.size (Some symbol))
            (record { kind = kind; name = name.now; entries = entries.now })) result }
    {
        let symbol = &self.signature[at];
        let expected = count_tuples(self.size as u64, symbol.arity);
        check_length(alloc, name, expected, entries.len() as u64)?;
        check_range(
            alloc,
            name,
            first_over(entries, bound_of(symbol, self.size)),
        )
    }
}
