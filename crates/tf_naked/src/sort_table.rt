//! The sorts of a problem with their places.

ghost use Rattle.std.specs.Prelude.{◌≡◌, ◌≤◌, ◌+◌, ◌∷◌, ℕ, List, length, get_or, IfOk, OnOk};
ghost use Rattle.std.specs.List.{position_or_len};
ghost use Rattle.tf_core.specs.declared.ty.Ty.{Ty};
ghost use Rattle.tf_core.specs.Types.{same_type};
ghost use Rattle.tf_naked.specs.Calls.Places.{ArePlaces};

use enc_base::{List, NoMemory};
use std::alloc::Global;
use std::marker::Model;
use tf_core::Ty;
use tf_types::TypeTable;

/// A list of types, in which the place of a type is looked up by its number. Contracts see the list.
#[derive(Drop)]
pub struct SortTable {
    sorts: List<Ty>,
    table: TypeTable,
    // for each number the first place of its type, or the length of the list where it isn't there
    places: Vec<usize>,
}

impl Model for SortTable {
    ghost use Rattle.std.specs.Prelude.{List, length};
    ghost use Rattle.tf_core.specs.declared.ty.Ty.{Ty};
    ghost use Rattle.tf_core.specs.contracts.ty.Ty as known;
    ghost use Rattle.std.specs.Coded.{codes};
    ghost use Rattle.tf_naked.specs.Calls.Places.{ArePlaces};

    ghost Value = { List Ty };

    ghost coded = { Prim.hlevel (codes, known.the_row.coded) };

    ghost view = { λ it. it.sorts };

    ghost invariant = { λ it. ArePlaces it.table it.places.items (length it.sorts) 0 it.sorts };
}

impl SortTable {
    /// The table of a list of types. It takes time in proportion to the list.
    pub fn new(alloc: Global, sorts: List<Ty>) -> Result<SortTable, NoMemory>
        ensures exact { IfOk result (λ made. made ≡ sorts) }
    {
        let mut table = TypeTable::new(alloc);
        let mut places = Vec::new(alloc);
        let count = sorts.as_slice().len();
        let mut i = count;
        while i > 0 {
            i -= 1;
            put(&mut table, &mut places, &sorts.as_slice()[i], count, i)?;
        }
        Ok(SortTable {
            sorts,
            table,
            places,
        })
    }

    /// The list.
    pub fn as_slice(&self) -> &[Ty]
        ensures { result.now ≡ self.now }
    {
        self.sorts.as_slice()
    }

    /// The first place of a type in the list, or the length of the list where it isn't there. It
    /// takes time in proportion to the type.
    pub fn place(&self, ty: &Ty) -> usize
        ensures exact { result ≡ position_or_len (same_type ty.now) self.now }
    {
        let count = self.sorts.as_slice().len();
        match self.table.find(ty) {
            Some(id) => place_at(self.places.as_slice(), id.index, count),
            None => count,
        }
    }
}

// the place that is noted for a number
fn place_at(places: &[usize], i: usize, count: usize) -> usize
    ensures { result ≡ get_or places.now i count }
{
    if i < places.len() { places[i] } else { count }
}

// notes the place of a type, which stands before those that were noted
fn put(
    table: &mut TypeTable,
    places: &mut Vec<usize>,
    ty: &Ty,
    count: usize,
    i: usize,
) -> Result<(), NoMemory>
    ensures { OnOk result ((rest : List Ty) →
        ArePlaces table.old places.old.items count (i + 1) rest →
        ArePlaces table.new places.new.items count i (ty.now ∷ rest)) }
{
    let id = table.number_of(ty)?;
    reach(places, table.type_count(), count)?;
    places[id.index] = i;
    Ok(())
}

// has at least so many places, the new ones beyond the list
fn reach(places: &mut Vec<usize>, wanted: usize, count: usize) -> Result<(), NoMemory>
    ensures reached { OnOk result (wanted ≤ length places.new.items) }
    ensures same { OnOk result ((i : ℕ) →
        get_or places.new.items i count ≡ get_or places.old.items i count) }
{
    if places.len() >= wanted {
        return Ok(());
    }
    match places.resize(wanted, count) {
        Ok(()) => Ok(()),
        Err(_) => Err(NoMemory),
    }
}
