//! The numbers of sorts.

ghost use Rattle.std.specs.Prelude.{◌≡◌, ◌+◌, ◌≤◌, ◌<◌, ◌^◌, ℕ, List, length, get_or, slice_get, Some, IfOk, OnOk};
ghost use Rattle.tf_core.specs.declared.ty.Ty.{Ty};
ghost use Rattle.tf_types.specs.Numbers.{IsOneToOne};
ghost use Rattle.enc_models.specs.Calls.SortNumbers.{AreNumbered};

use enc_base::NoMemory;
use std::alloc::Global;
use tf_core::Ty;
use tf_types::TypeTable;

/// Sorts with their numbers. Their types are numbered in a table, so that a sort is found in a step
/// for each node of it.
#[derive(Drop)]
pub(crate) struct SortNumbers {
    pub types: TypeTable,
    /// For numbers of types, the number of the sort that the type is, if it is one.
    pub sorts: Vec<u32>,
}

impl SortNumbers {
    /// The sorts of a list, in which each stands once.
    pub(crate) fn new(alloc: Global, sorts: &[Ty]) -> Result<SortNumbers, NoMemory>
        requires few { length sorts.now < 2 ^ 32 }
        requires once { IsOneToOne sorts.now }
        ensures { IfOk result (λ made. AreNumbered made (length sorts.now) sorts.now) }
    {
        let mut numbers = SortNumbers {
            types: TypeTable::new(alloc),
            sorts: Vec::new(alloc),
        };
        for (number, ty) in sorts.iter().enumerate() {
            numbers.add(ty, number as u32)?;
        }
        Ok(numbers)
    }

    // adds the next sort of a list
    fn add(&mut self, ty: &Ty, number: u32) -> Result<(), NoMemory>
        ensures { OnOk result ((listed : List Ty) → IsOneToOne listed →
            slice_get listed number ≡ Some ty.now → AreNumbered self.old number listed →
            AreNumbered self.new (number + 1) listed) }
    {
        let id = self.types.number_of(ty)?;
        reach(&mut self.sorts, self.types.type_count())?;
        self.sorts[id.index] = number;
        Ok(())
    }

    /// The number of a sort.
    pub(crate) fn number(&mut self, ty: &Ty) -> Result<u32, NoMemory>
        ensures exact { IfOk result (λ number. (listed : List Ty) (i : ℕ) →
            AreNumbered self.old (length listed) listed → slice_get listed i ≡ Some ty.now →
            number ≡ i) }
        ensures kept { OnOk result ((listed : List Ty) → AreNumbered self.old (length listed) listed →
            AreNumbered self.new (length listed) listed) }
    {
        let id = self.types.number_of(ty)?;
        Ok(number_at(self.sorts.as_slice(), id.index))
    }
}

// the number at a place
fn number_at(numbers: &[u32], i: usize) -> u32
    ensures { result ≡ get_or numbers.now i 0 }
{
    if i < numbers.len() { numbers[i] } else { 0 }
}

// has at least so many numbers, the new ones zeros
fn reach(numbers: &mut Vec<u32>, count: usize) -> Result<(), NoMemory>
    ensures reached { OnOk result (count ≤ length numbers.new.items) }
    ensures same { OnOk result ((i : ℕ) →
        get_or numbers.new.items i 0 ≡ get_or numbers.old.items i 0) }
{
    if numbers.len() >= count {
        return Ok(());
    }
    match numbers.resize(count, 0) {
        Ok(()) => Ok(()),
        Err(_) => Err(NoMemory),
    }
}
