//! Constructors over sorts, as tables.

ghost use Rattle.std.specs.Prelude.{◌≡◌, ◌<◌, ◌≤◌, ◌^◌, [], length, map, replicate, get_or, set, sum_by, IfOk, OnOk};
ghost use Rattle.std.specs.List.{AllByRecursion};
ghost use Rattle.enc_base.specs.Counts.{most_entries};
ghost use Rattle.enc_base.specs.Tables.{tuple_count};
ghost use Rattle.enc_base.specs.Tuples.{IsPlaced};
ghost use Rattle.tf_core.specs.Typing.{IsType};
ghost use Rattle.tf_types.specs.Numbers.{IsOneToOne};
ghost use Rattle.enc_models.specs.Calls.SortNumbers.{number_in, AreAmong, AreArgumentsAmong, AreEntered, AreNumbered};

use crate::sort_numbers::SortNumbers;
use enc_base::{List, NoMemory};
use std::alloc::Global;
use structure_tables::count_tuples;
use tf_core::{Constructor, Signature, Ty};

/// The table of each constructor over sorts: for sorts it has the number of the sort that the
/// constructor forms of them, or 0 where that is no sort. It takes time in proportion to the tables
/// and to the sorts.
pub(crate) fn tables_over_sorts(
    alloc: Global,
    signature: &Signature,
    sorts: &[Ty],
    numbers: &mut SortNumbers,
) -> Result<List<List<u32>>, NoMemory>
    requires few { length sorts.now < 2 ^ 32 }
    requires some { 0 < length sorts.now }
    requires within { sum_by (λ constructor. tuple_count
        (replicate constructor.arity (length sorts.now))) signature.now.constructors
        ≤ most_entries }
    requires typed { AllByRecursion (IsType signature.now 0) sorts.now }
    requires once { IsOneToOne sorts.now }
    requires arguments { AreArgumentsAmong sorts.now }
    requires numbered { AreNumbered numbers.old (length sorts.now) sorts.now }
    ensures { IfOk result (AreEntered signature.now sorts.now (length sorts.now)) }
{
    let mut tables = zero_tables(alloc, signature.constructors.as_slice(), sorts.len())?;
    for (number, sort) in sorts.iter().enumerate() {
        match sort {
            Ty::Var(_) => {}
            Ty::Apply(c, types) => {
                let at = place_of_sorts(types.as_slice(), sorts, numbers)?;
                enter(&mut tables, *c as usize, at, number as u32);
            }
        }
    }
    Ok(tables)
}

// a table of zeros for each constructor, with an entry for each tuple of so many numbers
fn zero_tables(
    alloc: Global,
    constructors: &[Constructor],
    count: usize,
) -> Result<List<List<u32>>, NoMemory>
    requires within { sum_by (λ constructor. tuple_count (replicate constructor.arity count))
        constructors.now ≤ most_entries }
    ensures { IfOk result (λ tables. tables ≡ map (λ constructor. replicate
        (tuple_count (replicate constructor.arity count)) 0) constructors.now) }
{
    let mut tables = List::new(alloc);
    for constructor in constructors {
        let entries = count_tuples(count as u64, constructor.arity);
        tables.push(zeros(alloc, entries as usize)?)?;
    }
    Ok(tables)
}

// so many zeros
fn zeros(alloc: Global, count: usize) -> Result<List<u32>, NoMemory>
    ensures { IfOk result (λ numbers. numbers ≡ replicate count 0) }
{
    match vec![in alloc; 0u32; count] {
        Ok(numbers) => Ok(List::from_vec(numbers)),
        Err(_) => Err(NoMemory),
    }
}

// the place of the tuple of the numbers of sorts
fn place_of_sorts(types: &[Ty], sorts: &[Ty], numbers: &mut SortNumbers) -> Result<usize, NoMemory>
    requires few { tuple_count (replicate (length types.now) (length sorts.now)) < 2 ^ 64 }
    requires among { AreAmong sorts.now types.now }
    requires numbered { AreNumbered numbers.old (length sorts.now) sorts.now }
    ensures exact { IfOk result (IsPlaced (replicate (length types.now) (length sorts.now))
        (map (number_in sorts.now) types.now)) }
    ensures kept { OnOk result (AreNumbered numbers.new (length sorts.now) sorts.now) }
{
    let mut at = 0usize;
    for ty in types {
        let number = numbers.number(ty)?;
        at = at * sorts.len() + number as usize;
    }
    Ok(at)
}

// enters a number at a place of a table
fn enter(tables: &mut List<List<u32>>, c: usize, at: usize, number: u32)
    requires table { c < length tables.old }
    requires place { at < length (get_or tables.old c []) }
    ensures { tables.new ≡ set tables.old c (set (get_or tables.old c []) at number) }
{
    let table = tables.as_mut_slice()[c].as_mut_slice();
    table[at] = number;
}
