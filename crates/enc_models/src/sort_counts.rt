//! How many numbers the tables of a structure hold whose members are sorts.

ghost use Rattle.std.specs.Prelude.{◌≡◌, map, length, IfOk, OnOk};
ghost use Rattle.std.specs.List.{AllByRecursion};
ghost use Rattle.enc_base.specs.Counts.{in_64_bits};
ghost use Rattle.enc_base.specs.Tables.{tuple_count};
ghost use Rattle.enc_models.specs.Calls.SortNumbers.{sizes_among, count_over_sorts, AreAmong, AreNumbered};

use crate::sort_numbers::SortNumbers;
use enc_base::NoMemory;
use structure_tables::{add_sizes, entries_of_constructors};
use tf_core::{Signature, Ty};

/// How many numbers the tables hold of a structure whose members are sorts of these sizes, the
/// sizes counted in, or 2^64 - 1 where there are more. Nothing of their number is made.
pub(crate) fn entries_over_sorts(
    signature: &Signature,
    sizes: &[u32],
    sorts: &[Ty],
    numbers: &mut SortNumbers,
) -> Result<u64, NoMemory>
    requires sizes { length sizes.now ≡ length sorts.now }
    requires among { AllByRecursion (λ symbol. AreAmong sorts.now symbol.arguments)
        signature.now.symbols }
    requires numbered { AreNumbered numbers.old (length sorts.now) sorts.now }
    ensures exact { IfOk result (λ entries. entries
        ≡ in_64_bits (count_over_sorts signature.now sizes.now sorts.now)) }
    ensures kept { OnOk result (AreNumbered numbers.new (length sorts.now) sorts.now) }
{
    let members = add_sizes(sizes);
    let constructors = entries_of_constructors(sizes, signature.constructors.as_slice());
    let mut entries = members.saturating_add(constructors);
    for symbol in signature.symbols.as_slice() {
        let more = entries_of_arguments(symbol.arguments.as_slice(), sizes, sorts, numbers)?;
        entries = entries.saturating_add(more);
    }
    Ok(entries)
}

// how many tuples of elements there are for arguments of these sorts, or 2^64 - 1 where there are
// more
fn entries_of_arguments(
    types: &[Ty],
    sizes: &[u32],
    sorts: &[Ty],
    numbers: &mut SortNumbers,
) -> Result<u64, NoMemory>
    requires sizes { length sizes.now ≡ length sorts.now }
    requires among { AreAmong sorts.now types.now }
    requires numbered { AreNumbered numbers.old (length sorts.now) sorts.now }
    ensures exact { IfOk result (λ entries. entries
        ≡ in_64_bits (tuple_count (sizes_among sorts.now sizes.now types.now))) }
    ensures kept { OnOk result (AreNumbered numbers.new (length sorts.now) sorts.now) }
{
    let mut entries = 1u64;
    for ty in types {
        let number = numbers.number(ty)?;
        entries = entries.saturating_mul(sizes[number as usize] as u64);
    }
    Ok(entries)
}
