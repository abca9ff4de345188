//! The checks that both readers of tables make, each by what it needs to know.
#![tactic(auto)]

ghost use Rattle.std.specs.Prelude.{◌≡◌, ◌==◌, ℕ, not, is_some, IfOk};
ghost use Rattle.std.specs.Option.{option_map};
ghost use Rattle.enc_base.specs.Counts.{in_64_bits};
ghost use Rattle.model_tables.specs.declared.error.TableError.TheVariants as e;
ghost use Rattle.model_tables.specs.Grammar as grammar;
ghost use Rattle.model_tables.specs.Faults as faults;
ghost use Rattle.model_tables.specs.Faults.{fault_if, missing_faults, length_faults};
ghost use Rattle.model_tables.specs.Faults.{range_faults, limit_faults};
ghost use Rattle.model_tables.specs.Checks.{Checks};

use crate::error::TableError;
use crate::form::Form;
use crate::parts::size_word;
use enc_base::Name;
use std::alloc::Global;

/// How many entries a structure may have.
pub const MOST_ENTRIES: u64 = 67_108_864;

/// Checks that a size is no 0.
pub fn check_size(alloc: Global, form: Form, size: u32) -> Result<(), TableError>
    ensures { Checks (fault_if (size == 0) (e.OutOfRange (grammar.size_word form) 0)) result }
{
    if size != 0 {
        return Ok(());
    }
    let name = Name::from_slice(alloc, size_word(form))?;
    Err(TableError::OutOfRange { name, value: 0 })
}

/// Checks that there are no more entries than the limit, by their number, which stops at 2^64 - 1.
pub fn check_limit(entries: u64) -> Result<(), TableError>
    ensures { (all : ℕ) → entries ≡ in_64_bits all → Checks (limit_faults all) result }
{
    if entries <= MOST_ENTRIES {
        return Ok(());
    }
    Err(TableError::TooLarge { entries })
}

/// Checks that there is a symbol of an item's kind and name, by its place.
pub fn check_known(alloc: Global, place: Option<usize>, name: &[u8]) -> Result<usize, TableError>
    ensures known { Checks (fault_if (not (is_some place)) (e.UnknownSymbol name.now)) result }
    ensures found { IfOk result (λ at. place ≡ Some at) }
{
    if let Some(at) = place {
        return Ok(at);
    }
    let name = Name::from_slice(alloc, name)?;
    Err(TableError::UnknownSymbol { name })
}

/// Checks that no earlier item is of the kind and the name.
pub fn check_new(alloc: Global, repeated: bool, name: &[u8]) -> Result<(), TableError>
    ensures { Checks (fault_if repeated (e.Repeated name.now)) result }
{
    if !repeated {
        return Ok(());
    }
    let name = Name::from_slice(alloc, name)?;
    Err(TableError::Repeated { name })
}

/// Checks that an item has as many entries as its table.
pub fn check_length(alloc: Global, name: &[u8], expected: u64, found: u64) -> Result<(), TableError>
    ensures { Checks (length_faults name.now expected found) result }
{
    if expected == found {
        return Ok(());
    }
    let name = Name::from_slice(alloc, name)?;
    Err(TableError::WrongLength {
        name,
        expected,
        found,
    })
}

/// The first of the entries that is not below the bound.
pub fn first_over(entries: &[u32], bound: u64) -> Option<u32>
    ensures { (i : ℕ) → result ≡ faults.first_over (λ _. bound) i entries.now }
{
    for entry in entries {
        if *entry as u64 >= bound {
            return Some(*entry);
        }
    }
    None
}

/// Checks that no entry is out of range, by the first that is.
pub fn check_range(alloc: Global, name: &[u8], over: Option<u32>) -> Result<(), TableError>
    ensures { Checks (range_faults name.now over) result }
{
    let Some(value) = over else {
        return Ok(());
    };
    let name = Name::from_slice(alloc, name)?;
    Err(TableError::OutOfRange { name, value })
}

/// Checks that no item is missing, by the first name whose item is.
pub fn check_missing(alloc: Global, missing: Option<&[u8]>) -> Result<(), TableError>
    ensures { Checks (missing_faults (option_map (λ name. name.now) missing.entry)) result }
{
    let Some(name) = missing else {
        return Ok(());
    };
    let name = Name::from_slice(alloc, name)?;
    Err(TableError::Missing { name })
}
