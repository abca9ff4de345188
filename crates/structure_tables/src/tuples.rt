ghost use Rattle.std.specs.Prelude.{◌≡◌, ◌<◌, ◌++◌, ℕ, List, [], true, false, length, replicate, OnOk, IfOk};
ghost use Rattle.enc_base.specs.Tables.{EachBelow, table};

use crate::counts::count_tuples;
use enc_base::{List, NoMemory, next_tuple};
use std::alloc::Global;

/// A function of tuples of numbers.
pub trait TupleFunction {
    /// Where it is defined.
    ghost is_defined: { Self → List ℕ → Type 0 };

    /// What it gives.
    ghost gives: { Self → List ℕ → ℕ };

    /// What it gives for a tuple.
    fn at(&self, values: &[u32]) -> u32
        requires { is_defined self.now values.now }
        ensures { result ≡ gives self.now values.now };
}

/// The table of a function of so many numbers below a bound, in lexicographic order. There has to be
/// a tuple: numbers below the bound, or none asked for.
pub fn table_of<F: TupleFunction>(
    alloc: Global,
    bound: u32,
    count: u32,
    function: &F,
) -> Result<List<u32>, NoMemory>
    requires some { EachBelow (replicate count bound) (replicate count 0) }
    requires defined { (values : List ℕ) → EachBelow (replicate count bound) values → F.is_defined function.now values }
    ensures { IfOk result (λ entries. entries ≡ table (replicate count bound) (F.gives function.now)) }
{
    let bounds = repeated(alloc, bound, count as usize)?;
    let mut entries = with_room(alloc, count_tuples(bound as u64, count))?;
    append_table(alloc, &mut entries, bounds.as_slice(), function)?;
    Ok(entries)
}

/// An empty list with room for so many numbers.
pub(crate) fn with_room(alloc: Global, count: u64) -> Result<List<u32>, NoMemory>
    ensures { IfOk result (λ entries. entries ≡ []) }
{
    match Vec::with_capacity(alloc, count as usize) {
        Ok(entries) => Ok(List::from_vec(entries)),
        Err(_) => Err(NoMemory),
    }
}

/// Appends the table of a function: what it gives for each tuple of numbers below the bounds, in
/// lexicographic order.
pub(crate) fn append_table<F: TupleFunction>(
    alloc: Global,
    entries: &mut List<u32>,
    bounds: &[u32],
    function: &F,
) -> Result<(), NoMemory>
    requires some { EachBelow bounds.now (replicate (length bounds.now) 0) }
    requires defined { (values : List ℕ) → EachBelow bounds.now values → F.is_defined function.now values }
    ensures { OnOk result (entries.new ≡ entries.old ++ table bounds.now (F.gives function.now)) }
{
    let mut values = repeated(alloc, 0, bounds.len())?;
    loop {
        entries.push(function.at(values.as_slice()))?;
        if !next_tuple(&mut values, bounds) {
            return Ok(());
        }
    }
}

/// A number, so many times.
pub(crate) fn repeated(alloc: Global, number: u32, count: usize) -> Result<Vec<u32>, NoMemory>
    ensures { IfOk result (λ numbers. numbers.items ≡ replicate count number) }
{
    match vec![in alloc; number; count] {
        Ok(numbers) => Ok(numbers),
        Err(_) => Err(NoMemory),
    }
}
