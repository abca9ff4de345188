//! Counts of entries.

use crate::arguments::{digits, numbers};
use crate::call::Call;
use crate::encoding::encoding_of;
use crate::given::problem_of;
use crate::out::Out;
use crate::stop::Stop;
use structure_tables::{add_sizes, count_tuples, entries_of_constructors, untyped_entries};

/// Whether the call is one of this layer, which is then made.
pub fn answer(name: &[u8], call: &mut Call<'_>, out: &mut Out) -> Result<bool, Stop> {
    match name {
        b"count_tuples" => tuples(call, out)?,
        b"add_sizes" => sizes(call, out)?,
        b"entries_of_constructors" => of_constructors(call, out)?,
        b"untyped_entries" => untyped(call, out)?,
        _ => return Ok(false),
    }
    Ok(true)
}

// a number up to 2^64 - 1
fn long_number(word: &[u8]) -> Result<u64, Stop> {
    match digits(word) {
        Some(number) => Ok(number),
        None => Err(Stop::Shape),
    }
}

fn tuples(call: &mut Call<'_>, out: &mut Out) -> Result<(), Stop> {
    let bound = long_number(call.word())?;
    let count = call.number()?;
    out.told(b"", &count_tuples(bound, count));
    Ok(())
}

fn sizes(call: &Call<'_>, out: &mut Out) -> Result<(), Stop> {
    let sizes = numbers(call.alloc, call.rest)?;
    out.told(b"", &add_sizes(sizes.as_slice()));
    Ok(())
}

fn of_constructors(call: &Call<'_>, out: &mut Out) -> Result<(), Stop> {
    let problem = problem_of(call.alloc, call.texts.problem.as_slice())?;
    let sizes = numbers(call.alloc, call.rest)?;
    let constructors = problem.signature.constructors.as_slice();
    out.told(
        b"",
        &entries_of_constructors(sizes.as_slice(), constructors),
    );
    Ok(())
}

fn untyped(call: &mut Call<'_>, out: &mut Out) -> Result<(), Stop> {
    let which = call.scheme()?;
    let size = long_number(call.word())?;
    let encoding = encoding_of(call.alloc, &which, call.texts.problem.as_slice())?;
    let signature = encoding.encoded.problem.signature.as_slice();
    out.told(b"", &untyped_entries(size, signature));
    Ok(())
}
