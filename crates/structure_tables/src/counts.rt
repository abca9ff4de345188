ghost use Rattle.std.specs.Prelude.{◌≡◌, replicate};
ghost use Rattle.enc_base.specs.Tables.{tuple_count};
ghost use Rattle.enc_base.specs.Counts.{in_64_bits};
ghost use Rattle.structure_tables.specs.EntryCounts.{untyped_count};

use fof_models::FofSymbol;

/// How many numbers the tables of a structure of this size hold, the size counted in, or 2^64 - 1
/// where there are more. Nothing of their number is made.
pub fn untyped_entries(size: u64, signature: &[FofSymbol]) -> u64
    ensures exact { result ≡ in_64_bits (untyped_count size signature.now) }
{
    let mut entries = size;
    for symbol in signature {
        entries = entries.saturating_add(count_tuples(size, symbol.arity));
    }
    entries
}

/// How many tuples of so many numbers below a bound there are, or 2^64 - 1 where there are more.
pub fn count_tuples(bound: u64, count: u32) -> u64
    ensures exact { result ≡ in_64_bits (tuple_count (replicate count bound)) }
{
    if bound == 1 || count == 0 {
        return 1;
    }
    if bound == 0 {
        return 0;
    }
    let mut tuples = 1u64;
    for _ in 0..count {
        tuples = tuples.saturating_mul(bound);
        if tuples == u64::MAX {
            return tuples;
        }
    }
    tuples
}

/// The product of bounds, or 2^64 - 1 where it is more.
pub(crate) fn multiply(bounds: &[u32]) -> u64
    ensures exact { result ≡ in_64_bits (tuple_count bounds.now) }
{
    let mut tuples = 1u64;
    for bound in bounds {
        tuples = tuples.saturating_mul(*bound as u64);
    }
    tuples
}
