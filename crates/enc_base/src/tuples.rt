//! Tuples of numbers below bounds, in lexicographic order: the last part changes fastest.
ghost use Rattle.std.specs.Prelude.{◌≡◌, true, false, length, replicate};
ghost use Rattle.enc_base.specs.Tables.{EachBelow};
ghost use Rattle.enc_base.specs.Tuples.{IsNext, IsLast};

/// Replaces a tuple of numbers, each below a bound of its own, by the next one. Says whether there
/// is one.
pub fn next_tuple(values: &mut [u32], bounds: &[u32]) -> bool
    requires below { EachBelow bounds.now values.old }
    ensures next { result ≡ true → IsNext bounds.now values.old values.new }
    ensures last { result ≡ false → IsLast bounds.now values.old }
{
    for i in (0..bounds.len()).rev() {
        if values[i] + 1 < bounds[i] {
            values[i] += 1;
            return true;
        }
        values[i] = 0;
    }
    false
}

/// Replaces a tuple of numbers below one bound by the next one. Says whether there is one.
pub fn next_tuple_below(values: &mut [u32], bound: u32) -> bool
    requires below { EachBelow (replicate (length values.old) bound) values.old }
    ensures next { result ≡ true
        → IsNext (replicate (length values.old) bound) values.old values.new }
    ensures last { result ≡ false
        → IsLast (replicate (length values.old) bound) values.old }
{
    for i in (0..values.len()).rev() {
        if values[i] + 1 < bound {
            values[i] += 1;
            return true;
        }
        values[i] = 0;
    }
    false
}
