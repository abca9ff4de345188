//! Whether the variables of a term can be raised.

ghost use Rattle.std.specs.Prelude.{◌≡◌, ◌^◌, ltb};
ghost use Rattle.std.specs.List.{list_all};
ghost use Rattle.tf_core.specs.Substitution.{raised, shift, variables_below};

use tf_core::Term;

/// Whether each variable of the term stays below 2^32 where those from a bound on are raised.
#[cycle(is_below)]
pub fn is_below(term: &Term, by: u32, from: u32) -> bool
    ensures { result ≡ variables_below (2 ^ 32) (shift by from term.now) }
{
    match term {
        Term::Var(i) => stays_below(*i, by, from),
        Term::Apply(_, _, terms) => all_below(terms.as_slice(), by, from),
    }
}

#[cycle(is_below)]
fn all_below(terms: &[Term], by: u32, from: u32) -> bool
    ensures { result ≡ list_all (λ t. variables_below (2 ^ 32) (shift by from t)) terms.now }
{
    for term in terms {
        if !is_below(term, by, from) {
            return false;
        }
    }
    true
}

fn stays_below(i: u32, by: u32, from: u32) -> bool
    ensures { result ≡ ltb (raised by from i) (2 ^ 32) }
{
    if i < from {
        return true;
    }
    u64::from(i) + u64::from(by) < 1 << 32
}
