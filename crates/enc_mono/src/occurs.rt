//! Which type variables occur in types.

ghost use Rattle.std.specs.Prelude.{◌≡◌};
ghost use Rattle.tf_core.specs.Occurrences.{occurs_in_type, occurs_in_types};

use tf_core::Ty;

/// Whether a type variable occurs in a type.
#[cycle(occurs)]
pub(crate) fn occurs(ty: &Ty, i: usize) -> bool
    ensures { result ≡ occurs_in_type i ty.now }
{
    match ty {
        Ty::Var(j) => i == *j as usize,
        Ty::Apply(_, types) => occurs_in_some(types.as_slice(), i),
    }
}

// whether it occurs in some of the types
#[cycle(occurs)]
fn occurs_in_some(types: &[Ty], i: usize) -> bool
    ensures { result ≡ occurs_in_types i types.now }
{
    for ty in types {
        if occurs(ty, i) {
            return true;
        }
    }
    false
}
