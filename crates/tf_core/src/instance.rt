//! Types compared with instances of types, which are not built.

ghost use Rattle.std.specs.Prelude.{◌≡◌, ◌↔◌, IsTrue, map};
ghost use Rattle.tf_core.specs.declared.ty.Ty.TheVariants.{Var};
ghost use Rattle.tf_core.specs.Types.{instantiate};

use crate::ty::Ty;

/// Whether the type, with its variables replaced in order, is the other type. The instance is not
/// built, and no more is read of it than the other type has nodes.
#[cycle(is_instance)]
pub fn is_instance(ty: &Ty, types: &[Ty], other: &Ty) -> bool
    ensures { IsTrue result ↔ (instantiate types.now ty.now ≡ other.now) }
{
    match ty {
        Ty::Var(i) => replacement(*i, ty, types).same(other),
        Ty::Apply(c, arguments) => match other {
            Ty::Var(_) => false,
            Ty::Apply(d, others) => {
                *c == *d && are_instances(arguments.as_slice(), types, others.as_slice())
            }
        },
    }
}

// the same of lists of types
#[cycle(is_instance)]
fn are_instances(items: &[Ty], types: &[Ty], others: &[Ty]) -> bool
    ensures { IsTrue result ↔ (map (instantiate types.now) items.now ≡ others.now) }
{
    if items.len() != others.len() {
        return false;
    }
    for (i, item) in items.iter().enumerate() {
        if !is_instance(item, types, &others[i]) {
            return false;
        }
    }
    true
}

/// Whether two types, each with its variables replaced in order, are equal. Neither instance is
/// built.
#[cycle(same_instance)]
pub fn same_instance(ty: &Ty, types: &[Ty], other: &Ty, others: &[Ty]) -> bool
    ensures { IsTrue result ↔ (instantiate types.now ty.now ≡ instantiate others.now other.now) }
{
    match ty {
        Ty::Var(i) => is_instance(other, others, replacement(*i, ty, types)),
        Ty::Apply(c, arguments) => match other {
            Ty::Var(j) => is_instance(ty, types, replacement(*j, other, others)),
            Ty::Apply(d, items) => {
                *c == *d && same_instances(arguments.as_slice(), types, items.as_slice(), others)
            }
        },
    }
}

// the same of lists of types
#[cycle(same_instance)]
fn same_instances(items: &[Ty], types: &[Ty], other_items: &[Ty], others: &[Ty]) -> bool
    ensures { IsTrue result ↔ (map (instantiate types.now) items.now ≡ map (instantiate others.now) other_items.now) }
{
    if items.len() != other_items.len() {
        return false;
    }
    for (i, item) in items.iter().enumerate() {
        if !same_instance(item, types, &other_items[i], others) {
            return false;
        }
    }
    true
}

// what a type variable is replaced by: the type in its place, or the variable itself
fn replacement<'a>(i: u32, variable: &'a Ty, types: &'a [Ty]) -> &'a Ty
    requires { variable.now ≡ Var i }
    ensures { result.now ≡ instantiate types.now variable.now }
{
    match types.get(i as usize) {
        Some(ty) => ty,
        None => variable,
    }
}
