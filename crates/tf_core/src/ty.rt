ghost use Rattle.std.specs.Prelude.{◌≡◌, ◌↔◌, IsTrue, IfOk, map, get_or};
ghost use Rattle.tf_core.specs.declared.ty.Ty.TheVariants.{Var};
ghost use Rattle.tf_core.specs.Types.{instantiate};

use enc_base::{List, NoMemory};
use std::alloc::Global;

/// A type: a type variable, or a constructor applied to types.
///
/// `Var(i)` is the i-th type variable of its formula's prefix, or the i-th parameter of its symbol.
/// `Apply(c, types)` names the c-th constructor of the signature.
#[derive(Debug, Drop)]
pub enum Ty {
    Var(u32),
    Apply(u32, List<Ty>),
}

impl Ty {
    /// An equal type.
    #[cycle(copy_type)]
    pub fn copy(&self, alloc: Global) -> Result<Ty, NoMemory>
        ensures { IfOk result (λ copied. copied ≡ self.now) }
    {
        match self {
            Ty::Var(i) => Ok(Ty::Var(*i)),
            Ty::Apply(c, types) => Ok(Ty::Apply(*c, copy_types(alloc, types.as_slice())?)),
        }
    }

    /// Whether the two are equal.
    #[cycle(same_type)]
    pub fn same(&self, other: &Ty) -> bool
        ensures { IsTrue result ↔ (self.now ≡ other.now) }
    {
        match (self, other) {
            (Ty::Var(i), Ty::Var(j)) => *i == *j,
            (Ty::Apply(c, types), Ty::Apply(d, others)) => {
                *c == *d && same_types(types.as_slice(), others.as_slice())
            }
            _ => false,
        }
    }

    /// The type with its variables replaced, the i-th by the i-th of the types. A variable beyond
    /// them stays as it is.
    #[cycle(instantiate)]
    pub fn instantiate(&self, alloc: Global, types: &[Ty]) -> Result<Ty, NoMemory>
        ensures exact { IfOk result (λ ty. ty ≡ instantiate types.now self.now) }
    {
        match self {
            Ty::Var(i) => instance_of(alloc, *i, types),
            Ty::Apply(c, arguments) => {
                let arguments = instances_of(alloc, arguments.as_slice(), types)?;
                Ok(Ty::Apply(*c, arguments))
            }
        }
    }
}

// what a type variable is replaced by
fn instance_of(alloc: Global, i: u32, types: &[Ty]) -> Result<Ty, NoMemory>
    ensures { IfOk result (λ ty. ty ≡ get_or types.now i (Var i)) }
{
    match types.get(i as usize) {
        Some(ty) => ty.copy(alloc),
        None => Ok(Ty::Var(i)),
    }
}

/// Each of the types with its variables replaced.
#[cycle(instantiate)]
pub fn instances_of(alloc: Global, arguments: &[Ty], types: &[Ty]) -> Result<List<Ty>, NoMemory>
    ensures { IfOk result (λ instances. instances ≡ map (instantiate types.now) arguments.now) }
{
    let mut instances = List::new(alloc);
    for argument in arguments {
        instances.push(argument.instantiate(alloc, types)?)?;
    }
    Ok(instances)
}

/// Equal types.
#[cycle(copy_type)]
pub fn copy_types(alloc: Global, types: &[Ty]) -> Result<List<Ty>, NoMemory>
    ensures { IfOk result (λ copied. copied ≡ types.now) }
{
    let mut copied = List::new(alloc);
    for ty in types {
        copied.push(ty.copy(alloc)?)?;
    }
    Ok(copied)
}

/// Whether the two lists are equal.
#[cycle(same_type)]
pub fn same_types(types: &[Ty], others: &[Ty]) -> bool
    ensures { IsTrue result ↔ (types.now ≡ others.now) }
{
    if types.len() != others.len() {
        return false;
    }
    for (i, ty) in types.iter().enumerate() {
        if !ty.same(&others[i]) {
            return false;
        }
    }
    true
}
