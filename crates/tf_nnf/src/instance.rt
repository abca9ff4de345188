ghost use Rattle.std.specs.Prelude.{◌≡◌, ◌+◌, ◌≤◌, ◌^◌, map, IfOk};
ghost use Rattle.tf_core.specs.Types.{instantiate};
ghost use Rattle.tf_core.specs.Substitution.{substitute_term};
ghost use Rattle.tf_nnf.specs.NormalForm.{fresh_types};

use enc_base::{List, NoMemory};
use std::alloc::Global;
use tf_core::{Term, Ty};

/// The fresh constructors that stand for the first type variables: so many, beginning at `first`.
#[derive(Clone, Copy)]
pub struct Fresh {
    pub first: u32,
    pub count: u32,
    ghost within: { first + count ≤ 2 ^ 32 },
}

/// A copy of the type with fresh constructors in place of its variables; others are kept.
#[cycle(instance)]
pub fn instance(alloc: Global, fresh: Fresh, ty: &Ty) -> Result<Ty, NoMemory>
    ensures { IfOk result (λ made. made ≡ instantiate (fresh_types fresh.first fresh.count) ty.now) }
{
    match ty {
        Ty::Var(i) => Ok(variable(alloc, fresh, *i)),
        Ty::Apply(c, types) => Ok(Ty::Apply(*c, instances(alloc, fresh, types.as_slice())?)),
    }
}

fn variable(alloc: Global, fresh: Fresh, i: u32) -> Ty
    ensures { result ≡ instantiate (fresh_types fresh.first fresh.count) (Ty.Var i) }
{
    if i < fresh.count {
        Ty::Apply(fresh.first + i, List::new(alloc))
    } else {
        Ty::Var(i)
    }
}

/// Copies of types with fresh constructors in place of their variables.
#[cycle(instance)]
pub fn instances(alloc: Global, fresh: Fresh, types: &[Ty]) -> Result<List<Ty>, NoMemory>
    ensures { IfOk result (λ made. made ≡ map (instantiate (fresh_types fresh.first fresh.count)) types.now) }
{
    let mut made = List::new(alloc);
    for ty in types {
        made.push(instance(alloc, fresh, ty)?)?;
    }
    Ok(made)
}

/// A copy of the term with fresh constructors in place of type variables.
#[cycle(term_instance)]
pub fn term_instance(alloc: Global, fresh: Fresh, term: &Term) -> Result<Term, NoMemory>
    ensures { IfOk result (λ made. made ≡ substitute_term (fresh_types fresh.first fresh.count) term.now) }
{
    match term {
        Term::Var(i) => Ok(Term::Var(*i)),
        Term::Apply(f, types, terms) => {
            let types = instances(alloc, fresh, types.as_slice())?;
            let terms = term_instances(alloc, fresh, terms.as_slice())?;
            Ok(Term::Apply(*f, types, terms))
        }
    }
}

/// Copies of terms with fresh constructors in place of type variables.
#[cycle(term_instance)]
pub fn term_instances(alloc: Global, fresh: Fresh, terms: &[Term]) -> Result<List<Term>, NoMemory>
    ensures { IfOk result (λ made. made ≡ map (substitute_term (fresh_types fresh.first fresh.count)) terms.now) }
{
    let mut made = List::new(alloc);
    for term in terms {
        made.push(term_instance(alloc, fresh, term)?)?;
    }
    Ok(made)
}
