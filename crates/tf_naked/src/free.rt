//! Which sorts are free.

ghost use Rattle.std.specs.Prelude.{◌≡◌, [], ◌∷◌, true, not, map, length, eqb, List, IfOk, OnOk};
ghost use Rattle.std.specs.List.{list_any};
ghost use Rattle.tf_core.specs.declared.ty.Ty.{Ty};
ghost use Rattle.tf_core.specs.Types.{same_type};
ghost use Rattle.tf_core.specs.Sorts.{joined, sorts};
ghost use Rattle.tf_naked.specs.Naked.{equations_of, is_free};
ghost use Rattle.tf_naked.specs.Calls.Frames.{kinds_of};
ghost use Rattle.tf_naked.specs.Calls.Sets.{IsSetOf, Adds};
ghost use Rattle.tf_naked.specs.Calls.NakedTypes.{naked_types, type_at_side};

use crate::first::first_side;
use crate::kinds::Frames;
use crate::position::Kind;
use crate::set::TypeSet;
use enc_base::{List, NoMemory};
use std::alloc::Global;
use tf_core::{Nnf, Normal, NormalFormula, Ty};

/// For each sort of a problem, whether it is free: whether no naked place has it, or it is the only
/// one. Types have numbers, so that none is looked for in a list.
pub fn free_sorts(alloc: Global, normal: &Normal, listed: &[Ty]) -> Result<List<bool>, NoMemory>
    requires sorts { listed.now ≡ sorts normal.now }
    ensures exact { IfOk result (λ free. free ≡ map (is_free normal.now) listed.now) }
{
    if is_one(listed) {
        return only_free(alloc);
    }
    let mut set = TypeSet::new(alloc);
    mark_in_formulas(normal.formulas.as_slice(), &mut set)?;
    outside(alloc, &mut set, listed)
}

// whether there is one type alone
fn is_one(types: &[Ty]) -> bool
    ensures { result ≡ eqb (length types.now) 1 }
{
    types.len() == 1
}

// that one sort is free
fn only_free(alloc: Global) -> Result<List<bool>, NoMemory>
    ensures { IfOk result (λ free. free ≡ true ∷ []) }
{
    let mut free = List::new(alloc);
    free.push(true)?;
    Ok(free)
}

// for each type whether it isn't in the set
fn outside(alloc: Global, set: &mut TypeSet, types: &[Ty]) -> Result<List<bool>, NoMemory>
    ensures { IfOk result (λ free. (held : List Ty) → IsSetOf set.old held →
        free ≡ map (λ ty. not (list_any (same_type ty) held)) types.now) }
{
    let mut free = List::new(alloc);
    for ty in types {
        let there = set.contains(ty)?;
        free.push(!there)?;
    }
    Ok(free)
}

// puts the types of the naked places of formulas into the set
fn mark_in_formulas(formulas: &[NormalFormula], set: &mut TypeSet) -> Result<(), NoMemory>
    ensures { OnOk result (Adds set.old set.new
        (joined (map (λ formula. naked_types (equations_of formula.body [])) formulas.now))) }
{
    for formula in formulas {
        mark(&formula.body, &Frames::Outside, set)?;
    }
    Ok(())
}

// puts those of a part of a formula into the set
#[cycle(mark)]
fn mark<'f>(part: &Nnf, frames: &'f Frames<'f>, set: &mut TypeSet) -> Result<(), NoMemory>
    ensures { OnOk result (Adds set.old set.new
        (naked_types (equations_of part.now (kinds_of frames.now)))) }
{
    match part {
        Nnf::True => Ok(()),
        Nnf::False => Ok(()),
        Nnf::Atom(_, _, _, _) => Ok(()),
        Nnf::Equation(positive, ty, left, right) => {
            mark_side(first_side(*positive, left, right, frames), ty, set)
        }
        Nnf::And(parts) => mark_in_parts(parts.as_slice(), frames, set),
        Nnf::Or(parts) => mark_in_parts(parts.as_slice(), frames, set),
        Nnf::ForAll(_, body) => mark(body.get(), &Frames::Inside(Kind::Universal, frames), set),
        Nnf::Exists(_, body) => mark(body.get(), &Frames::Inside(Kind::Existential, frames), set),
    }
}

// puts those of parts into the set, one after another
#[cycle(mark)]
fn mark_in_parts<'f>(
    parts: &[Nnf],
    frames: &'f Frames<'f>,
    set: &mut TypeSet,
) -> Result<(), NoMemory>
    ensures { OnOk result (Adds set.old set.new (joined
        (map (λ part. naked_types (equations_of part (kinds_of frames.now))) parts.now))) }
{
    for part in parts {
        mark(part, frames, set)?;
    }
    Ok(())
}

// puts the type of an equation with this first naked side into the set
fn mark_side(side: Option<u32>, ty: &Ty, set: &mut TypeSet) -> Result<(), NoMemory>
    ensures { OnOk result (Adds set.old set.new (type_at_side side ty.now)) }
{
    match side {
        Some(_) => {
            set.insert(ty)?;
            Ok(())
        }
        None => Ok(()),
    }
}
