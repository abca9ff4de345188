ghost use Rattle.std.specs.Prelude.{◌≡◌, ◌<◌, ◌^◌, ◌∷◌, ◌++◌, [], map, length, replicate, Some, IfOk, OnOk};
ghost use Rattle.enc_base.specs.Tables.{EachBelow};
ghost use Rattle.tf_core.specs.Sound.{IsSound, IsSoundNormal};
ghost use Rattle.tf_core.specs.Truth.{truth};
ghost use Rattle.tf_core.specs.TypedTables.{reading, IsWellFormed, AreModel, AreNormalModel};
ghost use Rattle.tf_models.specs.Reading.{tables};
ghost use Rattle.tf_nnf.specs.NormalForm.{normal_of};
ghost use Rattle.tf_nnf.specs.Extension.{is_false_at, AreFirstFalse, IsExtension, without_fresh};
ghost use Rattle.tf_nnf.specs.Laws.{GivesModel};
ghost use Rattle.tf_nnf.specs.Search.{IsRefuted, HasRoom};

use crate::normal::conjecture;
use enc_base::{List, NoMemory, next_tuple_below};
use std::alloc::Global;
use tf_core::{Normal, Problem, Stated};
use tf_models::{Env, TypedStructure};

/// The structure with a table for each fresh constructor: the first tuple of members, in
/// lexicographic order, at which the conjecture's body is false. It is a model of the normal problem.
pub fn to_normal(
    alloc: Global,
    problem: &Problem,
    normal: &Normal,
    structure: &TypedStructure,
) -> Result<TypedStructure, NoMemory>
    requires sound { IsSound problem.now }
    requires normal { normal.now ≡ normal_of problem.now }
    requires members { length structure.now.sizes < 2 ^ 32 }
    requires model { AreModel problem.now (tables structure.now) }
    ensures exact { IfOk result (λ extension. IsExtension problem.now (tables structure.now) (tables extension)) }
    ensures model { IfOk result (λ extension. AreNormalModel normal.now (tables extension)) }
{
    let mut extension = structure.copy(alloc)?;
    if normal.fresh == 0 {
        return Ok(extension);
    }
    if let Some(stated) = conjecture(problem.formulas.as_slice()) {
        let members = first_false(alloc, problem, stated, structure)?;
        add_members(alloc, &mut extension.constructors, &members)?;
    }
    Ok(extension)
}

/// The structure without the tables of the fresh constructors. Of a model of a normal problem it is
/// a model of the problem. It takes no memory.
pub fn from_normal(normal: &Normal, structure: TypedStructure) -> TypedStructure
    requires sound { IsSoundNormal normal.now }
    requires members { length structure.sizes < 2 ^ 32 }
    requires well_formed { IsWellFormed normal.now.signature (tables structure) }
    ensures exact { tables result ≡ without_fresh normal.now (tables structure) }
    ensures model { GivesModel normal.now (tables structure) (tables result) }
{
    let TypedStructure {
        sizes,
        constructors,
        symbols,
    } = structure;
    let mut kept = constructors.into_vec();
    let count = kept.len() - normal.fresh as usize;
    kept.truncate(count);
    TypedStructure {
        sizes,
        constructors: List::from_vec(kept),
        symbols,
    }
}

// the first members for the type variables of the conjecture at which its body is false
fn first_false(
    alloc: Global,
    problem: &Problem,
    stated: &Stated,
    structure: &TypedStructure,
) -> Result<Vec<u32>, NoMemory>
    requires refuted { IsRefuted problem.now structure.now stated.now }
    ensures { IfOk result (λ members. AreFirstFalse (reading problem.now.signature (tables structure.now)) (Some stated.now) members.items) }
{
    let mut env = Env::new(alloc, problem.most_types(), problem.most_terms())?;
    let Ok(mut members) = vec![in alloc; 0; stated.type_variables as usize] else {
        return Err(NoMemory);
    };
    let bound = structure.sizes.as_slice().len() as u32;
    while is_true(problem, stated, structure, &members, &mut env) {
        next_tuple_below(&mut members, bound);
    }
    Ok(members)
}

// whether the conjecture's body is true at members for its type variables
fn is_true(
    problem: &Problem,
    stated: &Stated,
    structure: &TypedStructure,
    members: &[u32],
    env: &mut Env,
) -> bool
    requires refuted { IsRefuted problem.now structure.now stated.now }
    requires below { EachBelow (replicate stated.now.type_variables (length structure.now.sizes)) members.now }
    requires room { HasRoom problem.now env.old }
    ensures exact { result ≡ truth (reading problem.now.signature (tables structure.now)) members.now stated.now.body [] }
    ensures room { HasRoom problem.now env.new }
{
    env.set_types(members);
    structure.holds(&problem.signature, &stated.body, env)
}

// adds a table for each member, a constructor's without arguments
fn add_members(
    alloc: Global,
    constructors: &mut List<List<u32>>,
    members: &[u32],
) -> Result<(), NoMemory>
    ensures { OnOk result (constructors.new ≡ constructors.old ++ map (λ member. member ∷ []) members.now) }
{
    for member in members {
        let mut table = List::new(alloc);
        table.push(*member)?;
        constructors.push(table)?;
    }
    Ok(())
}
