//! What calls need first, each with what is known of it. Refusals are in words.

ghost use Rattle.std.specs.Prelude.{◌≡◌, ◌<◌, ◌^◌, ◌↔◌, None, length, IfOk};
ghost use Rattle.tf_core.specs.Sound.{IsSound, IsSoundNormal};
ghost use Rattle.tf_core.specs.TypedTables.{IsWellFormed, AreModel, AreNormalModel};
ghost use Rattle.tf_check.specs.Writable.{HasWritableNames};
ghost use Rattle.tf_models.specs.Reading.{tables};
ghost use Rattle.tf_nnf.specs.NormalForm.{normal_of};
ghost use Rattle.enc_pipeline.specs.Distinct.{HasDistinctNames};

use crate::refusals::{no_model, stopped, unnormal, untabled};
use crate::stop::Stop;
use enc_pipeline::read_problem;
use model_tables::read_typed;
use std::alloc::Global;
use tf_core::{Normal, Problem};
use tf_models::{Env, TypedStructure};
use tf_nnf::{normalise, to_normal};

/// The problem of a text.
pub fn problem_of(alloc: Global, text: &[u8]) -> Result<Problem, Stop>
    ensures sound { IfOk result IsSound }
    ensures named { IfOk result HasWritableNames }
    ensures distinct { IfOk result HasDistinctNames }
{
    match read_problem(alloc, text) {
        Ok(problem) => Ok(problem),
        Err(fault) => Err(stopped(alloc, &fault)),
    }
}

/// The normal problem of a problem.
pub fn normal_of(alloc: Global, problem: &Problem) -> Result<Normal, Stop>
    requires sound { IsSound problem.now }
    ensures exact { IfOk result (λ normal. normal ≡ normal_of problem.now) }
    ensures sound { IfOk result IsSoundNormal }
{
    match normalise(alloc, problem) {
        Ok(normal) => Ok(normal),
        Err(reason) => Err(unnormal(alloc, &reason)),
    }
}

/// The structure of a typed table.
pub fn structure_of(alloc: Global, problem: &Problem, table: &[u8]) -> Result<TypedStructure, Stop>
    requires sound { IsSound problem.now }
    requires distinct { HasDistinctNames problem.now }
    ensures well_formed { IfOk result (λ s. IsWellFormed problem.now.signature (tables s)) }
    ensures few { IfOk result (λ s. length s.sizes < 2 ^ 32) }
{
    match read_typed(alloc, table, &problem.signature) {
        Ok(structure) => Ok(structure),
        Err(reason) => Err(untabled(alloc, &reason)),
    }
}

/// The first formula that is not as stated.
pub fn first_false_of(
    alloc: Global,
    problem: &Problem,
    structure: &TypedStructure,
) -> Result<Option<usize>, Stop>
    requires sound { IsSound problem.now }
    requires well_formed { IsWellFormed problem.now.signature (tables structure.now) }
    requires few { length structure.now.sizes < 2 ^ 32 }
    ensures { IfOk result (λ first. (first ≡ None) ↔ AreModel problem.now (tables structure.now)) }
{
    let mut env = Env::new(alloc, problem.most_types(), problem.most_terms())?;
    Ok(structure.first_false(problem, &mut env))
}

/// The model of a typed table.
pub fn model_of(alloc: Global, problem: &Problem, table: &[u8]) -> Result<TypedStructure, Stop>
    requires sound { IsSound problem.now }
    requires distinct { HasDistinctNames problem.now }
    ensures model { IfOk result (λ s. AreModel problem.now (tables s)) }
    ensures few { IfOk result (λ s. length s.sizes < 2 ^ 32) }
{
    let structure = structure_of(alloc, problem, table)?;
    match first_false_of(alloc, problem, &structure)? {
        None => Ok(structure),
        Some(formula) => Err(no_model(alloc, formula)),
    }
}

/// The model of the normal problem that a model of the problem gives.
pub fn extension_of(
    alloc: Global,
    problem: &Problem,
    normal: &Normal,
    model: &TypedStructure,
) -> Result<TypedStructure, Stop>
    requires sound { IsSound problem.now }
    requires normal { normal.now ≡ normal_of problem.now }
    requires few { length model.now.sizes < 2 ^ 32 }
    requires model { AreModel problem.now (tables model.now) }
    ensures model { IfOk result (λ s. AreNormalModel normal.now (tables s)) }
    ensures few { IfOk result (λ s. length s.sizes < 2 ^ 32) }
{
    let extension = to_normal(alloc, problem, normal, model)?;
    if extension.sizes.as_slice().len() > u32::MAX as usize {
        return Err(Stop::Shape);
    }
    Ok(extension)
}
