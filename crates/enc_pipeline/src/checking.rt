ghost use Rattle.std.specs.Prelude.{◌≡◌, ◌≤◌, ◌<◌, ◌^◌, ◌↔◌, ℕ, List, length, None, OnOk, IfOk, IfErr, IfSome};
ghost use Rattle.std.specs.Io.KnownBytes.{Appends};
ghost use Rattle.enc_base.specs.Counts.{most_entries};
ghost use Rattle.tf_core.specs.Sound.{IsSound};
ghost use Rattle.tf_core.specs.TypedTables.{reading, IsWellFormed, AreModel};
ghost use Rattle.tf_models.specs.declared.structure.TypedStructure.{TypedStructure};
ghost use Rattle.tf_models.specs.Reading.{tables};
ghost use Rattle.tf_models.specs.FirstFalse.{IsFirstFalse};
ghost use Rattle.model_tables.specs.Typed.{IsTypedTable, structure_entries};
ghost use Rattle.enc_pipeline.specs.Carried.{IsTableOfModel, IsNoModel, IsCheckedTo, model_line};
ghost use Rattle.enc_pipeline.specs.Distinct.{HasDistinctNames};
ghost use Rattle.enc_pipeline.specs.Stopped.{IsStopped, UnlessMemory};

use crate::Fault;
use enc_base::{Failed, Sink};
use model_tables::{TableError, read_typed};
use std::alloc::Global;
use tf_core::Problem;
use tf_models::{Env, TypedStructure};

/// The structure of which the text is a typed table.
fn structure_of(alloc: Global, problem: &Problem, table: &[u8]) -> Result<TypedStructure, Fault>
    requires sound { IsSound problem.now }
    requires distinct { HasDistinctNames problem.now }
    ensures exact { IfOk result (IsTypedTable table.now problem.now.signature) }
    ensures within { IfOk result (λ structure. structure_entries structure ≤ most_entries) }
    ensures few { IfOk result (λ structure. length structure.sizes < 2 ^ 32) }
    ensures refused { IfErr result (UnlessMemory (IsNoModel problem.now table.now)) }
{
    match read_typed(alloc, table, &problem.signature) {
        Ok(structure) => Ok(structure),
        Err(TableError::Memory) => Err(Fault::Memory),
        Err(reason) => Err(Fault::Table(reason)),
    }
}

/// The index of the first formula that isn't as it should be in a structure.
fn first_false(
    alloc: Global,
    problem: &Problem,
    structure: &TypedStructure,
) -> Result<Option<usize>, Fault>
    requires sound { IsSound problem.now }
    requires well_formed { IsWellFormed problem.now.signature (tables structure.now) }
    requires few { length structure.now.sizes < 2 ^ 32 }
    ensures exact { IfOk result (λ first.
        (first ≡ None) ↔ AreModel problem.now (tables structure.now)) }
    ensures least { IfOk result (λ first. IfSome first
        (IsFirstFalse (reading problem.now.signature (tables structure.now))
        problem.now.formulas)) }
    ensures cause { IfErr result (λ fault. fault ≡ Fault.Memory) }
{
    match Env::new(alloc, problem.most_types(), problem.most_terms()) {
        Ok(mut env) => Ok(structure.first_false(problem, &mut env)),
        Err(_) => Err(Fault::Memory),
    }
}

/// The model of a problem of which the text is a typed table.
pub(crate) fn typed_model(
    alloc: Global,
    problem: &Problem,
    table: &[u8],
) -> Result<TypedStructure, Fault>
    requires sound { IsSound problem.now }
    requires distinct { HasDistinctNames problem.now }
    ensures exact { IfOk result (IsTableOfModel table.now problem.now) }
    ensures few { IfOk result (λ model. length model.sizes < 2 ^ 32) }
    ensures refused { IfErr result (UnlessMemory (IsNoModel problem.now table.now)) }
{
    let structure = structure_of(alloc, problem, table)?;
    match first_false(alloc, problem, &structure) {
        Ok(None) => Ok(structure),
        Ok(Some(formula)) => Err(Fault::NotModel { formula }),
        Err(fault) => Err(fault),
    }
}

/// Writes `model` and a line feed where the text is a typed table of a model of the problem.
///
/// The problem is to be sound and its names to tell its symbols apart, which holds of each problem
/// that is read.
pub fn check_file<O: Sink>(
    alloc: Global,
    problem: &Problem,
    table: &[u8],
    out: &mut O,
) -> Result<(), Fault>
    requires sound { IsSound problem.now }
    requires distinct { HasDistinctNames problem.now }
    ensures exact { OnOk result (Appends (O.bytes out.old) (O.bytes out.new) model_line) }
    ensures model { OnOk result
        ((model : TypedStructure) × IsTableOfModel table.now problem.now model) }
    ensures kept_faults { OnOk result (O.faults out.new ≡ O.faults out.old) }
    ensures stopped { IfErr result (IsStopped (IsNoModel problem.now table.now)
        (IsCheckedTo problem.now table.now)
        (O.bytes out.old) (O.bytes out.new)
        (O.faults out.old) (O.faults out.new)) }
{
    typed_model(alloc, problem, table)?;
    match out.write(b"model\n") {
        Ok(()) => Ok(()),
        Err(Failed) => Err(Fault::Write),
    }
}
