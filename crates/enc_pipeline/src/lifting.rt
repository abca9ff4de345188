ghost use Rattle.std.specs.Prelude.{◌≡◌, ◌≤◌, ◌↔◌, ℕ, List, None, OnOk, IfOk, IfErr, IfSome};
ghost use Rattle.std.specs.Io.KnownBytes.{Appends};
ghost use Rattle.enc_base.specs.Counts.{most_entries};
ghost use Rattle.fof_models.specs.Models.{AreModel, IsFirstFalse};
ghost use Rattle.fof_models.specs.Structures.{reading, IsWellFormed};
ghost use Rattle.model_tables.specs.Untyped.{IsUntypedTable, structure_entries};
ghost use Rattle.enc_pipeline.specs.Carried.{translation, names};
ghost use Rattle.enc_pipeline.specs.Carried.{IsTableOfUntypedModel, IsNoUntypedModel, IsLiftedTo, IsUnlifted};
ghost use Rattle.enc_pipeline.specs.Calls.Carrying.{IsLifted, IsNotLifted, IsLiftedFrom};
ghost use Rattle.enc_pipeline.specs.Stopped.{IsStopped, UnlessMemory};

use crate::schemes::lift;
use crate::{Fault, Prepared};
use enc_base::Sink;
use enc_marks::Refusal;
use fof_models::{FofEnv, Structure};
use fof_text::WriteFault;
use model_tables::{TableError, read_untyped, write_typed};
use std::alloc::Global;
use tf_models::TypedStructure;
use tf_nnf::from_normal;

/// The structure of which the text is an untyped table.
fn structure_of(alloc: Global, prepared: &Prepared, table: &[u8]) -> Result<Structure, Fault>
    ensures exact { IfOk result
        (IsUntypedTable table.now (translation prepared.now) (names prepared.now)) }
    ensures within { IfOk result (λ structure. structure_entries structure ≤ most_entries) }
    ensures refused { IfErr result (UnlessMemory (IsNoUntypedModel prepared.now table.now)) }
{
    match read_untyped(alloc, table, &prepared.encoded().problem, prepared.names()) {
        Ok(structure) => Ok(structure),
        Err(TableError::Memory) => Err(Fault::Memory),
        Err(reason) => Err(Fault::Table(reason)),
    }
}

/// The index of the first formula that isn't true in a structure.
fn first_false(
    alloc: Global,
    prepared: &Prepared,
    structure: &Structure,
) -> Result<Option<usize>, Fault>
    requires well_formed { IsWellFormed (translation prepared.now).signature structure.now }
    ensures exact { IfOk result (λ first.
        (first ≡ None) ↔ AreModel (translation prepared.now) structure.now) }
    ensures least { IfOk result (λ first. IfSome first
        (IsFirstFalse (reading structure.now) (translation prepared.now).formulas)) }
    ensures cause { IfErr result (λ fault. fault ≡ Fault.Memory) }
{
    let encoded = prepared.encoded();
    match FofEnv::new(alloc, encoded.problem.most_terms()) {
        Ok(mut env) => Ok(structure.first_false(&encoded.problem, &mut env)),
        Err(_) => Err(Fault::Memory),
    }
}

/// The model of the translation of which the text is an untyped table.
fn untyped_model(alloc: Global, prepared: &Prepared, table: &[u8]) -> Result<Structure, Fault>
    ensures exact { IfOk result (IsTableOfUntypedModel table.now prepared.now) }
    ensures refused { IfErr result (UnlessMemory (IsNoUntypedModel prepared.now table.now)) }
{
    let structure = structure_of(alloc, prepared, table)?;
    match first_false(alloc, prepared, &structure) {
        Ok(None) => Ok(structure),
        Ok(Some(formula)) => Err(Fault::NotModel { formula }),
        Err(fault) => Err(fault),
    }
}

/// The model of the problem that a model of its translation gives.
fn lifted(alloc: Global, prepared: &Prepared, model: &Structure) -> Result<TypedStructure, Fault>
    requires model { AreModel (translation prepared.now) model.now }
    ensures exact { IfOk result (IsLifted prepared.now model.now) }
    ensures refused { IfErr result (UnlessMemory (IsNotLifted prepared.now model.now)) }
{
    let normal = prepared.normal();
    match lift(alloc, prepared.scheme(), normal, prepared.encoded(), model) {
        Ok(structure) => Ok(from_normal(normal, structure)),
        Err(Refusal::Memory) => Err(Fault::Memory),
        Err(refusal) => Err(Fault::Scheme(refusal)),
    }
}

/// The model of the problem that the model gives of which the text is an untyped table.
fn lifted_from(alloc: Global, prepared: &Prepared, table: &[u8]) -> Result<TypedStructure, Fault>
    ensures exact { IfOk result (IsLiftedFrom prepared.now table.now) }
    ensures refused { IfErr result (UnlessMemory (IsUnlifted prepared.now table.now)) }
{
    let model = untyped_model(alloc, prepared, table)?;
    match lifted(alloc, prepared, &model) {
        Ok(structure) => Ok(structure),
        Err(fault) => Err(fault),
    }
}

/// Writes the typed table of the model of the problem that a model of its translation gives, where
/// the text is an untyped table of that.
pub fn lift_file<O: Sink>(
    alloc: Global,
    prepared: &Prepared,
    table: &[u8],
    out: &mut O,
) -> Result<(), Fault>
    ensures exact { OnOk result ((output : List ℕ) × IsLiftedTo prepared.now table.now output
        × Appends (O.bytes out.old) (O.bytes out.new) output) }
    ensures kept_faults { OnOk result (O.faults out.new ≡ O.faults out.old) }
    ensures stopped { IfErr result (IsStopped (IsUnlifted prepared.now table.now)
        (IsLiftedTo prepared.now table.now)
        (O.bytes out.old) (O.bytes out.new)
        (O.faults out.old) (O.faults out.new)) }
{
    let structure = lifted_from(alloc, prepared, table)?;
    match write_typed(&structure, &prepared.problem().signature, out) {
        Ok(()) => Ok(()),
        Err(WriteFault::Failed) => Err(Fault::Write),
    }
}
