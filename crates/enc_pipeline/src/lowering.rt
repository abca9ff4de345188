ghost use Rattle.std.specs.Prelude.{◌≡◌, ◌<◌, ◌^◌, ℕ, List, length, OnOk, IfOk, IfErr};
ghost use Rattle.std.specs.Io.KnownBytes.{Appends};
ghost use Rattle.tf_core.specs.TypedTables.{AreModel, AreNormalModel};
ghost use Rattle.tf_models.specs.Reading.{tables};
ghost use Rattle.tf_nnf.specs.Extension.{IsExtension};
ghost use Rattle.enc_pipeline.specs.Carried.{source_normal, IsLoweredTo, IsUnlowered};
ghost use Rattle.enc_pipeline.specs.Calls.Carrying.{IsLowered, IsNotLowered, IsLoweredFrom};
ghost use Rattle.enc_pipeline.specs.Stopped.{IsStopped, UnlessMemory};

use crate::checking::typed_model;
use crate::schemes::lower;
use crate::{Fault, Prepared};
use enc_base::{NoMemory, Sink};
use enc_marks::Refusal;
use fof_models::Structure;
use fof_text::WriteFault;
use model_tables::write_untyped;
use std::alloc::Global;
use tf_models::TypedStructure;
use tf_nnf::to_normal;

/// The extension of a model to the normal problem.
fn extended(
    alloc: Global,
    prepared: &Prepared,
    model: TypedStructure,
) -> Result<TypedStructure, Fault>
    requires model { AreModel prepared.now.problem (tables model) }
    requires few { length model.sizes < 2 ^ 32 }
    ensures exact { IfOk result (λ extension.
        IsExtension prepared.now.problem (tables model) (tables extension)) }
    ensures model { IfOk result (λ extension.
        AreNormalModel (source_normal prepared.now) (tables extension)) }
    ensures few { IfOk result (λ extension. length extension.sizes < 2 ^ 32) }
    ensures cause { IfErr result (λ fault. fault ≡ Fault.Memory) }
{
    match to_normal(alloc, prepared.problem(), prepared.normal(), &model) {
        Ok(extension) => Ok(extension),
        Err(NoMemory) => Err(Fault::Memory),
    }
}

/// The lowered structure of the extension of a model. The model is dropped before it is made.
fn lowered(alloc: Global, prepared: &Prepared, model: TypedStructure) -> Result<Structure, Fault>
    requires model { AreModel prepared.now.problem (tables model) }
    requires few { length model.sizes < 2 ^ 32 }
    ensures exact { IfOk result (IsLowered prepared.now (tables model)) }
    ensures refused { IfErr result (UnlessMemory (IsNotLowered prepared.now (tables model))) }
{
    let extension = extended(alloc, prepared, model)?;
    match lower(
        alloc,
        prepared.scheme(),
        prepared.normal(),
        prepared.encoded(),
        &extension,
    ) {
        Ok(structure) => Ok(structure),
        Err(Refusal::Memory) => Err(Fault::Memory),
        Err(refusal) => Err(Fault::Scheme(refusal)),
    }
}

/// The lowered structure of the model of which the text is a typed table.
fn lowered_from(alloc: Global, prepared: &Prepared, table: &[u8]) -> Result<Structure, Fault>
    ensures exact { IfOk result (IsLoweredFrom prepared.now table.now) }
    ensures refused { IfErr result (UnlessMemory (IsUnlowered prepared.now table.now)) }
{
    let model = typed_model(alloc, prepared.problem(), table)?;
    match lowered(alloc, prepared, model) {
        Ok(structure) => Ok(structure),
        Err(fault) => Err(fault),
    }
}

/// Writes the untyped table of the model of the translation that a model of the problem gives,
/// where the text is a typed table of it.
pub fn lower_file<O: Sink>(
    alloc: Global,
    prepared: &Prepared,
    table: &[u8],
    out: &mut O,
) -> Result<(), Fault>
    ensures exact { OnOk result ((output : List ℕ) × IsLoweredTo prepared.now table.now output
        × Appends (O.bytes out.old) (O.bytes out.new) output) }
    ensures kept_faults { OnOk result (O.faults out.new ≡ O.faults out.old) }
    ensures stopped { IfErr result (IsStopped (IsUnlowered prepared.now table.now)
        (IsLoweredTo prepared.now table.now)
        (O.bytes out.old) (O.bytes out.new)
        (O.faults out.old) (O.faults out.new)) }
{
    let structure = lowered_from(alloc, prepared, table)?;
    match write_untyped(
        &structure,
        &prepared.encoded().problem,
        prepared.names(),
        out,
    ) {
        Ok(()) => Ok(()),
        Err(WriteFault::Failed) => Err(Fault::Write),
    }
}
