//! Structures, written as tables.

ghost use Rattle.std.specs.Prelude.{◌≡◌, ◌≤◌, ◌<◌, ◌^◌, ◌∷◌, [], length, OnOk, OnErr};
ghost use Rattle.std.specs.Io.KnownBytes.{Appends};
ghost use Rattle.enc_base.specs.Counts.{Rose};
ghost use Rattle.enc_base.specs.Pending.{Puts};
ghost use Rattle.enc_base.specs.Sink.{AppendsPrefix};
ghost use Rattle.tf_core.specs.TypedTables.{IsWellFormed as IsTyped};
ghost use Rattle.tf_models.specs.Reading.{tables};
ghost use Rattle.fof_models.specs.Structures.{IsWellFormed};
ghost use Rattle.model_tables.specs.Writable.{IsNamed, AreNames};
ghost use Rattle.model_tables.specs.Written.{typed_text, untyped_text};
ghost use Rattle.model_tables.specs.WrittenLaws.{AreNumbers, TellsTyped, TellsUntyped};

use crate::form::Form;
use crate::lines::{put_constructors, put_fof_symbols, put_opening, put_symbols};
use enc_base::{Pending, Sink};
use fof_models::{FofProblem, Structure};
use fof_text::{Names, WriteFault};
use tf_core::Signature;
use tf_models::TypedStructure;

/// Puts the table of a typed structure.
fn put_typed<O: Sink>(
    structure: &TypedStructure,
    signature: &Signature,
    pending: &mut Pending,
    out: &mut O,
)
    requires { IsTyped signature.now (tables structure.now) }
    ensures puts { Puts O.bytes O.faults pending.old pending.new out.old out.new
        (typed_text signature.now structure.now) }
    ensures numbers { AreNumbers structure.now.sizes }
{
    put_opening(Form::Typed, structure.sizes.as_slice(), pending, out);
    put_constructors(
        signature.constructors.as_slice(),
        structure.constructors.as_slice(),
        pending,
        out,
    );
    put_symbols(
        signature.symbols.as_slice(),
        structure.symbols.as_slice(),
        pending,
        out,
    );
}

/// Puts the table of an untyped structure.
fn put_untyped<O: Sink>(
    structure: &Structure,
    problem: &FofProblem,
    names: &Names,
    pending: &mut Pending,
    out: &mut O,
)
    requires well_formed { IsWellFormed problem.now.signature structure.now }
    requires named { length names.now ≡ length problem.now.signature }
    ensures puts { Puts O.bytes O.faults pending.old pending.new out.old out.new
        (untyped_text problem.now.signature names.now structure.now) }
    ensures number { structure.now.size < 2 ^ 32 }
{
    put_opening(Form::Untyped, &[structure.size], pending, out);
    put_fof_symbols(
        problem.signature.as_slice(),
        names.as_slice(),
        structure.tables.as_slice(),
        pending,
        out,
    );
}

/// Writes the table of a typed structure, an item a line, each line ended by a line feed. The text
/// is a table of this structure and of no other.
///
/// Nothing is written after a write that failed. Takes no memory.
pub fn write_typed<O: Sink>(
    structure: &TypedStructure,
    signature: &Signature,
    out: &mut O,
) -> Result<(), WriteFault>
    requires well_formed { IsTyped signature.now (tables structure.now) }
    requires named { IsNamed signature.now }
    ensures table { length structure.now.sizes ≤ 2 ^ 32 →
        TellsTyped (typed_text signature.now structure.now) signature.now structure.now }
    ensures exact { OnOk result
        (Appends (O.bytes out.old) (O.bytes out.new) (typed_text signature.now structure.now)) }
    ensures kept_faults { OnOk result (O.faults out.new ≡ O.faults out.old) }
    ensures cause { OnErr result (Rose (O.faults out.old) (O.faults out.new)) }
    ensures within { OnErr result
        (AppendsPrefix (O.bytes out.old) (O.bytes out.new)
        (typed_text signature.now structure.now)) }
{
    let mut pending = Pending::new();
    put_typed(structure, signature, &mut pending, out);
    match pending.finish(out) {
        Ok(()) => Ok(()),
        Err(_) => Err(WriteFault::Failed),
    }
}

/// Writes the table of an untyped structure, an item a line, each line ended by a line feed. The
/// text is a table of this structure and of no other.
///
/// The names are those of the problem's symbols, in order. Nothing is written after a write that
/// failed. Takes no memory.
pub fn write_untyped<O: Sink>(
    structure: &Structure,
    problem: &FofProblem,
    names: &Names,
    out: &mut O,
) -> Result<(), WriteFault>
    requires well_formed { IsWellFormed problem.now.signature structure.now }
    requires named { AreNames problem.now.signature names.now }
    ensures table { TellsUntyped (untyped_text problem.now.signature names.now structure.now)
        problem.now names.now structure.now }
    ensures exact { OnOk result
        (Appends (O.bytes out.old) (O.bytes out.new)
        (untyped_text problem.now.signature names.now structure.now)) }
    ensures kept_faults { OnOk result (O.faults out.new ≡ O.faults out.old) }
    ensures cause { OnErr result (Rose (O.faults out.old) (O.faults out.new)) }
    ensures within { OnErr result
        (AppendsPrefix (O.bytes out.old) (O.bytes out.new)
        (untyped_text problem.now.signature names.now structure.now)) }
{
    let mut pending = Pending::new();
    put_untyped(structure, problem, names, &mut pending, out);
    match pending.finish(out) {
        Ok(()) => Ok(()),
        Err(_) => Err(WriteFault::Failed),
    }
}
