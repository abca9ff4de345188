//! Untyped structures.

ghost use Rattle.fof_models.specs.Sound.{IsSound};
ghost use Rattle.fof_models.specs.Structures.{IsWellFormed};
ghost use Rattle.fof_text.specs.States.{AreNamed};

use crate::arguments::numbers;
use crate::call::Call;
use crate::encoding::{Encoding, encoding_in, first_false_in, untyped_of};
use crate::models::{ROOM, put_first};
use crate::out::Out;
use crate::put_tables::put_untyped;
use crate::stop::Stop;
use enc_base::{List, MemorySink};
use fof_models::{FofFormula, FofProblem, Structure, copy_symbols};
use model_tables::write_untyped;
use std::alloc::Global;

/// Whether the call is one of this layer, which is then made.
pub fn answer(name: &[u8], call: &mut Call<'_>, out: &mut Out) -> Result<bool, Stop> {
    match name {
        b"untyped_table" => table(call, out)?,
        b"write_untyped" => write(call, out)?,
        b"untyped_well_formed" => well_formed(call, out)?,
        b"untyped_first_false" => first_false(call, out)?,
        b"untyped_truths" => truths(call, out)?,
        _ => return Ok(false),
    }
    Ok(true)
}

fn table(call: &mut Call<'_>, out: &mut Out) -> Result<(), Stop> {
    let encoding = encoding_in(call)?;
    put_table(out, &encoding, call.untyped())
}

fn put_table(out: &mut Out, encoding: &Encoding, table: &[u8]) -> Result<(), Stop>
    requires named { AreNamed encoding.now.names encoding.now.encoded.problem }
{
    let structure = untyped_of(out.alloc, encoding, table)?;
    let signature = encoding.encoded.problem.signature.as_slice();
    put_untyped(out, signature, &encoding.names, &structure);
    Ok(())
}

fn write(call: &mut Call<'_>, out: &mut Out) -> Result<(), Stop> {
    let encoding = encoding_in(call)?;
    put_rewritten(out, &encoding, call.untyped())
}

// the table that is written of the structure of a table
fn put_rewritten(out: &mut Out, encoding: &Encoding, table: &[u8]) -> Result<(), Stop>
    requires named { AreNamed encoding.now.names encoding.now.encoded.problem }
{
    let structure = untyped_of(out.alloc, encoding, table)?;
    put_written(out, encoding, &structure)
}

// the table that is written of a structure
fn put_written(out: &mut Out, encoding: &Encoding, structure: &Structure) -> Result<(), Stop>
    requires named { AreNamed encoding.now.names encoding.now.encoded.problem }
    requires well_formed { IsWellFormed encoding.now.encoded.problem.signature structure.now }
{
    let problem = &encoding.encoded.problem;
    let mut sink = MemorySink::new(out.alloc, ROOM, List::new(out.alloc))?;
    match write_untyped(structure, problem, &encoding.names, &mut sink) {
        Ok(()) => {
            out.text(sink.written());
            Ok(())
        }
        Err(_) => Err(Stop::Shape),
    }
}

// the structure of these lists, the size first
fn structure_from(alloc: Global, words: &[u8]) -> Result<Structure, Stop> {
    let mut structure = Structure {
        size: 0,
        tables: List::new(alloc),
    };
    for (i, part) in words.split(|byte| *byte == b';').enumerate() {
        add_table(alloc, &mut structure, i, part)?;
    }
    Ok(structure)
}

// takes the list of this place as what stands there
fn add_table(
    alloc: Global,
    structure: &mut Structure,
    place: usize,
    words: &[u8],
) -> Result<(), Stop> {
    let table = numbers(alloc, words)?;
    if place > 0 {
        structure.tables.push(table)?;
        return Ok(());
    }
    match table.as_slice() {
        [size] => {
            structure.size = *size;
            Ok(())
        }
        _ => Err(Stop::Shape),
    }
}

fn well_formed(call: &mut Call<'_>, out: &mut Out) -> Result<(), Stop> {
    let encoding = encoding_in(call)?;
    put_well_formed(call, out, &encoding)
}

fn put_well_formed(call: &Call<'_>, out: &mut Out, encoding: &Encoding) -> Result<(), Stop>
    requires named { AreNamed encoding.now.names encoding.now.encoded.problem }
{
    let structure = structure_in(call, encoding)?;
    let signature = encoding.encoded.problem.signature.as_slice();
    out.told(b"", &structure.well_formed(signature));
    Ok(())
}

// the structure of the lists on the line, or of the untyped table
fn structure_in(call: &Call<'_>, encoding: &Encoding) -> Result<Structure, Stop>
    requires named { AreNamed encoding.now.names encoding.now.encoded.problem }
{
    if call.rest.is_empty() {
        untyped_of(call.alloc, encoding, call.texts.untyped.as_slice())
    } else {
        structure_from(call.alloc, call.rest)
    }
}

fn first_false(call: &mut Call<'_>, out: &mut Out) -> Result<(), Stop> {
    let encoding = encoding_in(call)?;
    put_first_false(out, &encoding, call.untyped())
}

fn put_first_false(out: &mut Out, encoding: &Encoding, table: &[u8]) -> Result<(), Stop>
    requires sound { IsSound encoding.now.encoded.problem }
    requires named { AreNamed encoding.now.names encoding.now.encoded.problem }
{
    let structure = untyped_of(out.alloc, encoding, table)?;
    let first = first_false_in(out.alloc, &encoding.encoded.problem, &structure)?;
    put_first(out, first);
    Ok(())
}

fn truths(call: &mut Call<'_>, out: &mut Out) -> Result<(), Stop> {
    let encoding = encoding_in(call)?;
    put_truths(out, &encoding, call.untyped())
}

fn put_truths(out: &mut Out, encoding: &Encoding, table: &[u8]) -> Result<(), Stop>
    requires named { AreNamed encoding.now.names encoding.now.encoded.problem }
{
    let structure = untyped_of(out.alloc, encoding, table)?;
    let problem = &encoding.encoded.problem;
    for formula in problem.formulas.as_slice() {
        put_truth(out, problem, formula, &structure)?;
    }
    Ok(())
}

// whether a formula is true by itself
fn put_truth(
    out: &mut Out,
    problem: &FofProblem,
    formula: &FofFormula,
    structure: &Structure,
) -> Result<(), Stop> {
    let alone = FofProblem {
        signature: copy_symbols(out.alloc, problem.signature.as_slice())?,
        formulas: only(out.alloc, formula)?,
    };
    if !alone.is_sound() || !structure.well_formed(alone.signature.as_slice()) {
        return Err(Stop::Shape);
    }
    let first = first_false_in(out.alloc, &alone, structure)?;
    out.begin();
    out.name(&formula.name);
    out.put(b" ");
    out.show(&first.is_none());
    out.end();
    Ok(())
}

// a list of one formula
fn only(alloc: Global, formula: &FofFormula) -> Result<List<FofFormula>, Stop> {
    let mut formulas = List::new(alloc);
    formulas.push(formula.copy(alloc)?)?;
    Ok(formulas)
}
