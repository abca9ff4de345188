//! Typed structures, models of normal problems, and merged domains.

ghost use Rattle.std.specs.Prelude.{◌≡◌, ◌<◌, ◌^◌, length};
ghost use Rattle.tf_core.specs.Sound.{IsSound};
ghost use Rattle.tf_core.specs.TypedTables.{IsWellFormed, AreModel};
ghost use Rattle.tf_check.specs.Writable.{HasWritableNames};
ghost use Rattle.tf_models.specs.Reading.{tables};
ghost use Rattle.tf_nnf.specs.NormalForm as specs;
ghost use Rattle.tf_stamp.specs.Merged.{merged_size};
ghost use Rattle.enc_pipeline.specs.Distinct.{HasDistinctNames};

use crate::arguments::numbers;
use crate::call::Call;
use crate::given::{extension_of, first_false_of, model_of, normal_of, problem_of, structure_of};
use crate::out::Out;
use crate::put_tables::put_typed;
use crate::refusals::unstamped;
use crate::stop::Stop;
use enc_base::{List, MemorySink};
use model_tables::write_typed;
use std::alloc::Global;
use tf_core::{Normal, Problem};
use tf_models::{TypedStructure, copy_table};
use tf_nnf::from_normal;
use tf_stamp::Stamped;

/// Whether the call is one of this layer, which is then made.
pub fn answer(name: &[u8], call: &mut Call<'_>, out: &mut Out) -> Result<bool, Stop> {
    match name {
        b"table" => table(call, out)?,
        b"write_table" => write_table(call, out)?,
        b"well_formed" => well_formed(call, out)?,
        b"first_false" => first_false(call, out)?,
        b"truth" => truth(call, out)?,
        b"to_normal" => extended(call, out)?,
        b"from_normal" => reduced(call, out)?,
        b"stamp" => stamp(call, out)?,
        _ => return Ok(false),
    }
    Ok(true)
}

fn table(call: &Call<'_>, out: &mut Out) -> Result<(), Stop> {
    let problem = problem_of(call.alloc, call.texts.problem.as_slice())?;
    put_table(out, &problem, call.typed())
}

fn put_table(out: &mut Out, problem: &Problem, table: &[u8]) -> Result<(), Stop>
    requires sound { IsSound problem.now }
    requires distinct { HasDistinctNames problem.now }
{
    let structure = structure_of(out.alloc, problem, table)?;
    put_typed(out, &problem.signature, &structure);
    Ok(())
}

/// The most bytes that a call writes.
pub const ROOM: usize = 1_000_000;

fn write_table(call: &Call<'_>, out: &mut Out) -> Result<(), Stop> {
    let problem = problem_of(call.alloc, call.texts.problem.as_slice())?;
    put_rewritten(out, &problem, call.typed())
}

// the table that is written of the structure of a table
fn put_rewritten(out: &mut Out, problem: &Problem, table: &[u8]) -> Result<(), Stop>
    requires sound { IsSound problem.now }
    requires named { HasWritableNames problem.now }
    requires distinct { HasDistinctNames problem.now }
{
    let structure = structure_of(out.alloc, problem, table)?;
    put_written(out, problem, &structure)
}

// the table that is written of a structure
fn put_written(out: &mut Out, problem: &Problem, structure: &TypedStructure) -> Result<(), Stop>
    requires sound { IsSound problem.now }
    requires named { HasWritableNames problem.now }
    requires distinct { HasDistinctNames problem.now }
    requires well_formed { IsWellFormed problem.now.signature (tables structure.now) }
{
    let mut sink = MemorySink::new(out.alloc, ROOM, List::new(out.alloc))?;
    match write_typed(structure, &problem.signature, &mut sink) {
        Ok(()) => {
            out.text(sink.written());
            Ok(())
        }
        Err(_) => Err(Stop::Shape),
    }
}

// the structure of these lists, sizes first, with so many constructors
fn structure_from(
    alloc: Global,
    words: &[u8],
    constructors: usize,
) -> Result<TypedStructure, Stop> {
    let mut structure = TypedStructure {
        sizes: List::new(alloc),
        constructors: List::new(alloc),
        symbols: List::new(alloc),
    };
    for (i, part) in words.split(|byte| *byte == b';').enumerate() {
        add_table(alloc, &mut structure, i, constructors, part)?;
    }
    Ok(structure)
}

// takes the list of this place as what stands there
fn add_table(
    alloc: Global,
    structure: &mut TypedStructure,
    place: usize,
    constructors: usize,
    words: &[u8],
) -> Result<(), Stop> {
    let table = numbers(alloc, words)?;
    if place == 0 {
        structure.sizes = table;
    } else if place <= constructors {
        structure.constructors.push(table)?;
    } else {
        structure.symbols.push(table)?;
    }
    Ok(())
}

fn well_formed(call: &Call<'_>, out: &mut Out) -> Result<(), Stop> {
    let problem = problem_of(call.alloc, call.texts.problem.as_slice())?;
    put_well_formed(call, out, &problem)
}

fn put_well_formed(call: &Call<'_>, out: &mut Out, problem: &Problem) -> Result<(), Stop>
    requires sound { IsSound problem.now }
    requires distinct { HasDistinctNames problem.now }
{
    let structure = structure_in(call, problem)?;
    if structure.sizes.as_slice().len() > 1000 {
        return Err(Stop::Shape);
    }
    out.told(b"", &structure.well_formed(&problem.signature));
    Ok(())
}

// the structure of the lists on the line, or of the typed table
fn structure_in(call: &Call<'_>, problem: &Problem) -> Result<TypedStructure, Stop>
    requires sound { IsSound problem.now }
    requires distinct { HasDistinctNames problem.now }
{
    if call.rest.is_empty() {
        structure_of(call.alloc, problem, call.texts.typed.as_slice())
    } else {
        let constructors = problem.signature.constructors.as_slice().len();
        structure_from(call.alloc, call.rest, constructors)
    }
}

/// The number of a formula, or that there is none.
pub fn put_first(out: &mut Out, first: Option<usize>) {
    match first {
        None => out.line(b"none"),
        Some(formula) => out.told(b"formula ", &formula),
    }
}

fn first_false(call: &Call<'_>, out: &mut Out) -> Result<(), Stop> {
    let problem = problem_of(call.alloc, call.texts.problem.as_slice())?;
    put_first(out, first_in(call.alloc, &problem, call.typed())?);
    Ok(())
}

// the first formula that is not as stated in the structure of a table
fn first_in(alloc: Global, problem: &Problem, table: &[u8]) -> Result<Option<usize>, Stop>
    requires sound { IsSound problem.now }
    requires distinct { HasDistinctNames problem.now }
{
    let structure = structure_of(alloc, problem, table)?;
    first_false_of(alloc, problem, &structure)
}

fn truth(call: &Call<'_>, out: &mut Out) -> Result<(), Stop> {
    let text = stating(call.alloc, call.texts.problem.as_slice(), call.rest)?;
    let problem = problem_of(call.alloc, text.as_slice())?;
    let first = first_in(call.alloc, &problem, call.texts.typed.as_slice())?;
    out.told(b"", &first.is_none());
    Ok(())
}

// the text, and behind it a formula that is stated
fn stating(alloc: Global, text: &[u8], formula: &[u8]) -> Result<Vec<u8>, Stop> {
    let mut stated = text.to_vec(alloc)?;
    stated.extend_from_slice(b"tff(truth,axiom,")?;
    stated.extend_from_slice(formula)?;
    stated.extend_from_slice(b").")?;
    Ok(stated)
}

fn extended(call: &Call<'_>, out: &mut Out) -> Result<(), Stop> {
    let problem = problem_of(call.alloc, call.texts.problem.as_slice())?;
    let model = model_of(call.alloc, &problem, call.typed())?;
    put_extended(out, &problem, &model)
}

fn put_extended(out: &mut Out, problem: &Problem, model: &TypedStructure) -> Result<(), Stop>
    requires sound { IsSound problem.now }
    requires model { AreModel problem.now (tables model.now) }
    requires few { length model.now.sizes < 2 ^ 32 }
{
    let normal = normal_of(out.alloc, problem)?;
    put_extension(out, problem, &normal, model)
}

fn put_extension(
    out: &mut Out,
    problem: &Problem,
    normal: &Normal,
    model: &TypedStructure,
) -> Result<(), Stop>
    requires sound { IsSound problem.now }
    requires normal { normal.now ≡ specs.normal_of problem.now }
    requires model { AreModel problem.now (tables model.now) }
    requires few { length model.now.sizes < 2 ^ 32 }
{
    let extension = extension_of(out.alloc, problem, normal, model)?;
    put_typed(out, &normal.signature, &extension);
    Ok(())
}

fn reduced(call: &Call<'_>, out: &mut Out) -> Result<(), Stop> {
    let problem = problem_of(call.alloc, call.texts.problem.as_slice())?;
    let model = model_of(call.alloc, &problem, call.typed())?;
    put_reduced(out, &problem, &model)
}

fn put_reduced(out: &mut Out, problem: &Problem, model: &TypedStructure) -> Result<(), Stop>
    requires sound { IsSound problem.now }
    requires model { AreModel problem.now (tables model.now) }
    requires few { length model.now.sizes < 2 ^ 32 }
{
    let reduct = reduct_of(out.alloc, problem, model)?;
    put_typed(out, &problem.signature, &reduct);
    out.told(b"same ", &reduct.same(model));
    Ok(())
}

// the structure that comes back of the model that the normal problem gets
fn reduct_of(
    alloc: Global,
    problem: &Problem,
    model: &TypedStructure,
) -> Result<TypedStructure, Stop>
    requires sound { IsSound problem.now }
    requires model { AreModel problem.now (tables model.now) }
    requires few { length model.now.sizes < 2 ^ 32 }
{
    let normal = normal_of(alloc, problem)?;
    let extension = extension_of(alloc, problem, &normal, model)?;
    Ok(from_normal(&normal, extension))
}

fn stamp(call: &Call<'_>, out: &mut Out) -> Result<(), Stop> {
    let members = TypedStructure {
        sizes: sizes_in(call)?,
        constructors: List::new(call.alloc),
        symbols: List::new(call.alloc),
    };
    if members.sizes.as_slice().len() > 1000 {
        return Err(Stop::Shape);
    }
    put_members(out, &members)
}

// the sizes on the line, or those of the typed table
fn sizes_in(call: &Call<'_>) -> Result<List<u32>, Stop> {
    if !call.rest.is_empty() {
        return numbers(call.alloc, call.rest);
    }
    let problem = problem_of(call.alloc, call.texts.problem.as_slice())?;
    sizes_of(call.alloc, &problem, call.texts.typed.as_slice())
}

fn sizes_of(alloc: Global, problem: &Problem, table: &[u8]) -> Result<List<u32>, Stop>
    requires sound { IsSound problem.now }
    requires distinct { HasDistinctNames problem.now }
{
    let structure = structure_of(alloc, problem, table)?;
    Ok(copy_table(alloc, structure.sizes.as_slice())?)
}

// the merged domain of these members
fn put_members(out: &mut Out, members: &TypedStructure) -> Result<(), Stop>
    requires few { length members.now.sizes < 2 ^ 32 }
{
    match Stamped::new(out.alloc, members) {
        Ok(stamped) => {
            put_stamped(out, &stamped, members.sizes.as_slice());
            Ok(())
        }
        Err(reason) => Err(unstamped(out.alloc, &reason)),
    }
}

// each number, and each stamp
fn put_stamped(out: &mut Out, stamped: &Stamped, sizes: &[u32])
    requires same { stamped.now ≡ sizes.now }
    requires few { length sizes.now < 2 ^ 32 }
{
    let size = stamped.size();
    out.told(b"size ", &size);
    for number in 0..size {
        put_number(out, stamped, sizes, number);
    }
    for member in 0..sizes.len() as u32 {
        put_stamps(out, stamped, sizes, member);
    }
}

// the member of a number, and its element in each member
fn put_number(out: &mut Out, stamped: &Stamped, sizes: &[u32], number: u32)
    requires same { stamped.now ≡ sizes.now }
    requires few { length sizes.now < 2 ^ 32 }
    requires within { number < merged_size stamped.now }
{
    out.begin();
    out.show(&number);
    out.put(b": member ");
    out.show(&stamped.member_of(number));
    out.put(b", elements");
    for member in 0..sizes.len() as u32 {
        out.put(b" ");
        out.show(&stamped.element_in(number, member));
    }
    out.end();
}

// the numbers of the elements of a member
fn put_stamps(out: &mut Out, stamped: &Stamped, sizes: &[u32], member: u32)
    requires same { stamped.now ≡ sizes.now }
    requires within { member < length sizes.now }
{
    out.begin();
    out.put(b"stamps of ");
    out.show(&member);
    out.put(b":");
    for element in 0..sizes[member as usize] {
        out.put(b" ");
        out.show(&stamped.stamp(member, element));
    }
    out.end();
}
