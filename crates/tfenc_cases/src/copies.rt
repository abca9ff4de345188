//! Whether values are the same.

ghost use Rattle.tf_core.specs.Sound.{IsSound, IsSoundNormal};
ghost use Rattle.fof_text.specs.States.{AreNamed};
ghost use Rattle.enc_pipeline.specs.Distinct.{HasDistinctNames};

use crate::call::Call;
use crate::encoding::{Encoding, encoded_by, encoding_in, encoding_of, untyped_of};
use crate::given::{normal_of, problem_of, structure_of};
use crate::out::Out;
use crate::stop::Stop;
use crate::syntax::file_of;
use enc_marks::Scheme;
use tf_core::{Normal, Problem};
use tf_naked::first_naked;

/// Whether the call is one of this layer, which is then made.
pub fn answer(name: &[u8], call: &mut Call<'_>, out: &mut Out) -> Result<bool, Stop> {
    match name {
        b"copies" => copies(call, out)?,
        b"against" => against(call, out)?,
        b"same_table" => same_table(call, out)?,
        b"same_untyped" => same_untyped(call, out)?,
        _ => return Ok(false),
    }
    Ok(true)
}

fn copies(call: &Call<'_>, out: &mut Out) -> Result<(), Stop> {
    copied_file(out, call.text())?;
    copied_problem(out, call.text())?;
    copied_typed(call, out)?;
    copied_untyped(call, out)
}

fn copied_file(out: &mut Out, text: &[u8]) -> Result<(), Stop> {
    let file = file_of(out.alloc, text)?;
    out.told(b"file ", &file.same(&file.copy(out.alloc)?));
    Ok(())
}

// the problem of a text, and what is made of it
fn copied_problem(out: &mut Out, text: &[u8]) -> Result<(), Stop> {
    let problem = problem_of(out.alloc, text)?;
    put_problem(out, &problem)?;
    copied_normal(out, &problem)
}

fn put_problem(out: &mut Out, problem: &Problem) -> Result<(), Stop> {
    out.told(b"problem ", &problem.same(&problem.copy(out.alloc)?));
    Ok(())
}

fn copied_normal(out: &mut Out, problem: &Problem) -> Result<(), Stop>
    requires sound { IsSound problem.now }
{
    let normal = normal_of(out.alloc, problem)?;
    put_normal(out, &normal)?;
    copied_place(out, &normal)?;
    copied_encoded(out, &normal)
}

// the first naked place, if there is one
fn copied_place(out: &mut Out, normal: &Normal) -> Result<(), Stop>
    requires sound { IsSoundNormal normal.now }
{
    if let Some(place) = first_naked(normal) {
        out.told(b"place ", &place.same(&place.copy(out.alloc)?));
    }
    Ok(())
}

fn put_normal(out: &mut Out, normal: &Normal) -> Result<(), Stop> {
    out.told(b"normal ", &normal.same(&normal.copy(out.alloc)?));
    copied_scheme(out)
}

fn copied_scheme(out: &mut Out) -> Result<(), Stop> {
    let scheme = Scheme::Guards;
    out.told(b"scheme ", &scheme.same(&scheme.copy(out.alloc)?));
    Ok(())
}

fn copied_encoded(out: &mut Out, normal: &Normal) -> Result<(), Stop>
    requires sound { IsSoundNormal normal.now }
{
    let encoded = encoded_by(out.alloc, &Scheme::Guards, normal)?;
    out.told(b"encoded ", &encoded.same(&encoded.copy(out.alloc)?));
    Ok(())
}

// the structure of the typed table, if there is one
fn copied_typed(call: &Call<'_>, out: &mut Out) -> Result<(), Stop> {
    let table = call.texts.typed.as_slice();
    if table.is_empty() {
        return Ok(());
    }
    let problem = problem_of(call.alloc, call.text())?;
    copied_structure(out, &problem, table)
}

fn copied_structure(out: &mut Out, problem: &Problem, table: &[u8]) -> Result<(), Stop>
    requires sound { IsSound problem.now }
    requires distinct { HasDistinctNames problem.now }
{
    let structure = structure_of(out.alloc, problem, table)?;
    out.told(b"typed ", &structure.same(&structure.copy(out.alloc)?));
    Ok(())
}

// the structure of the untyped table, if there is one
fn copied_untyped(call: &Call<'_>, out: &mut Out) -> Result<(), Stop> {
    let table = call.texts.untyped.as_slice();
    if table.is_empty() {
        return Ok(());
    }
    let encoding = encoding_of(call.alloc, &Scheme::Guards, call.text())?;
    copied_untyped_structure(out, &encoding, table)
}

fn copied_untyped_structure(out: &mut Out, encoding: &Encoding, table: &[u8]) -> Result<(), Stop>
    requires named { AreNamed encoding.now.names encoding.now.encoded.problem }
{
    let structure = untyped_of(out.alloc, encoding, table)?;
    out.told(b"untyped ", &structure.same(&structure.copy(out.alloc)?));
    Ok(())
}

// of each value whether it is the same for the two texts
fn against(call: &Call<'_>, out: &mut Out) -> Result<(), Stop> {
    let text = call.texts.problem.as_slice();
    let other = call.texts.other.as_slice();
    same_files(out, text, other)?;
    same_problems(out, text, other)
}

fn same_files(out: &mut Out, text: &[u8], other: &[u8]) -> Result<(), Stop> {
    let file = file_of(out.alloc, text)?;
    let other = file_of(out.alloc, other)?;
    out.told(b"file ", &file.same(&other));
    Ok(())
}

fn same_problems(out: &mut Out, text: &[u8], other: &[u8]) -> Result<(), Stop> {
    let problem = problem_of(out.alloc, text)?;
    let other = problem_of(out.alloc, other)?;
    out.told(b"problem ", &problem.same(&other));
    same_normals(out, &problem, &other)
}

fn same_normals(out: &mut Out, problem: &Problem, other: &Problem) -> Result<(), Stop>
    requires sound { IsSound problem.now }
    requires other_sound { IsSound other.now }
{
    let normal = normal_of(out.alloc, problem)?;
    let other = normal_of(out.alloc, other)?;
    out.told(b"normal ", &normal.same(&other));
    same_encodings(out, &normal, &other)
}

fn same_encodings(out: &mut Out, normal: &Normal, other: &Normal) -> Result<(), Stop>
    requires sound { IsSoundNormal normal.now }
    requires other_sound { IsSoundNormal other.now }
{
    let encoded = encoded_by(out.alloc, &Scheme::Guards, normal)?;
    let other = encoded_by(out.alloc, &Scheme::Guards, other)?;
    out.told(b"encoded ", &encoded.same(&other));
    Ok(())
}

fn same_table(call: &Call<'_>, out: &mut Out) -> Result<(), Stop> {
    let problem = problem_of(call.alloc, call.texts.problem.as_slice())?;
    same_structures(out, &problem, call.texts.typed.as_slice(), call.rest)
}

fn same_structures(out: &mut Out, problem: &Problem, table: &[u8], other: &[u8]) -> Result<(), Stop>
    requires sound { IsSound problem.now }
    requires distinct { HasDistinctNames problem.now }
{
    let structure = structure_of(out.alloc, problem, table)?;
    let other = structure_of(out.alloc, problem, other)?;
    out.told(b"same ", &structure.same(&other));
    Ok(())
}

fn same_untyped(call: &mut Call<'_>, out: &mut Out) -> Result<(), Stop> {
    let encoding = encoding_in(call)?;
    same_untyped_structures(out, &encoding, call.texts.untyped.as_slice(), call.rest)
}

fn same_untyped_structures(
    out: &mut Out,
    encoding: &Encoding,
    table: &[u8],
    other: &[u8],
) -> Result<(), Stop>
    requires named { AreNamed encoding.now.names encoding.now.encoded.problem }
{
    let structure = untyped_of(out.alloc, encoding, table)?;
    let other = untyped_of(out.alloc, encoding, other)?;
    out.told(b"same ", &structure.same(&other));
    Ok(())
}
