//! From bytes to bytes.

ghost use Rattle.std.specs.Prelude.{IfOk};
ghost use Rattle.tf_core.specs.Sound.{IsSound};
ghost use Rattle.enc_pipeline.specs.Distinct.{HasDistinctNames};
ghost use Rattle.enc_pipeline.specs.Way.{IsInRange, IsWithoutInstances};

use crate::call::Call;
use crate::given::problem_of;
use crate::models::ROOM;
use crate::out::Out;
use crate::refusals::stopped;
use crate::stop::Stop;
use enc_base::{List, MemorySink};
use enc_marks::Scheme;
use enc_pipeline::{
    Fault, How, Prepared, check_file, encode_file, lift_file, lifts, lower_file, prepare,
    written_formulas,
};
use std::alloc::Global;
use tf_core::Problem;

/// Whether the call is one of this layer, which is then made.
pub fn answer(name: &[u8], call: &mut Call<'_>, out: &mut Out) -> Result<bool, Stop> {
    match name {
        b"encode_file" => encode(call, out)?,
        b"check_file" => check(call, out)?,
        b"lower_file" => lower(call, out)?,
        b"lift_file" => lift(call, out)?,
        _ => return Ok(false),
    }
    Ok(true)
}

// the way in which a scheme encodes
fn way_of(alloc: Global, which: &Scheme) -> Result<How, Stop>
    ensures range { IfOk result IsInRange }
    ensures complete { IfOk result IsWithoutInstances }
{
    Ok(How::plain(which.copy(alloc)?))
}

// what went well, or why not
fn done<T: Drop>(alloc: Global, ended: Result<T, Fault>) -> Result<T, Stop> {
    match ended {
        Ok(value) => Ok(value),
        Err(fault) => Err(stopped(alloc, &fault)),
    }
}

/// The problem of a text, prepared to be encoded by a scheme.
fn prepared_by(alloc: Global, which: &Scheme, text: &[u8]) -> Result<Prepared, Stop> {
    let how = way_of(alloc, which)?;
    let problem = problem_of(alloc, text)?;
    done(alloc, prepare(alloc, problem, how))
}

// what is asked of a prepared problem
#[derive(Drop)]
enum Task {
    Encode,
    Lower,
    Lift,
}

fn encode(call: &mut Call<'_>, out: &mut Out) -> Result<(), Stop> {
    let which = call.scheme()?;
    perform(call, out, &which, call.text(), Task::Encode)
}

fn lower(call: &mut Call<'_>, out: &mut Out) -> Result<(), Stop> {
    let which = call.scheme()?;
    let text = call.texts.problem.as_slice();
    perform(call, out, &which, text, Task::Lower)
}

fn lift(call: &mut Call<'_>, out: &mut Out) -> Result<(), Stop> {
    let which = call.scheme()?;
    let text = call.texts.problem.as_slice();
    perform(call, out, &which, text, Task::Lift)
}

fn perform(
    call: &Call<'_>,
    out: &mut Out,
    which: &Scheme,
    text: &[u8],
    task: Task,
) -> Result<(), Stop> {
    let prepared = prepared_by(call.alloc, which, text)?;
    put_task(call, out, &prepared, task)
}

fn put_task(call: &Call<'_>, out: &mut Out, prepared: &Prepared, task: Task) -> Result<(), Stop> {
    match task {
        Task::Encode => put_encoded(out, prepared),
        Task::Lower => put_lowered(out, prepared, call.typed()),
        Task::Lift => put_lifted(out, prepared, call.untyped()),
    }
}

fn put_encoded(out: &mut Out, prepared: &Prepared) -> Result<(), Stop> {
    out.told(b"formulas ", &written_formulas(prepared));
    done(out.alloc, lifts(prepared))?;
    out.line(b"lifts");
    put_text(out, prepared)
}

fn put_text(out: &mut Out, prepared: &Prepared) -> Result<(), Stop> {
    let mut sink = MemorySink::new(out.alloc, ROOM, List::new(out.alloc))?;
    done(out.alloc, encode_file(prepared, &mut sink))?;
    out.text(sink.written());
    Ok(())
}

fn check(call: &Call<'_>, out: &mut Out) -> Result<(), Stop> {
    let problem = problem_of(call.alloc, call.texts.problem.as_slice())?;
    put_checked(out, &problem, call.typed())
}

fn put_checked(out: &mut Out, problem: &Problem, table: &[u8]) -> Result<(), Stop>
    requires sound { IsSound problem.now }
    requires distinct { HasDistinctNames problem.now }
{
    let mut sink = MemorySink::new(out.alloc, ROOM, List::new(out.alloc))?;
    done(out.alloc, check_file(out.alloc, problem, table, &mut sink))?;
    out.text(sink.written());
    Ok(())
}

fn put_lowered(out: &mut Out, prepared: &Prepared, table: &[u8]) -> Result<(), Stop> {
    let mut sink = MemorySink::new(out.alloc, ROOM, List::new(out.alloc))?;
    done(out.alloc, lower_file(out.alloc, prepared, table, &mut sink))?;
    out.text(sink.written());
    Ok(())
}

fn put_lifted(out: &mut Out, prepared: &Prepared, table: &[u8]) -> Result<(), Stop> {
    let mut sink = MemorySink::new(out.alloc, ROOM, List::new(out.alloc))?;
    done(out.alloc, lift_file(out.alloc, prepared, table, &mut sink))?;
    out.text(sink.written());
    Ok(())
}
