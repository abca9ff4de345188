//! Models, carried to translations and back.

ghost use Rattle.std.specs.Prelude.{◌≡◌, ◌<◌, ◌^◌, OnOk, length};
ghost use Rattle.tf_core.specs.Sound.{IsSound, IsSoundNormal};
ghost use Rattle.tf_core.specs.TypedTables as typed;
ghost use Rattle.tf_check.specs.Writable.{HasWritableNames};
ghost use Rattle.tf_models.specs.Reading.{tables};
ghost use Rattle.tf_nnf.specs.NormalForm.{normal_of};
ghost use Rattle.fof_models.specs.Sound as untyped;
ghost use Rattle.fof_models.specs.Models.{AreModel};
ghost use Rattle.fof_text.specs.States.{AreNamed};
ghost use Rattle.enc_marks.specs.Applies.{Applies};
ghost use Rattle.enc_marks.specs.Encoded.{encoded};
ghost use Rattle.enc_marks.specs.Schemes.{choices_of};
ghost use Rattle.enc_pipeline.specs.Distinct.{HasDistinctNames};

use crate::call::Call;
use crate::encoding::{Encoding, encoding_by, first_false_in, untyped_model_of};
use crate::given::{extension_of, model_of, normal_of, problem_of};
use crate::out::Out;
use crate::put_tables::{put_typed, put_untyped};
use crate::refusals::{no_model, unencoded};
use crate::stop::Stop;
use enc_marks::{Encoded, Scheme};
use fof_models::{FofProblem, Structure};
use std::alloc::Global;
use tf_core::{Normal, Problem};
use tf_models::TypedStructure;

/// Whether the call is one of this layer, which is then made.
pub fn answer(name: &[u8], call: &mut Call<'_>, out: &mut Out) -> Result<bool, Stop> {
    match name {
        b"lower" => lower(call, out)?,
        b"lift" => lift(call, out)?,
        b"there_and_back" => there_and_back(call, out)?,
        _ => return Ok(false),
    }
    Ok(true)
}

/// The model of the translation that a model of the normal problem gives.
fn lowered_by(
    alloc: Global,
    which: &Scheme,
    normal: &Normal,
    made: &Encoded,
    model: &TypedStructure,
) -> Result<Structure, Stop>
    requires sound { IsSoundNormal normal.now }
    requires applies { Applies which.now normal.now }
    requires encoded { made.now ≡ encoded (choices_of which.now normal.now) normal.now }
    requires model { typed.AreNormalModel normal.now (tables model.now) }
    requires few { length model.now.sizes < 2 ^ 32 }
{
    let lowered = match which {
        Scheme::Guards => enc_guards::lower(alloc, Scheme::Guards, normal, made, model),
        Scheme::Tags => enc_tags::lower(alloc, Scheme::Tags, normal, made, model),
        Scheme::GuardsCover => enc_cover::lower(alloc, Scheme::GuardsCover, normal, made, model),
        Scheme::TagsCover => enc_cover::lower(alloc, Scheme::TagsCover, normal, made, model),
        Scheme::Args => enc_args::lower(alloc, Scheme::Args, normal, made, model),
        Scheme::Erase => enc_args::lower(alloc, Scheme::Erase, normal, made, model),
        Scheme::GuardsLight => enc_light::lower(alloc, Scheme::GuardsLight, normal, made, model),
        Scheme::TagsLight => enc_light::lower(alloc, Scheme::TagsLight, normal, made, model),
        Scheme::GuardsFeather => enc_feather::lower(
            alloc,
            Scheme::GuardsFeather,
            normal,
            made,
            model,
        ),
        Scheme::TagsFeather => enc_feather::lower(alloc, Scheme::TagsFeather, normal, made, model),
    };
    match lowered {
        Ok(structure) => Ok(structure),
        Err(reason) => Err(unencoded(alloc, &reason)),
    }
}

/// The model of the normal problem that a model of the translation gives.
fn lifted_by(
    alloc: Global,
    which: &Scheme,
    normal: &Normal,
    made: &Encoded,
    model: &Structure,
) -> Result<TypedStructure, Stop>
    requires sound { IsSoundNormal normal.now }
    requires applies { Applies which.now normal.now }
    requires encoded { made.now ≡ encoded (choices_of which.now normal.now) normal.now }
    requires model { AreModel made.now.problem model.now }
{
    let lifted = match which {
        Scheme::Guards => enc_guards::lift(alloc, Scheme::Guards, normal, made, model),
        Scheme::Tags => enc_tags::lift(alloc, Scheme::Tags, normal, made, model),
        Scheme::GuardsCover => enc_cover::lift(alloc, Scheme::GuardsCover, normal, made, model),
        Scheme::TagsCover => enc_cover::lift(alloc, Scheme::TagsCover, normal, made, model),
        Scheme::Args => enc_args::lift(alloc, Scheme::Args, normal, made, model),
        Scheme::Erase => enc_args::lift(alloc, Scheme::Erase, normal, made, model),
        Scheme::GuardsLight => enc_light::lift(alloc, Scheme::GuardsLight, normal, made, model),
        Scheme::TagsLight => enc_light::lift(alloc, Scheme::TagsLight, normal, made, model),
        Scheme::GuardsFeather => enc_feather::lift(
            alloc,
            Scheme::GuardsFeather,
            normal,
            made,
            model,
        ),
        Scheme::TagsFeather => enc_feather::lift(alloc, Scheme::TagsFeather, normal, made, model),
    };
    match lifted {
        Ok(structure) => Ok(structure),
        Err(reason) => Err(unencoded(alloc, &reason)),
    }
}

fn lower(call: &mut Call<'_>, out: &mut Out) -> Result<(), Stop> {
    carry(call, out, false)
}

fn there_and_back(call: &mut Call<'_>, out: &mut Out) -> Result<(), Stop> {
    carry(call, out, true)
}

// carries the model of a typed table to the translation, and back if asked
fn carry(call: &mut Call<'_>, out: &mut Out, back: bool) -> Result<(), Stop> {
    let which = call.scheme()?;
    let problem = problem_of(call.alloc, call.texts.problem.as_slice())?;
    carry_table(out, &which, &problem, call.typed(), back)
}

fn carry_table(
    out: &mut Out,
    which: &Scheme,
    problem: &Problem,
    table: &[u8],
    back: bool,
) -> Result<(), Stop>
    requires sound { IsSound problem.now }
    requires named { HasWritableNames problem.now }
    requires distinct { HasDistinctNames problem.now }
{
    let model = model_of(out.alloc, problem, table)?;
    carry_model(out, which, problem, &model, back)
}

fn carry_model(
    out: &mut Out,
    which: &Scheme,
    problem: &Problem,
    model: &TypedStructure,
    back: bool,
) -> Result<(), Stop>
    requires sound { IsSound problem.now }
    requires named { HasWritableNames problem.now }
    requires model { typed.AreModel problem.now (tables model.now) }
    requires few { length model.now.sizes < 2 ^ 32 }
{
    let normal = normal_of(out.alloc, problem)?;
    carry_normal(out, which, problem, &normal, model, back)
}

fn carry_normal(
    out: &mut Out,
    which: &Scheme,
    problem: &Problem,
    normal: &Normal,
    model: &TypedStructure,
    back: bool,
) -> Result<(), Stop>
    requires sound { IsSound problem.now }
    requires normal_sound { IsSoundNormal normal.now }
    requires named { HasWritableNames problem.now }
    requires normal { normal.now ≡ normal_of problem.now }
    requires model { typed.AreModel problem.now (tables model.now) }
    requires few { length model.now.sizes < 2 ^ 32 }
{
    let extension = extension_of(out.alloc, problem, normal, model)?;
    carry_extension(out, which, problem, normal, &extension, back)
}

fn carry_extension(
    out: &mut Out,
    which: &Scheme,
    problem: &Problem,
    normal: &Normal,
    extension: &TypedStructure,
    back: bool,
) -> Result<(), Stop>
    requires sound { IsSoundNormal normal.now }
    requires named { HasWritableNames problem.now }
    requires normal { normal.now ≡ normal_of problem.now }
    requires model { typed.AreNormalModel normal.now (tables extension.now) }
    requires few { length extension.now.sizes < 2 ^ 32 }
{
    let made = encoding_by(out.alloc, which, problem, normal)?;
    if back {
        put_back(out, which, normal, &made.encoded, extension)
    } else {
        put_lowered(out, which, normal, &made, extension)
    }
}

fn put_lowered(
    out: &mut Out,
    which: &Scheme,
    normal: &Normal,
    made: &Encoding,
    extension: &TypedStructure,
) -> Result<(), Stop>
    requires sound { IsSoundNormal normal.now }
    requires applies { Applies which.now normal.now }
    requires encoded { made.now.encoded ≡ encoded (choices_of which.now normal.now) normal.now }
    requires model { typed.AreNormalModel normal.now (tables extension.now) }
    requires few { length extension.now.sizes < 2 ^ 32 }
{
    let lowered = lowered_by(out.alloc, which, normal, &made.encoded, extension)?;
    let signature = made.encoded.problem.signature.as_slice();
    put_untyped(out, signature, &made.names, &lowered);
    Ok(())
}

// what the model of the translation is carried back to
fn put_back(
    out: &mut Out,
    which: &Scheme,
    normal: &Normal,
    made: &Encoded,
    extension: &TypedStructure,
) -> Result<(), Stop>
    requires sound { IsSoundNormal normal.now }
    requires applies { Applies which.now normal.now }
    requires encoded { made.now ≡ encoded (choices_of which.now normal.now) normal.now }
    requires translated { untyped.IsSound made.now.problem }
    requires model { typed.AreNormalModel normal.now (tables extension.now) }
    requires few { length extension.now.sizes < 2 ^ 32 }
{
    let lowered = lowered_by(out.alloc, which, normal, made, extension)?;
    check_model(out.alloc, &made.problem, &lowered)?;
    put_lifted(out, which, normal, made, &lowered)
}

// refuses a structure that is no model
fn check_model(alloc: Global, problem: &FofProblem, lowered: &Structure) -> Result<(), Stop>
    requires sound { untyped.IsSound problem.now }
    ensures { OnOk result (AreModel problem.now lowered.now) }
{
    if !lowered.well_formed(problem.signature.as_slice()) {
        return Err(Stop::Shape);
    }
    match first_false_in(alloc, problem, lowered)? {
        None => Ok(()),
        Some(formula) => Err(no_model(alloc, formula)),
    }
}

fn put_lifted(
    out: &mut Out,
    which: &Scheme,
    normal: &Normal,
    made: &Encoded,
    model: &Structure,
) -> Result<(), Stop>
    requires sound { IsSoundNormal normal.now }
    requires applies { Applies which.now normal.now }
    requires encoded { made.now ≡ encoded (choices_of which.now normal.now) normal.now }
    requires model { AreModel made.now.problem model.now }
{
    let lifted = lifted_by(out.alloc, which, normal, made, model)?;
    put_typed(out, &normal.signature, &lifted);
    Ok(())
}

fn lift(call: &mut Call<'_>, out: &mut Out) -> Result<(), Stop> {
    let which = call.scheme()?;
    let problem = problem_of(call.alloc, call.texts.problem.as_slice())?;
    let normal = normal_of(call.alloc, &problem)?;
    lift_table(out, &which, &problem, &normal, call.untyped())
}

fn lift_table(
    out: &mut Out,
    which: &Scheme,
    problem: &Problem,
    normal: &Normal,
    table: &[u8],
) -> Result<(), Stop>
    requires sound { IsSoundNormal normal.now }
    requires named { HasWritableNames problem.now }
    requires normal { normal.now ≡ normal_of problem.now }
{
    let made = encoding_by(out.alloc, which, problem, normal)?;
    lift_model(out, which, normal, &made, table)
}

fn lift_model(
    out: &mut Out,
    which: &Scheme,
    normal: &Normal,
    made: &Encoding,
    table: &[u8],
) -> Result<(), Stop>
    requires sound { IsSoundNormal normal.now }
    requires applies { Applies which.now normal.now }
    requires encoded { made.now.encoded ≡ encoded (choices_of which.now normal.now) normal.now }
    requires translated { untyped.IsSound made.now.encoded.problem }
    requires named { AreNamed made.now.names made.now.encoded.problem }
{
    let model = untyped_model_of(out.alloc, made, table)?;
    put_lifted(out, which, normal, &made.encoded, &model)
}
