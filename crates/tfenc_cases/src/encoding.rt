//! Translations by scheme, with the names of their symbols.

ghost use Rattle.std.specs.Prelude.{◌≡◌, ◌↔◌, None, IfOk};
ghost use Rattle.tf_core.specs.Sound as typed;
ghost use Rattle.tf_core.specs.Sound.{IsSoundNormal};
ghost use Rattle.tf_check.specs.Writable.{HasWritableNames};
ghost use Rattle.tf_nnf.specs.NormalForm.{normal_of};
ghost use Rattle.fof_models.specs.Sound.{IsSound};
ghost use Rattle.fof_models.specs.Models.{AreModel};
ghost use Rattle.fof_models.specs.Structures.{IsWellFormed};
ghost use Rattle.fof_text.specs.States.{AreNamed};
ghost use Rattle.enc_marks.specs.Applies.{Applies};
ghost use Rattle.enc_marks.specs.Encoded.{encoded};
ghost use Rattle.enc_marks.specs.Schemes.{choices_of};

use crate::call::Call;
use crate::given::{normal_of, problem_of};
use crate::refusals::{no_model, unencoded, untabled};
use crate::stop::Stop;
use enc_marks::{Encoded, Refusal, Scheme};
use fof_models::{FofEnv, FofProblem, Structure};
use fof_text::Names;
use model_tables::read_untyped;
use std::alloc::Global;
use tf_core::{Normal, Problem};

/// A translation, and the names of its symbols.
#[derive(Drop)]
pub struct Encoding {
    pub encoded: Encoded,
    pub names: Names,
}

// the translation of a normal problem, or why there is none
fn translated(alloc: Global, which: &Scheme, normal: &Normal) -> Result<Encoded, Refusal>
    requires sound { IsSoundNormal normal.now }
    ensures exact { IfOk result (λ made.
        made ≡ encoded (choices_of which.now normal.now) normal.now) }
    ensures applies { IfOk result (λ _. Applies which.now normal.now) }
{
    match which {
        Scheme::Guards => enc_guards::encode(alloc, Scheme::Guards, normal),
        Scheme::Tags => enc_tags::encode(alloc, Scheme::Tags, normal),
        Scheme::GuardsCover => enc_cover::encode(alloc, Scheme::GuardsCover, normal),
        Scheme::TagsCover => enc_cover::encode(alloc, Scheme::TagsCover, normal),
        Scheme::Args => enc_args::encode(alloc, Scheme::Args, normal),
        Scheme::Erase => enc_args::encode(alloc, Scheme::Erase, normal),
        Scheme::GuardsLight => enc_light::encode(alloc, Scheme::GuardsLight, normal),
        Scheme::TagsLight => enc_light::encode(alloc, Scheme::TagsLight, normal),
        Scheme::GuardsFeather => enc_feather::encode(alloc, Scheme::GuardsFeather, normal),
        Scheme::TagsFeather => enc_feather::encode(alloc, Scheme::TagsFeather, normal),
    }
}

/// The translation of a normal problem.
pub fn encoded_by(alloc: Global, which: &Scheme, normal: &Normal) -> Result<Encoded, Stop>
    requires sound { IsSoundNormal normal.now }
    ensures exact { IfOk result (λ made.
        made ≡ encoded (choices_of which.now normal.now) normal.now) }
    ensures applies { IfOk result (λ _. Applies which.now normal.now) }
{
    match translated(alloc, which, normal) {
        Ok(made) => Ok(made),
        Err(reason) => Err(unencoded(alloc, &reason)),
    }
}

// the names that are chosen for the symbols of a translation
fn names_of(
    alloc: Global,
    which: &Scheme,
    problem: &Problem,
    normal: &Normal,
    made: &Encoded,
) -> Result<Names, Stop>
    requires sound { IsSoundNormal normal.now }
    requires named { HasWritableNames problem.now }
    requires normal { normal.now ≡ normal_of problem.now }
    requires encoded { made.now ≡ encoded (choices_of which.now normal.now) normal.now }
    requires translated { IsSound made.now.problem }
    ensures { IfOk result (λ names. AreNamed names made.now.problem) }
{
    match Names::choose(alloc, made.problem.signature.as_slice()) {
        Ok(names) => Ok(names),
        Err(_) => Err(Stop::Memory),
    }
}

/// The translation of a problem, with names that can be written.
pub fn encoding_by(
    alloc: Global,
    which: &Scheme,
    problem: &Problem,
    normal: &Normal,
) -> Result<Encoding, Stop>
    requires sound { IsSoundNormal normal.now }
    requires named { HasWritableNames problem.now }
    requires normal { normal.now ≡ normal_of problem.now }
    ensures sound { IfOk result (λ e. IsSound e.encoded.problem) }
    ensures named { IfOk result (λ e. AreNamed e.names e.encoded.problem) }
    ensures exact { IfOk result (λ e.
        e.encoded ≡ encoded (choices_of which.now normal.now) normal.now) }
    ensures applies { IfOk result (λ _. Applies which.now normal.now) }
{
    let encoded = encoded_by(alloc, which, normal)?;
    if !encoded.problem.is_sound() {
        return Err(Stop::Shape);
    }
    let names = names_of(alloc, which, problem, normal, &encoded)?;
    Ok(Encoding { encoded, names })
}

/// The translation of the problem of a text.
pub fn encoding_of(alloc: Global, which: &Scheme, text: &[u8]) -> Result<Encoding, Stop>
    ensures sound { IfOk result (λ e. IsSound e.encoded.problem) }
    ensures named { IfOk result (λ e. AreNamed e.names e.encoded.problem) }
{
    let problem = problem_of(alloc, text)?;
    encoding_for(alloc, which, &problem)
}

fn encoding_for(alloc: Global, which: &Scheme, problem: &Problem) -> Result<Encoding, Stop>
    requires sound { typed.IsSound problem.now }
    requires named { HasWritableNames problem.now }
    ensures sound { IfOk result (λ e. IsSound e.encoded.problem) }
    ensures named { IfOk result (λ e. AreNamed e.names e.encoded.problem) }
{
    let normal = normal_of(alloc, problem)?;
    encoding_by(alloc, which, problem, &normal)
}

/// The translation of the case's problem by the scheme that the arguments begin with. The call is
/// left without it.
pub fn encoding_in(call: &mut Call<'_>) -> Result<Encoding, Stop>
    ensures sound { IfOk result (λ e. IsSound e.encoded.problem) }
    ensures named { IfOk result (λ e. AreNamed e.names e.encoded.problem) }
{
    let which = call.scheme()?;
    encoding_of(call.alloc, &which, call.texts.problem.as_slice())
}

/// The structure of an untyped table.
pub fn untyped_of(alloc: Global, encoding: &Encoding, table: &[u8]) -> Result<Structure, Stop>
    requires named { AreNamed encoding.now.names encoding.now.encoded.problem }
    ensures { IfOk result (IsWellFormed encoding.now.encoded.problem.signature) }
{
    let problem = &encoding.encoded.problem;
    match read_untyped(alloc, table, problem, &encoding.names) {
        Ok(structure) => Ok(structure),
        Err(reason) => Err(untabled(alloc, &reason)),
    }
}

/// The first formula that is false.
pub fn first_false_in(
    alloc: Global,
    problem: &FofProblem,
    structure: &Structure,
) -> Result<Option<usize>, Stop>
    requires sound { IsSound problem.now }
    requires well_formed { IsWellFormed problem.now.signature structure.now }
    ensures { IfOk result (λ first. (first ≡ None) ↔ AreModel problem.now structure.now) }
{
    let mut env = FofEnv::new(alloc, problem.most_terms())?;
    Ok(structure.first_false(problem, &mut env))
}

/// The model of an untyped table.
pub fn untyped_model_of(alloc: Global, encoding: &Encoding, table: &[u8]) -> Result<Structure, Stop>
    requires sound { IsSound encoding.now.encoded.problem }
    requires named { AreNamed encoding.now.names encoding.now.encoded.problem }
    ensures { IfOk result (AreModel encoding.now.encoded.problem) }
{
    let structure = untyped_of(alloc, encoding, table)?;
    match first_false_in(alloc, &encoding.encoded.problem, &structure)? {
        None => Ok(structure),
        Some(formula) => Err(no_model(alloc, formula)),
    }
}
