//! The schemes, each by its own crate. A new one is an arm of each match here.

ghost use Rattle.std.specs.Prelude.{◌≡◌, ◌≤◌, ◌<◌, ◌^◌, length, IfOk, IfErr};
ghost use Rattle.enc_base.specs.Counts.{most_entries};
ghost use Rattle.tf_core.specs.Sound.{IsSoundNormal};
ghost use Rattle.tf_core.specs.TypedTables.{AreNormalModel};
ghost use Rattle.tf_models.specs.Reading.{tables};
ghost use Rattle.fof_models.specs.Models.{AreModel};
ghost use Rattle.enc_marks.specs.Applies.{Applies};
ghost use Rattle.enc_marks.specs.Applies as applies;
ghost use Rattle.enc_marks.specs.Encoded as encoding;
ghost use Rattle.enc_marks.specs.Schemes.{choices_of};
ghost use Rattle.enc_models.specs.Lowered.{lowered, lowered_entries, IsRefused};
ghost use Rattle.enc_models.specs.LiftedTables.{lifted_tables, lifted_entries, IsLiftRefused};

use enc_marks::{Encoded, Refusal, Scheme};
use fof_models::Structure;
use std::alloc::Global;
use tf_core::Normal;
use tf_models::TypedStructure;

/// The translation of a normal problem.
pub(crate) fn encode(alloc: Global, which: &Scheme, normal: &Normal) -> Result<Encoded, Refusal>
    requires sound { IsSoundNormal normal.now }
    ensures exact { IfOk result (λ made.
        made ≡ encoding.encoded (choices_of which.now normal.now) normal.now) }
    ensures applies { IfOk result (λ made. Applies which.now normal.now) }
    ensures refused { IfErr result (applies.IsRefused which.now normal.now) }
{
    match which {
        Scheme::Guards => enc_guards::encode(alloc, Scheme::Guards, normal),
        Scheme::Tags => enc_tags::encode(alloc, Scheme::Tags, normal),
        Scheme::GuardsCover => enc_cover::encode(alloc, Scheme::GuardsCover, normal),
        Scheme::TagsCover => enc_cover::encode(alloc, Scheme::TagsCover, normal),
        Scheme::Args => enc_args::encode(alloc, Scheme::Args, normal),
        Scheme::Erase => enc_args::encode(alloc, Scheme::Erase, normal),
        Scheme::GuardsLight => enc_light::encode(alloc, Scheme::GuardsLight, normal),
        Scheme::TagsLight => enc_light::encode(alloc, Scheme::TagsLight, normal),
        Scheme::GuardsFeather => enc_feather::encode(alloc, Scheme::GuardsFeather, normal),
        Scheme::TagsFeather => enc_feather::encode(alloc, Scheme::TagsFeather, normal),
    }
}

/// The untyped model that a model of the normal problem gives of its translation.
pub(crate) fn lower(
    alloc: Global,
    which: &Scheme,
    normal: &Normal,
    encoded: &Encoded,
    model: &TypedStructure,
) -> Result<Structure, Refusal>
    requires applies { Applies which.now normal.now }
    requires sound { IsSoundNormal normal.now }
    requires encoded { encoded.now ≡ encoding.encoded (choices_of which.now normal.now) normal.now }
    requires model { AreNormalModel normal.now (tables model.now) }
    requires few { length model.now.sizes < 2 ^ 32 }
    ensures model { IfOk result (AreModel encoded.now.problem) }
    ensures exact { IfOk result (λ s.
        s ≡ lowered (choices_of which.now normal.now) normal.now (tables model.now)) }
    ensures within { IfOk result (λ s.
        lowered_entries (choices_of which.now normal.now) normal.now (tables model.now)
        ≤ most_entries) }
    ensures refused { IfErr result
        (IsRefused (choices_of which.now normal.now) normal.now (tables model.now)) }
{
    match which {
        Scheme::Guards => enc_guards::lower(alloc, Scheme::Guards, normal, encoded, model),
        Scheme::Tags => enc_tags::lower(alloc, Scheme::Tags, normal, encoded, model),
        Scheme::GuardsCover => enc_cover::lower(alloc, Scheme::GuardsCover, normal, encoded, model),
        Scheme::TagsCover => enc_cover::lower(alloc, Scheme::TagsCover, normal, encoded, model),
        Scheme::Args => enc_args::lower(alloc, Scheme::Args, normal, encoded, model),
        Scheme::Erase => enc_args::lower(alloc, Scheme::Erase, normal, encoded, model),
        Scheme::GuardsLight => {
            enc_light::lower(alloc, Scheme::GuardsLight, normal, encoded, model)
        }
        Scheme::TagsLight => enc_light::lower(alloc, Scheme::TagsLight, normal, encoded, model),
        Scheme::GuardsFeather => {
            enc_feather::lower(alloc, Scheme::GuardsFeather, normal, encoded, model)
        }
        Scheme::TagsFeather => {
            enc_feather::lower(alloc, Scheme::TagsFeather, normal, encoded, model)
        }
    }
}

/// The typed model that a model of the translation gives of the normal problem.
pub(crate) fn lift(
    alloc: Global,
    which: &Scheme,
    normal: &Normal,
    encoded: &Encoded,
    model: &Structure,
) -> Result<TypedStructure, Refusal>
    requires applies { Applies which.now normal.now }
    requires sound { IsSoundNormal normal.now }
    requires encoded { encoded.now ≡ encoding.encoded (choices_of which.now normal.now) normal.now }
    requires model { AreModel encoded.now.problem model.now }
    ensures model { IfOk result (λ t. AreNormalModel normal.now (tables t)) }
    ensures exact { IfOk result (λ t.
        tables t ≡ lifted_tables (choices_of which.now normal.now) normal.now model.now) }
    ensures within { IfOk result (λ t.
        lifted_entries (choices_of which.now normal.now) normal.now model.now ≤ most_entries) }
    ensures refused { IfErr result
        (IsLiftRefused (choices_of which.now normal.now) normal.now model.now) }
{
    match which {
        Scheme::Guards => enc_guards::lift(alloc, Scheme::Guards, normal, encoded, model),
        Scheme::Tags => enc_tags::lift(alloc, Scheme::Tags, normal, encoded, model),
        Scheme::GuardsCover => enc_cover::lift(alloc, Scheme::GuardsCover, normal, encoded, model),
        Scheme::TagsCover => enc_cover::lift(alloc, Scheme::TagsCover, normal, encoded, model),
        Scheme::Args => enc_args::lift(alloc, Scheme::Args, normal, encoded, model),
        Scheme::Erase => enc_args::lift(alloc, Scheme::Erase, normal, encoded, model),
        Scheme::GuardsLight => enc_light::lift(alloc, Scheme::GuardsLight, normal, encoded, model),
        Scheme::TagsLight => enc_light::lift(alloc, Scheme::TagsLight, normal, encoded, model),
        Scheme::GuardsFeather => {
            enc_feather::lift(alloc, Scheme::GuardsFeather, normal, encoded, model)
        }
        Scheme::TagsFeather => {
            enc_feather::lift(alloc, Scheme::TagsFeather, normal, encoded, model)
        }
    }
}
