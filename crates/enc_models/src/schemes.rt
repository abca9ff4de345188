ghost use Rattle.std.specs.Prelude.{◌≡◌, ◌<◌, ◌≤◌, ◌^◌, length, IfOk, IfErr};
ghost use Rattle.tf_core.specs.Sound.{IsSoundNormal};
ghost use Rattle.tf_core.specs.TypedTables.{AreNormalModel};
ghost use Rattle.tf_models.specs.Reading.{tables};
ghost use Rattle.fof_models.specs.Models.{AreModel};
ghost use Rattle.enc_base.specs.Counts.{most_entries};
ghost use Rattle.enc_marks.specs.declared.scheme.Scheme.{Scheme};
ghost use Rattle.enc_marks.specs.declared.choices.Binding.TheVariants.{ByTag};
ghost use Rattle.enc_marks.specs.declared.choices.Elements.TheVariants.{Image};
ghost use Rattle.enc_marks.specs.Applies.{Applies};
ghost use Rattle.enc_marks.specs.Encoded as encoding;
ghost use Rattle.enc_marks.specs.Schemes.{choices_of};
ghost use Rattle.enc_models.specs.KeepsModels.{IsMerged, IsCollapsed, IsMarkedByType};
ghost use Rattle.enc_models.specs.LiftedTables.{lifted_tables, lifted_entries, IsLiftRefused};
ghost use Rattle.enc_models.specs.Lowered.{lowered, lowered_entries, IsRefused};

use crate::to_collapsed::lower_collapsed;
use crate::to_typed::lift;
use crate::to_untyped::lower;
use enc_marks::{Choices, Encoded, Refusal};
use fof_models::Structure;
use std::alloc::Global;
use tf_core::Normal;
use tf_models::TypedStructure;

/// The untyped model that a typed model of a normal problem gives of its translation, for the
/// choices of a scheme that lowers to the merged domain.
pub fn lower_by<C: Choices>(
    alloc: Global,
    choices: &C,
    normal: &Normal,
    encoded: &Encoded,
    model: &TypedStructure,
) -> Result<Structure, Refusal>
    ghost which: { Scheme }
    requires choices { C.choices choices.now ≡ choices_of which normal.now }
    requires merged { IsMerged which }
    requires applies { Applies which normal.now }
    requires sound { IsSoundNormal normal.now }
    requires encoded { encoded.now ≡ encoding.encoded (choices_of which normal.now) normal.now }
    requires model { AreNormalModel normal.now (tables model.now) }
    requires few { length model.now.sizes < 2 ^ 32 }
    ensures model { IfOk result (AreModel encoded.now.problem) }
    ensures exact { IfOk result (λ s. s
        ≡ lowered (choices_of which normal.now) normal.now (tables model.now)) }
    ensures within { IfOk result (λ s. lowered_entries (choices_of which normal.now) normal.now
        (tables model.now) ≤ most_entries) }
    ensures refused { IfErr result
        (IsRefused (choices_of which normal.now) normal.now (tables model.now)) }
{
    lower(alloc, choices, normal, encoded, model)
}

/// The untyped model that a typed model of a normal problem gives of its translation, for the
/// choices of a scheme that lowers to the collapsed domain.
pub fn lower_collapsed_by<C: Choices>(
    alloc: Global,
    choices: &C,
    normal: &Normal,
    encoded: &Encoded,
    model: &TypedStructure,
) -> Result<Structure, Refusal>
    ghost which: { Scheme }
    requires choices { C.choices choices.now ≡ choices_of which normal.now }
    requires collapsed { IsCollapsed which }
    requires applies { Applies which normal.now }
    requires sound { IsSoundNormal normal.now }
    requires encoded { encoded.now ≡ encoding.encoded (choices_of which normal.now) normal.now }
    requires model { AreNormalModel normal.now (tables model.now) }
    requires few { length model.now.sizes < 2 ^ 32 }
    ensures model { IfOk result (AreModel encoded.now.problem) }
    ensures exact { IfOk result (λ s. s
        ≡ lowered (choices_of which normal.now) normal.now (tables model.now)) }
    ensures within { IfOk result (λ s. lowered_entries (choices_of which normal.now) normal.now
        (tables model.now) ≤ most_entries) }
    ensures refused { IfErr result
        (IsRefused (choices_of which normal.now) normal.now (tables model.now)) }
{
    lower_collapsed(alloc, choices, normal, encoded, model)
}

/// The typed model that an untyped model of a translation gives of the normal problem, for the
/// choices of a scheme.
pub fn lift_by<C: Choices>(
    alloc: Global,
    choices: &C,
    normal: &Normal,
    encoded: &Encoded,
    model: &Structure,
) -> Result<TypedStructure, Refusal>
    ghost which: { Scheme }
    requires choices { C.choices choices.now ≡ choices_of which normal.now }
    requires tagged { (C.choices choices.now).elements ≡ Image
        → (C.choices choices.now).binding ≡ ByTag }
    requires applies { Applies which normal.now }
    requires sound { IsSoundNormal normal.now }
    requires encoded { encoded.now ≡ encoding.encoded (choices_of which normal.now) normal.now }
    requires model { AreModel encoded.now.problem model.now }
    ensures model { IfOk result (λ t. AreNormalModel normal.now (tables t)) }
    ensures exact { IfOk result (λ t. tables t
        ≡ lifted_tables (choices_of which normal.now) normal.now model.now) }
    ensures within { IfOk result (λ t. lifted_entries (choices_of which normal.now) normal.now
        model.now ≤ most_entries) }
    ensures refused { IfErr result
        (IsLiftRefused (choices_of which normal.now) normal.now model.now) }
{
    lift(alloc, choices, normal, encoded, model)
}
