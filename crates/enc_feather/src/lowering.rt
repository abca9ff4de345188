ghost use Rattle.std.specs.Prelude.{◌≡◌, ◌⊎◌, ◌<◌, ◌≤◌, ◌^◌, length, IfOk, IfErr};
ghost use Rattle.tf_core.specs.Sound.{IsSoundNormal};
ghost use Rattle.tf_core.specs.TypedTables.{AreNormalModel};
ghost use Rattle.tf_models.specs.Reading.{tables};
ghost use Rattle.fof_models.specs.Models.{AreModel};
ghost use Rattle.enc_base.specs.Counts.{most_entries};
ghost use Rattle.enc_marks.specs.Applies.{Applies};
ghost use Rattle.enc_marks.specs.Encoded as encoding;
ghost use Rattle.enc_marks.specs.Schemes.{choices_of};
ghost use Rattle.enc_models.specs.Lowered.{lowered, lowered_entries, IsRefused};

use crate::guards::GuardsFeather;
use crate::tags::TagsFeather;
use enc_marks::{Encoded, FreeSorts, Refusal, Scheme};
use enc_models::{lower_collapsed_by, refuse_large};
use fof_models::Structure;
use std::alloc::Global;
use tf_core::Normal;
use tf_models::TypedStructure;

/// The untyped model that a typed model of a normal problem gives of its translation. It has as many
/// elements as the greatest member that is the value of a sort. A number beyond a sort's size is read
/// as its first element.
///
/// Refused where its tables would hold more than 67,108,864 numbers, the size counted in. They are
/// counted first, and nothing is made for a model that is refused.
pub fn lower(
    alloc: Global,
    which: Scheme,
    normal: &Normal,
    encoded: &Encoded,
    model: &TypedStructure,
) -> Result<Structure, Refusal>
    requires scheme { (which ≡ Scheme.GuardsFeather) ⊎ (which ≡ Scheme.TagsFeather) }
    requires applies { Applies which normal.now }
    requires sound { IsSoundNormal normal.now }
    requires encoded { encoded.now ≡ encoding.encoded (choices_of which normal.now) normal.now }
    requires model { AreNormalModel normal.now (tables model.now) }
    requires few { length model.now.sizes < 2 ^ 32 }
    ensures model { IfOk result (AreModel encoded.now.problem) }
    ensures exact { IfOk result (λ s. s
        ≡ lowered (choices_of which normal.now) normal.now (tables model.now)) }
    ensures within { IfOk result (λ s. lowered_entries (choices_of which normal.now) normal.now
        (tables model.now) ≤ most_entries) }
    ensures refused { IfErr result
        (IsRefused (choices_of which normal.now) normal.now (tables model.now)) }
{
    refuse_large(alloc, normal, encoded, model)?;
    let free = FreeSorts::new(alloc, normal)?;
    match which {
        Scheme::GuardsFeather => {
            lower_collapsed_by(
                alloc,
                &GuardsFeather { free: &free },
                normal,
                encoded,
                model,
            )
        }
        Scheme::TagsFeather => {
            lower_collapsed_by(alloc, &TagsFeather { free: &free }, normal, encoded, model)
        }
        _ => unreachable!(),
    }
}
