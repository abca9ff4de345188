ghost use Rattle.std.specs.Prelude.{◌≡◌, ◌⊎◌, ◌≤◌, IfOk, IfErr};
ghost use Rattle.tf_core.specs.Sound.{IsSoundNormal};
ghost use Rattle.tf_core.specs.TypedTables.{AreNormalModel};
ghost use Rattle.tf_models.specs.Reading.{tables};
ghost use Rattle.fof_models.specs.Models.{AreModel};
ghost use Rattle.enc_base.specs.Counts.{most_entries};
ghost use Rattle.enc_marks.specs.Applies.{Applies};
ghost use Rattle.enc_marks.specs.Encoded as encoding;
ghost use Rattle.enc_marks.specs.Schemes.{choices_of};
ghost use Rattle.enc_models.specs.LiftedTables.{lifted_tables, lifted_entries, IsLiftRefused};

use crate::guards::GuardsFeather;
use crate::tags::TagsFeather;
use enc_marks::{Encoded, FreeSorts, Refusal, Scheme};
use enc_models::lift_by;
use fof_models::Structure;
use std::alloc::Global;
use tf_core::Normal;
use tf_models::TypedStructure;

/// The typed model that an untyped model of a translation gives of the normal problem. Its members
/// are the sorts. The elements of a sort that isn't free are those for which the guard holds,
/// or that the tag leaves as they are; of a free sort, all.
///
/// Refused where its tables would hold more than 67,108,864 numbers, the sizes counted in. They are
/// counted first, and no table is made for a model that is refused.
pub fn lift(
    alloc: Global,
    which: Scheme,
    normal: &Normal,
    encoded: &Encoded,
    model: &Structure,
) -> Result<TypedStructure, Refusal>
    requires scheme { (which ≡ Scheme.GuardsFeather) ⊎ (which ≡ Scheme.TagsFeather) }
    requires applies { Applies which normal.now }
    requires sound { IsSoundNormal normal.now }
    requires encoded { encoded.now ≡ encoding.encoded (choices_of which normal.now) normal.now }
    requires model { AreModel encoded.now.problem model.now }
    ensures model { IfOk result (λ t. AreNormalModel normal.now (tables t)) }
    ensures exact { IfOk result (λ t. tables t
        ≡ lifted_tables (choices_of which normal.now) normal.now model.now) }
    ensures within { IfOk result (λ t. lifted_entries (choices_of which normal.now) normal.now
        model.now ≤ most_entries) }
    ensures refused { IfErr result
        (IsLiftRefused (choices_of which normal.now) normal.now model.now) }
{
    let free = FreeSorts::new(alloc, normal)?;
    match which {
        Scheme::GuardsFeather => lift_by(
            alloc,
            &GuardsFeather { free: &free },
            normal,
            encoded,
            model,
        ),
        Scheme::TagsFeather => lift_by(alloc, &TagsFeather { free: &free }, normal, encoded, model),
        _ => unreachable!(),
    }
}
