ghost use Rattle.std.specs.Prelude.{◌≡◌, ◌⊎◌, ◌≤◌, IfOk, IfErr};
ghost use Rattle.tf_core.specs.Sound.{IsSoundNormal};
ghost use Rattle.tf_core.specs.TypedTables.{AreNormalModel};
ghost use Rattle.tf_models.specs.Reading.{tables};
ghost use Rattle.fof_models.specs.Models.{AreModel};
ghost use Rattle.enc_base.specs.Counts.{most_entries};
ghost use Rattle.enc_marks.specs.Applies.{Applies};
ghost use Rattle.enc_marks.specs.Encoded as encoding;
ghost use Rattle.enc_marks.specs.Schemes.{choices_of};
ghost use Rattle.enc_models.specs.LiftedTables.{lifted_tables, lifted_entries, IsLiftRefused};

use crate::args::Args;
use crate::erase::Erase;
use enc_marks::{Encoded, Refusal, Scheme};
use fof_models::Structure;
use std::alloc::Global;
use tf_core::Normal;
use tf_models::TypedStructure;

/// The typed model that an untyped model of a translation gives of the normal problem. Its members
/// are the elements of the untyped one under `args`, and the sorts under `erase`. The elements of each
/// member are those of the untyped one.
///
/// Refused where its tables would hold more than 67,108,864 numbers, the sizes counted in. They are
/// counted first, and no table is made for a model that is refused.
pub fn lift(
    alloc: Global,
    which: Scheme,
    normal: &Normal,
    encoded: &Encoded,
    model: &Structure,
) -> Result<TypedStructure, Refusal>
    requires scheme { (which ≡ Scheme.Args) ⊎ (which ≡ Scheme.Erase) }
    requires applies { Applies which normal.now }
    requires sound { IsSoundNormal normal.now }
    requires encoded { encoded.now ≡ encoding.encoded (choices_of which normal.now) normal.now }
    requires model { AreModel encoded.now.problem model.now }
    ensures model { IfOk result (λ t. AreNormalModel normal.now (tables t)) }
    ensures exact { IfOk result (λ t. tables t
        ≡ lifted_tables (choices_of which normal.now) normal.now model.now) }
    ensures within { IfOk result (λ t. lifted_entries (choices_of which normal.now) normal.now
        model.now ≤ most_entries) }
    ensures refused { IfErr result
        (IsLiftRefused (choices_of which normal.now) normal.now model.now) }
{
    match which {
        Scheme::Args => enc_models::lift_by(alloc, &Args, normal, encoded, model),
        Scheme::Erase => enc_models::lift_by(alloc, &Erase, normal, encoded, model),
        _ => unreachable!(),
    }
}
