ghost use Rattle.std.specs.Prelude.{◌≡◌, IfOk, IfErr};
ghost use Rattle.tf_core.specs.Sound.{IsSoundNormal};
ghost use Rattle.fof_models.specs.Sound.{IsSound};
ghost use Rattle.enc_marks.specs.Applies.{Applies, IsRefused};
ghost use Rattle.enc_marks.specs.Encoded as encoding;
ghost use Rattle.enc_marks.specs.Schemes.{choices_of};

use crate::choices::Tags;
use enc_base::NoMemory;
use enc_marks::{Encoded, Refusal, Scheme};
use std::alloc::Global;
use tf_core::Normal;

/// The translation of a normal problem. It applies to every problem, so it is refused for want of
/// memory alone.
///
/// The time and the memory are proportional to the problem and its translation.
pub fn encode(alloc: Global, which: Scheme, normal: &Normal) -> Result<Encoded, Refusal>
    requires scheme { which ≡ Scheme.Tags }
    requires sound { IsSoundNormal normal.now }
    ensures exact { IfOk result (λ made. made ≡ encoding.encoded (choices_of which normal.now)
        normal.now) }
    ensures sound { IfOk result (λ made. IsSound made.problem) }
    ensures applies { IfOk result (λ made. Applies which normal.now) }
    ensures refused { IfErr result (IsRefused which normal.now) }
{
    match enc_marks::encode(alloc, &Tags, normal) {
        Ok(made) => Ok(made),
        Err(NoMemory) => Err(Refusal::Memory),
    }
}
