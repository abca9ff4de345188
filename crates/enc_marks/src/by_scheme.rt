ghost use Rattle.std.specs.Prelude.{◌≡◌, IfOk, IfErr};
ghost use Rattle.tf_core.specs.Sound.{IsSoundNormal};
ghost use Rattle.fof_models.specs.Sound.{IsSound};
ghost use Rattle.enc_marks.specs.declared.scheme.Scheme.{Scheme};
ghost use Rattle.enc_marks.specs.Applies.{Applies, IsRefused};
ghost use Rattle.enc_marks.specs.Encoded.{encoded};
ghost use Rattle.enc_marks.specs.Schemes.{choices_of};

use crate::choices::Choices;
use crate::encoded::Encoded;
use crate::encoding::encode;
use crate::refusal::Refusal;
use enc_base::NoMemory;
use std::alloc::Global;
use tf_core::Normal;

/// The translation of a normal problem by the choices of a scheme that applies to it. Refused for
/// want of memory alone.
///
/// The time and the memory are proportional to the problem and its translation.
pub fn encode_by<C: Choices>(
    alloc: Global,
    choices: &C,
    normal: &Normal,
) -> Result<Encoded, Refusal>
    ghost which: { Scheme }
    requires choices { C.choices choices.now ≡ choices_of which normal.now }
    requires applies { Applies which normal.now }
    requires sound { IsSoundNormal normal.now }
    ensures exact { IfOk result (λ made. made ≡ encoded (choices_of which normal.now) normal.now) }
    ensures sound { IfOk result (λ made. IsSound made.problem) }
    ensures refused { IfErr result (IsRefused which normal.now) }
{
    match encode(alloc, choices, normal) {
        Ok(made) => Ok(made),
        Err(NoMemory) => Err(Refusal::Memory),
    }
}
