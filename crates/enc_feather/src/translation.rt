ghost use Rattle.std.specs.Prelude.{◌≡◌, ◌⊎◌, IfOk, IfErr};
ghost use Rattle.tf_core.specs.Sound.{IsSoundNormal};
ghost use Rattle.fof_models.specs.Sound.{IsSound};
ghost use Rattle.tf_naked.specs.Naked.{is_free};
ghost use Rattle.enc_marks.specs.Applies.{Applies, IsRefused};
ghost use Rattle.enc_marks.specs.Encoded as encoding;
ghost use Rattle.enc_marks.specs.FreeByTable.{is_free_by};
ghost use Rattle.enc_marks.specs.Schemes.{choices_of};

use crate::guards::GuardsFeather;
use crate::tags::TagsFeather;
use enc_marks::{Encoded, FreeSorts, Refusal, Scheme, encode_by, first_polymorphic};
use std::alloc::Global;
use tf_core::Normal;

/// The translation of a normal problem. Refused where the problem has type variables, by the first
/// name with one, or for want of memory.
///
/// The time and the memory are proportional to the problem and its translation.
pub fn encode(alloc: Global, which: Scheme, normal: &Normal) -> Result<Encoded, Refusal>
    requires scheme { (which ≡ Scheme.GuardsFeather) ⊎ (which ≡ Scheme.TagsFeather) }
    requires sound { IsSoundNormal normal.now }
    ensures exact { IfOk result (λ made. made ≡ encoding.encoded (choices_of which normal.now)
        normal.now) }
    ensures sound { IfOk result (λ made. IsSound made.problem) }
    ensures applies { IfOk result (λ made. Applies which normal.now) }
    ensures refused { IfErr result (IsRefused which normal.now) }
{
    if let Some(name) = first_polymorphic(alloc, normal)? {
        return Err(Refusal::NotMonomorphic { name });
    }
    let free = FreeSorts::new(alloc, normal)?;
    encode_free(alloc, which, normal, &free)
}

// the same, where it is known which sorts are free
fn encode_free(
    alloc: Global,
    which: Scheme,
    normal: &Normal,
    free: &FreeSorts,
) -> Result<Encoded, Refusal>
    requires scheme { (which ≡ Scheme.GuardsFeather) ⊎ (which ≡ Scheme.TagsFeather) }
    requires free { is_free_by free.now ≡ is_free normal.now }
    requires applies { Applies which normal.now }
    requires sound { IsSoundNormal normal.now }
    ensures exact { IfOk result (λ made. made ≡ encoding.encoded (choices_of which normal.now)
        normal.now) }
    ensures sound { IfOk result (λ made. IsSound made.problem) }
    ensures refused { IfErr result (IsRefused which normal.now) }
{
    match which {
        Scheme::GuardsFeather => encode_by(alloc, &GuardsFeather { free }, normal),
        Scheme::TagsFeather => encode_by(alloc, &TagsFeather { free }, normal),
        _ => unreachable!(),
    }
}
