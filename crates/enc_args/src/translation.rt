ghost use Rattle.std.specs.Prelude.{◌≡◌, ◌⊎◌, IfOk, IfErr, IsTrue, OnOk};
ghost use Rattle.tf_core.specs.Sound.{IsSoundNormal, is_monomorphic};
ghost use Rattle.fof_models.specs.Sound.{IsSound};
ghost use Rattle.enc_marks.specs.Applies.{Applies, IsRefused};
ghost use Rattle.enc_marks.specs.Encoded as encoding;
ghost use Rattle.enc_marks.specs.Schemes.{choices_of};

use crate::args::Args;
use crate::erase::Erase;
use crate::not_free::first_not_free;
use enc_marks::{Encoded, Refusal, Scheme, encode_by, first_polymorphic};
use std::alloc::Global;
use tf_core::Normal;
use tf_naked::first_naked;

/// The translation of a normal problem. `args` is refused where the problem has a naked place, by
/// the first of them. `erase` is refused where the problem has type variables, by the first name
/// with one, and then where a naked place has a sort that isn't free, by the first of these. Both
/// are refused for want of memory.
///
/// The time and the memory are proportional to the problem and its translation.
pub fn encode(alloc: Global, which: Scheme, normal: &Normal) -> Result<Encoded, Refusal>
    requires scheme { (which ≡ Scheme.Args) ⊎ (which ≡ Scheme.Erase) }
    requires sound { IsSoundNormal normal.now }
    ensures exact { IfOk result (λ made. made ≡ encoding.encoded (choices_of which normal.now)
        normal.now) }
    ensures sound { IfOk result (λ made. IsSound made.problem) }
    ensures applies { IfOk result (λ made. Applies which normal.now) }
    ensures refused { IfErr result (IsRefused which normal.now) }
{
    refuse_unsuited(alloc, &which, normal)?;
    encode_applying(alloc, which, normal)
}

// refused where the scheme doesn't apply
fn refuse_unsuited(alloc: Global, which: &Scheme, normal: &Normal) -> Result<(), Refusal>
    requires scheme { (which.now ≡ Scheme.Args) ⊎ (which.now ≡ Scheme.Erase) }
    requires sound { IsSoundNormal normal.now }
    ensures applies { OnOk result (Applies which.now normal.now) }
    ensures refused { IfErr result (IsRefused which.now normal.now) }
{
    match which {
        Scheme::Args => refuse_naked(normal),
        Scheme::Erase => refuse_typed(alloc, normal),
        _ => unreachable!(),
    }
}

// what `args` can't take
fn refuse_naked(normal: &Normal) -> Result<(), Refusal>
    requires sound { IsSoundNormal normal.now }
    ensures applies { OnOk result (Applies Scheme.Args normal.now) }
    ensures refused { IfErr result (IsRefused Scheme.Args normal.now) }
{
    match first_naked(normal) {
        Some(place) => Err(Refusal::NotMonotone { place }),
        None => Ok(()),
    }
}

// what `erase` can't take
fn refuse_typed(alloc: Global, normal: &Normal) -> Result<(), Refusal>
    requires sound { IsSoundNormal normal.now }
    ensures applies { OnOk result (Applies Scheme.Erase normal.now) }
    ensures refused { IfErr result (IsRefused Scheme.Erase normal.now) }
{
    match first_polymorphic(alloc, normal)? {
        Some(name) => Err(Refusal::NotMonomorphic { name }),
        None => refuse_not_free(alloc, normal),
    }
}

// the same of a problem without type variables
fn refuse_not_free(alloc: Global, normal: &Normal) -> Result<(), Refusal>
    requires sound { IsSoundNormal normal.now }
    requires monomorphic { IsTrue (is_monomorphic normal.now) }
    ensures applies { OnOk result (Applies Scheme.Erase normal.now) }
    ensures refused { IfErr result (IsRefused Scheme.Erase normal.now) }
{
    match first_not_free(alloc, normal)? {
        Some(place) => Err(Refusal::NotMonotone { place }),
        None => Ok(()),
    }
}

// the translation by a scheme that applies
fn encode_applying(alloc: Global, which: Scheme, normal: &Normal) -> Result<Encoded, Refusal>
    requires scheme { (which ≡ Scheme.Args) ⊎ (which ≡ Scheme.Erase) }
    requires applies { Applies which normal.now }
    requires sound { IsSoundNormal normal.now }
    ensures exact { IfOk result (λ made. made ≡ encoding.encoded (choices_of which normal.now)
        normal.now) }
    ensures sound { IfOk result (λ made. IsSound made.problem) }
    ensures refused { IfErr result (IsRefused which normal.now) }
{
    match which {
        Scheme::Args => encode_by(alloc, &Args, normal),
        Scheme::Erase => encode_by(alloc, &Erase, normal),
        _ => unreachable!(),
    }
}
