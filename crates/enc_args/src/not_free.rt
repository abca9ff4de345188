//! For which place `erase` is refused.

ghost use Rattle.std.specs.Prelude.{◌≡◌, eqb, length, IfOk, IsTrue};
ghost use Rattle.tf_core.specs.Sound.{IsSoundNormal, is_monomorphic};
ghost use Rattle.enc_marks.specs.Applies.{first_not_free};

use enc_base::NoMemory;
use std::alloc::Global;
use tf_core::{Normal, Ty};
use tf_naked::{Place, first_naked, sorts};

/// The first naked place of a sort that isn't free, of a problem without type variables. Where there
/// are several sorts none with a naked place is free, and a sort that stands alone is; so the sorts
/// are only counted, and only where some place is naked.
pub fn first_not_free(alloc: Global, normal: &Normal) -> Result<Option<Place>, NoMemory>
    requires sound { IsSoundNormal normal.now }
    requires monomorphic { IsTrue (is_monomorphic normal.now) }
    ensures exact { IfOk result (λ place. place ≡ first_not_free normal.now) }
{
    let Some(place) = first_naked(normal) else {
        return Ok(None);
    };
    if is_one(sorts(alloc, normal)?.as_slice()) {
        return Ok(None);
    }
    Ok(Some(place))
}

// whether there is one type alone
fn is_one(types: &[Ty]) -> bool
    ensures { result ≡ eqb (length types.now) 1 }
{
    types.len() == 1
}
