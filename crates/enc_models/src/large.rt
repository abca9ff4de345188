ghost use Rattle.std.specs.Prelude.{◌<◌, ◌≤◌, ◌^◌, length, IfErr, IsTrue, OnOk};
ghost use Rattle.tf_core.specs.Sound.{is_monomorphic, IsSoundNormal};
ghost use Rattle.tf_core.specs.TypedTables.{AreNormalModel};
ghost use Rattle.tf_models.specs.Reading.{tables};
ghost use Rattle.enc_base.specs.Counts.{most_entries};
ghost use Rattle.enc_models.specs.Lowered.{IsTooLarge, entries_by_sort};

use crate::sort_sizes::greatest_sort_size;
use crate::to_typed::MOST_ENTRIES;
use enc_marks::{Encoded, Refusal};
use std::alloc::Global;
use structure_tables::untyped_entries;
use tf_core::Normal;
use tf_models::TypedStructure;

/// Refused where the tables that a model gives over the collapsed domain would hold more than
/// 67,108,864 numbers, by a scheme whose marks are of sorts. They are counted without memory, before
/// what is needed to make them.
pub fn refuse_large(
    alloc: Global,
    normal: &Normal,
    encoded: &Encoded,
    model: &TypedStructure,
) -> Result<(), Refusal>
    requires monomorphic { IsTrue (is_monomorphic normal.now) }
    requires sound { IsSoundNormal normal.now }
    requires model { AreNormalModel normal.now (tables model.now) }
    requires few { length model.now.sizes < 2 ^ 32 }
    ensures within { OnOk result (entries_by_sort normal.now encoded.now (tables model.now)
        ≤ most_entries) }
    ensures refused { IfErr result
        (IsTooLarge (entries_by_sort normal.now encoded.now (tables model.now))) }
{
    let size = greatest_sort_size(alloc, normal, model);
    let entries = untyped_entries(size as u64, encoded.problem.signature.as_slice());
    if entries > MOST_ENTRIES {
        return Err(Refusal::TableTooLarge { entries });
    }
    Ok(())
}
