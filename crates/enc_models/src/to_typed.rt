ghost use Rattle.std.specs.Prelude.{◌≡◌, ◌≤◌, IfOk, IfErr, IsTrue};
ghost use Rattle.tf_core.specs.Sound.{is_monomorphic, IsSoundNormal};
ghost use Rattle.tf_core.specs.Structures.{IsStructure};
ghost use Rattle.tf_models.specs.Reading.{tables};
ghost use Rattle.enc_base.specs.Counts.{most_entries};
ghost use Rattle.fof_models.specs.Models.{AreModel};
ghost use Rattle.enc_marks.specs.declared.choices.Binding.TheVariants.{ByTag};
ghost use Rattle.enc_marks.specs.declared.choices.Elements.TheVariants.{Image};
ghost use Rattle.enc_marks.specs.declared.choices.Marking.TheVariants.{BySort};
ghost use Rattle.enc_marks.specs.Encoded as encoding;
ghost use Rattle.enc_models.specs.Calls.Lifting.{IsCounted};
ghost use Rattle.enc_models.specs.LiftedTables.{lifted_structure, lifted_tables, lifted_entries, IsLiftRefused};

use crate::lifted_sorts::lifted_by_sort;
use crate::lifted_types::lifted_by_type;
use enc_base::NoMemory;
use enc_marks::{Choices, Encoded, Marking, Refusal};
use fof_models::Structure;
use std::alloc::Global;
use tf_core::Normal;
use tf_models::TypedStructure;

/// The most numbers that the tables of a structure may hold.
pub(crate) const MOST_ENTRIES: u64 = 67_108_864;

/// The typed model that an untyped model of a translation gives of the normal problem. Its members
/// are the numbers of the domain where the guard or tag has the type as an argument, and else the
/// sorts.
///
/// Refused where the tables would hold more than 67,108,864 numbers. They are counted first, and
/// no table is made for a model that is refused.
pub fn lift<C: Choices>(
    alloc: Global,
    choices: &C,
    normal: &Normal,
    encoded: &Encoded,
    model: &Structure,
) -> Result<TypedStructure, Refusal>
    requires monomorphic { (C.choices choices.now).marking ≡ BySort
        → IsTrue (is_monomorphic normal.now) }
    requires tagged { (C.choices choices.now).elements ≡ Image
        → (C.choices choices.now).binding ≡ ByTag }
    requires sound { IsSoundNormal normal.now }
    requires encoded { encoded.now ≡ encoding.encoded (C.choices choices.now) normal.now }
    requires model { AreModel encoded.now.problem model.now }
    requires fits { IsStructure normal.now.signature
        (lifted_structure (C.choices choices.now) normal.now model.now) }
    ensures exact { IfOk result (λ t. tables t
        ≡ lifted_tables (C.choices choices.now) normal.now model.now) }
    ensures within { IfOk result (λ t. lifted_entries (C.choices choices.now) normal.now model.now
        ≤ most_entries) }
    ensures refused { IfErr result (IsLiftRefused (C.choices choices.now) normal.now model.now) }
{
    match lifted_or_count(alloc, choices, normal, encoded, model) {
        Ok(Lifted::Made(made)) => Ok(made),
        Ok(Lifted::TooLarge(entries)) => Err(Refusal::TableTooLarge { entries }),
        Err(NoMemory) => Err(Refusal::Memory),
    }
}

/// A lifted structure, or how many numbers its tables would hold.
#[derive(Drop)]
pub(crate) enum Lifted {
    Made(TypedStructure),
    TooLarge(u64),
}

// the tables, or their count
fn lifted_or_count<C: Choices>(
    alloc: Global,
    choices: &C,
    normal: &Normal,
    encoded: &Encoded,
    model: &Structure,
) -> Result<Lifted, NoMemory>
    requires monomorphic { (C.choices choices.now).marking ≡ BySort
        → IsTrue (is_monomorphic normal.now) }
    requires tagged { (C.choices choices.now).elements ≡ Image
        → (C.choices choices.now).binding ≡ ByTag }
    requires sound { IsSoundNormal normal.now }
    requires encoded { encoded.now ≡ encoding.encoded (C.choices choices.now) normal.now }
    requires model { AreModel encoded.now.problem model.now }
    requires fits { IsStructure normal.now.signature
        (lifted_structure (C.choices choices.now) normal.now model.now) }
    ensures { IfOk result (IsCounted normal.now.signature
        (lifted_structure (C.choices choices.now) normal.now model.now)) }
{
    let marks = encoded.marks.as_slice();
    match choices.marking() {
        Marking::ByType => lifted_by_type(alloc, choices, normal, marks, model),
        Marking::BySort => lifted_by_sort(alloc, choices, normal, marks, model),
    }
}
