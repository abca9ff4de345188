//! Models lifted by a guard or tag of all types: each number of the domain is a member.

ghost use Rattle.std.specs.Prelude.{◌≡◌, IfOk};
ghost use Rattle.tf_core.specs.Sound.{IsSoundNormal};
ghost use Rattle.tf_core.specs.Structures.{IsStructure};
ghost use Rattle.fof_models.specs.Structures.{IsWellFormed};
ghost use Rattle.enc_marks.specs.declared.choices.Binding.TheVariants.{ByTag};
ghost use Rattle.enc_marks.specs.declared.choices.Elements.TheVariants.{Image};
ghost use Rattle.enc_marks.specs.declared.choices.Marking.TheVariants.{ByType};
ghost use Rattle.enc_marks.specs.Encoded as encoding;
ghost use Rattle.enc_models.specs.Calls.Lifting.{parts_of, typed_in, IsCounted, IsMarked};
ghost use Rattle.enc_models.specs.LiftedTables.{lifted_structure};

use crate::kept::kept_of_symbols;
use crate::lifting::Lifting;
use crate::marked::{Marked, places_of_marks};
use crate::rows::Rows;
use crate::to_typed::{Lifted, MOST_ENTRIES};
use enc_base::NoMemory;
use enc_marks::{Choices, Mark};
use fof_models::Structure;
use std::alloc::Global;
use structure_tables::{tabulate_typed, typed_entries};
use tf_core::Normal;

/// The tables of the lifted structure, or their count.
pub(crate) fn lifted_by_type<C: Choices>(
    alloc: Global,
    choices: &C,
    normal: &Normal,
    marks: &[Mark],
    model: &Structure,
) -> Result<Lifted, NoMemory>
    requires by_type { (C.choices choices.now).marking ≡ ByType }
    requires tagged { (C.choices choices.now).elements ≡ Image
        → (C.choices choices.now).binding ≡ ByTag }
    requires sound { IsSoundNormal normal.now }
    requires marks { marks.now ≡ (encoding.encoded (C.choices choices.now) normal.now).marks }
    requires well_formed { IsWellFormed
        (encoding.encoded (C.choices choices.now) normal.now).problem.signature model.now }
    requires fits { IsStructure normal.now.signature
        (lifted_structure (C.choices choices.now) normal.now model.now) }
    ensures { IfOk result (IsCounted normal.now.signature
        (lifted_structure (C.choices choices.now) normal.now model.now)) }
{
    let places = places_of_marks(alloc, choices, normal, 1, marks)?;
    let symbols = normal.signature.symbols.as_slice();
    let kept = kept_of_symbols(alloc, choices.keeps(), symbols)?;
    let marked = Marked {
        choices,
        normal,
        model,
        places: places.as_slice(),
        kept: kept.as_slice(),
        free: &[],
    };
    tables_or_count(alloc, &marked)
}

// those of a structure whose tables are found
fn tables_or_count<C: Choices>(alloc: Global, marked: &Marked<'_, C>) -> Result<Lifted, NoMemory>
    requires by_type { (C.choices marked.now.choices.now).marking ≡ ByType }
    requires ready { IsMarked (parts_of C.choices marked.now) }
    requires fits { IsStructure marked.now.normal.now.signature
        (typed_in (parts_of C.choices marked.now)) }
    ensures { IfOk result (IsCounted marked.now.normal.now.signature
        (typed_in (parts_of C.choices marked.now))) }
{
    let size = marked.model.size;
    let Rows { sizes, picked } = marked.rows(alloc, size, size)?;
    let lifting = Lifting {
        marked,
        picked: picked.as_slice(),
        formed: &[],
    };
    let signature = &marked.normal.signature;
    let entries = typed_entries(alloc, signature, sizes.as_slice(), &lifting)?;
    if entries > MOST_ENTRIES {
        return Ok(Lifted::TooLarge(entries));
    }
    let made = tabulate_typed(alloc, signature, sizes, &lifting)?;
    Ok(Lifted::Made(made))
}
