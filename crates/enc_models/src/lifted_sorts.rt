//! Models lifted by guards or tags of sorts: each sort is a member.

ghost use Rattle.std.specs.Prelude.{◌≡◌, IfOk, IsTrue};
ghost use Rattle.tf_core.specs.Sound.{is_monomorphic, IsSoundNormal};
ghost use Rattle.tf_core.specs.Structures.{IsStructure};
ghost use Rattle.tf_core.specs.Sorts.{sorts};
ghost use Rattle.fof_models.specs.Structures.{IsWellFormed};
ghost use Rattle.enc_marks.specs.declared.choices.Binding.TheVariants.{ByTag};
ghost use Rattle.enc_marks.specs.declared.choices.Elements.TheVariants.{Image};
ghost use Rattle.enc_marks.specs.declared.choices.Marking.TheVariants.{BySort};
ghost use Rattle.enc_marks.specs.Encoded as encoding;
ghost use Rattle.enc_models.specs.Calls.Lifting.{parts_of, typed_in, IsCounted, IsMarked};
ghost use Rattle.enc_models.specs.LiftedTables.{lifted_structure};

use crate::kept::kept_of_symbols;
use crate::lifting::Lifting;
use crate::marked::{Marked, places_of_marks};
use crate::rows::Rows;
use crate::sort_counts::entries_over_sorts;
use crate::sort_numbers::SortNumbers;
use crate::sort_tables::tables_over_sorts;
use crate::to_typed::{Lifted, MOST_ENTRIES};
use enc_base::NoMemory;
use enc_marks::{Choices, Mark};
use fof_models::Structure;
use std::alloc::Global;
use structure_tables::tabulate_typed;
use tf_core::{Normal, Ty};
use tf_naked::{free_sorts, sorts};

/// The tables of the lifted structure, or their count.
pub(crate) fn lifted_by_sort<C: Choices>(
    alloc: Global,
    choices: &C,
    normal: &Normal,
    marks: &[Mark],
    model: &Structure,
) -> Result<Lifted, NoMemory>
    requires by_sort { (C.choices choices.now).marking ≡ BySort }
    requires monomorphic { IsTrue (is_monomorphic normal.now) }
    requires tagged { (C.choices choices.now).elements ≡ Image
        → (C.choices choices.now).binding ≡ ByTag }
    requires sound { IsSoundNormal normal.now }
    requires marks { marks.now ≡ (encoding.encoded (C.choices choices.now) normal.now).marks }
    requires well_formed { IsWellFormed
        (encoding.encoded (C.choices choices.now) normal.now).problem.signature model.now }
    requires fits { IsStructure normal.now.signature
        (lifted_structure (C.choices choices.now) normal.now model.now) }
    ensures { IfOk result (IsCounted normal.now.signature
        (lifted_structure (C.choices choices.now) normal.now model.now)) }
{
    let listed = sorts(alloc, normal)?;
    let free = free_sorts(alloc, normal, listed.as_slice())?;
    let count = listed.as_slice().len();
    let places = places_of_marks(alloc, choices, normal, count, marks)?;
    let symbols = normal.signature.symbols.as_slice();
    let kept = kept_of_symbols(alloc, choices.keeps(), symbols)?;
    let marked = Marked {
        choices,
        normal,
        model,
        places: places.as_slice(),
        kept: kept.as_slice(),
        free: free.as_slice(),
    };
    tables_or_count(alloc, &marked, listed.as_slice())
}

// those of a structure whose tables are found, over these sorts
fn tables_or_count<C: Choices>(
    alloc: Global,
    marked: &Marked<'_, C>,
    listed: &[Ty],
) -> Result<Lifted, NoMemory>
    requires by_sort { (C.choices marked.now.choices.now).marking ≡ BySort }
    requires monomorphic { IsTrue (is_monomorphic marked.now.normal.now) }
    requires sound { IsSoundNormal marked.now.normal.now }
    requires listed { listed.now ≡ sorts marked.now.normal.now }
    requires ready { IsMarked (parts_of C.choices marked.now) }
    requires fits { IsStructure marked.now.normal.now.signature
        (typed_in (parts_of C.choices marked.now)) }
    ensures { IfOk result (IsCounted marked.now.normal.now.signature
        (typed_in (parts_of C.choices marked.now))) }
{
    let signature = &marked.normal.signature;
    let members = listed.len() as u32;
    let size = marked.model.size;
    let mut numbers = SortNumbers::new(alloc, listed)?;
    let counted = marked.sizes(alloc, members, size)?;
    let entries = entries_over_sorts(signature, counted.as_slice(), listed, &mut numbers)?;
    if entries > MOST_ENTRIES {
        return Ok(Lifted::TooLarge(entries));
    }
    let Rows { sizes, picked } = marked.rows(alloc, members, size)?;
    let formed = tables_over_sorts(alloc, signature, listed, &mut numbers)?;
    let lifting = Lifting {
        marked,
        picked: picked.as_slice(),
        formed: formed.as_slice(),
    };
    let made = tabulate_typed(alloc, signature, sizes, &lifting)?;
    Ok(Lifted::Made(made))
}
