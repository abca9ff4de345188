ghost use Rattle.std.specs.Prelude.{◌≡◌, ◌<◌, ◌≤◌, ◌^◌, ℕ, [], length, map, max, slice_index, IfOk, IfErr, IsTrue};
ghost use Rattle.tf_core.specs.Sorts.{sorts};
ghost use Rattle.tf_core.specs.Sound.{is_monomorphic, IsSoundNormal};
ghost use Rattle.tf_core.specs.TypedTables.{AreNormalModel, reading};
ghost use Rattle.tf_models.specs.Reading.{tables};
ghost use Rattle.tf_models.specs.Evaluation.{size_in, IsReady};
ghost use Rattle.enc_base.specs.Counts.{most_entries};
ghost use Rattle.enc_marks.specs.declared.choices.Domain.TheVariants.{Collapsed};
ghost use Rattle.enc_marks.specs.declared.choices.Marking.TheVariants.{ByType, BySort};
ghost use Rattle.enc_marks.specs.Encoded as encoding;
ghost use Rattle.enc_laws.specs.CollapsedStructure.{collapsed_size, greatest};
ghost use Rattle.enc_models.specs.Lowered.{lowered, lowered_entries, IsRefused};
ghost use Rattle.enc_models.specs.Bare.{WritesTypeArguments};
ghost use Rattle.enc_models.specs.Calls.Sources.{AreKeptTypes};
ghost use Rattle.enc_models.specs.Calls.Collapsing.{domain_of};

use crate::blocks::blocks_of_marks;
use crate::collapsing::Collapsing;
use crate::sort_sizes::{greatest_sort_size, sizes_of_sorts};
use enc_base::{List, NoMemory};
use enc_marks::{Choices, Encoded, Marking, Refusal};
use fof_models::Structure;
use std::alloc::Global;
use structure_tables::{tabulate, untyped_entries};
use tf_collapse::Collapse;
use tf_core::Normal;
use tf_models::TypedStructure;

/// The most numbers that the tables of a structure may hold.
const MOST_ENTRIES: u64 = 67_108_864;

/// The untyped model that a typed model of a normal problem gives of its translation, over the
/// collapsed domain: for choices that write each type argument and have no guard and no tag; and for
/// choices by which each sort has a guard or tag of its own, or none, where the problem has no type
/// variables. A number beyond a sort's size is read as its first element.
///
/// Refused where the tables would hold more than 67,108,864 numbers. They are counted first, and
/// nothing is made for a model that is refused.
pub fn lower_collapsed<C: Choices>(
    alloc: Global,
    choices: &C,
    normal: &Normal,
    encoded: &Encoded,
    model: &TypedStructure,
) -> Result<Structure, Refusal>
    requires collapsed { (C.choices choices.now).domain ≡ Collapsed }
    requires by_type { (C.choices choices.now).marking ≡ ByType
        → WritesTypeArguments (C.choices choices.now) }
    requires by_sort { (C.choices choices.now).marking ≡ BySort
        → IsTrue (is_monomorphic normal.now) }
    requires sound { IsSoundNormal normal.now }
    requires encoded { encoded.now ≡ encoding.encoded (C.choices choices.now) normal.now }
    requires model { AreNormalModel normal.now (tables model.now) }
    requires few { length model.now.sizes < 2 ^ 32 }
    ensures exact { IfOk result (λ s. s
        ≡ lowered (C.choices choices.now) normal.now (tables model.now)) }
    ensures within { IfOk result (λ s. lowered_entries (C.choices choices.now) normal.now
        (tables model.now) ≤ most_entries) }
    ensures refused { IfErr result
        (IsRefused (C.choices choices.now) normal.now (tables model.now)) }
{
    let size = size_of_domain(alloc, choices, normal, model);
    let entries = untyped_entries(size as u64, encoded.problem.signature.as_slice());
    if entries > MOST_ENTRIES {
        return Err(Refusal::TableTooLarge { entries });
    }
    match collapsed_tables(alloc, choices, normal, encoded, model, size) {
        Ok(made) => Ok(made),
        Err(NoMemory) => Err(Refusal::Memory),
    }
}

// how many numbers the domain has; it is found without memory
fn size_of_domain<C: Choices>(
    alloc: Global,
    choices: &C,
    normal: &Normal,
    model: &TypedStructure,
) -> u32
    requires by_sort { (C.choices choices.now).marking ≡ BySort
        → IsTrue (is_monomorphic normal.now) }
    requires sound { IsSoundNormal normal.now }
    requires ready { IsReady normal.now.signature model.now }
    ensures { result ≡ collapsed_size (C.choices choices.now).marking normal.now
        (reading normal.now.signature (tables model.now)) }
{
    match choices.marking() {
        Marking::ByType => greatest_or_count(model.sizes.as_slice()),
        Marking::BySort => greatest_sort_size(alloc, normal, model),
    }
}

// the tables over a domain of this size, of any structure that fits the signature
pub(crate) fn collapsed_tables<C: Choices>(
    alloc: Global,
    choices: &C,
    normal: &Normal,
    encoded: &Encoded,
    model: &TypedStructure,
    size: u32,
) -> Result<Structure, NoMemory>
    requires collapsed { (C.choices choices.now).domain ≡ Collapsed }
    requires by_type { (C.choices choices.now).marking ≡ ByType
        → WritesTypeArguments (C.choices choices.now) }
    requires by_sort { (C.choices choices.now).marking ≡ BySort
        → IsTrue (is_monomorphic normal.now) }
    requires sound { IsSoundNormal normal.now }
    requires ready { IsReady normal.now.signature model.now }
    requires encoded { encoded.now ≡ encoding.encoded (C.choices choices.now) normal.now }
    requires size { size ≡ collapsed_size (C.choices choices.now).marking normal.now
        (reading normal.now.signature (tables model.now)) }
    ensures { IfOk result (λ s. s ≡ lowered (C.choices choices.now) normal.now (tables model.now)) }
{
    keeps_types(choices);
    let domain = collapsed_domain(alloc, size, model.sizes.as_slice())?;
    let sort_sizes = sizes_where_marked(alloc, choices, normal, model)?;
    let marks = encoded.marks.as_slice();
    let blocks = blocks_of_marks(alloc, &normal.signature, model, marks)?;
    let collapsing = Collapsing {
        choices,
        normal,
        encoded,
        model,
        domain: &domain,
        sort_sizes: sort_sizes.as_slice(),
        blocks: blocks.as_slice(),
    };
    tabulate(alloc, encoded.problem.signature.as_slice(), &collapsing)
}

// all type arguments are written, those without a cover, or none
fn keeps_types<C: Choices>(choices: &C)
    ensures { AreKeptTypes (C.choices choices.now) }
{
    choices.keeps();
}

// the sizes of the members that sorts are, where each sort has a mark of its own
fn sizes_where_marked<C: Choices>(
    alloc: Global,
    choices: &C,
    normal: &Normal,
    model: &TypedStructure,
) -> Result<List<u32>, NoMemory>
    requires by_sort { (C.choices choices.now).marking ≡ BySort
        → IsTrue (is_monomorphic normal.now) }
    requires sound { IsSoundNormal normal.now }
    requires ready { IsReady normal.now.signature model.now }
    ensures { IfOk result (λ sizes. (C.choices choices.now).marking ≡ BySort →
        sizes ≡ map (size_in model.now []) (sorts normal.now)) }
{
    match choices.marking() {
        Marking::ByType => Ok(List::new(alloc)),
        Marking::BySort => sizes_of_sorts(alloc, normal, model),
    }
}

// the collapsed domain of so many numbers, over members of these sizes
fn collapsed_domain(alloc: Global, size: u32, sizes: &[u32]) -> Result<Collapse, NoMemory>
    requires some { 0 < size }
    requires inhabited { (m : ℕ) → m < length sizes.now → 0 < slice_index sizes.now m }
    ensures { IfOk result (λ domain. domain ≡ domain_of size sizes.now) }
{
    let mut within = List::new(alloc);
    for own in sizes {
        within.push((*own).min(size))?;
    }
    Ok(Collapse::new(size, within))
}

// the greater of the number of members and the greatest of their sizes
fn greatest_or_count(sizes: &[u32]) -> u32
    requires few { length sizes.now < 2 ^ 32 }
    ensures exact { result ≡ max (length sizes.now) (greatest sizes.now) }
{
    let mut size = sizes.len() as u32;
    for own in sizes {
        size = size.max(*own);
    }
    size
}
