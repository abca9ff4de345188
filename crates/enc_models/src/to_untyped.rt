ghost use Rattle.std.specs.Prelude.{◌≡◌, ◌+◌, ◌<◌, ◌≤◌, ◌^◌, length, IfOk, IfErr};
ghost use Rattle.tf_core.specs.declared.signature.Symbol.{Symbol};
ghost use Rattle.tf_core.specs.Sound.{IsSoundNormal};
ghost use Rattle.tf_core.specs.TypedTables.{AreNormalModel};
ghost use Rattle.tf_models.specs.Reading.{tables};
ghost use Rattle.tf_models.specs.Evaluation.{IsReady};
ghost use Rattle.tf_stamp.specs.Merged.{merged_size};
ghost use Rattle.enc_base.specs.Counts.{most_entries};
ghost use Rattle.enc_marks.specs.declared.choices.Domain.TheVariants.{Merged};
ghost use Rattle.enc_marks.specs.declared.choices.Marking.TheVariants.{ByType};
ghost use Rattle.enc_marks.specs.Encoded as encoding;
ghost use Rattle.enc_models.specs.Lowered.{lowered, lowered_entries, IsRefused};

use crate::blocks::blocks_of_marks;
use crate::merging::Merging;
use crate::sources::sources_of_symbols;
use enc_base::NoMemory;
use enc_marks::{Choices, Encoded, Refusal};
use fof_models::Structure;
use std::alloc::Global;
use structure_tables::{tabulate, untyped_entries};
use tf_core::Normal;
use tf_models::TypedStructure;
use tf_stamp::{StampError, Stamped, count_numbers};

/// The most numbers that the tables of a structure may hold.
const MOST_ENTRIES: u64 = 67_108_864;

/// The untyped model that a typed model of a normal problem gives of its translation, over the
/// merged domain: for choices by which the guard or tag has the type as an argument, and that say
/// of each type argument whether it is written. The member for one that isn't is read from the
/// argument at its parameter's cover.
///
/// Refused where the tables would hold more than 67,108,864 numbers. They are counted first, and
/// nothing is made for a model that is refused.
pub fn lower<C: Choices>(
    alloc: Global,
    choices: &C,
    normal: &Normal,
    encoded: &Encoded,
    model: &TypedStructure,
) -> Result<Structure, Refusal>
    requires merged { (C.choices choices.now).domain ≡ Merged }
    requires by_type { (C.choices choices.now).marking ≡ ByType }
    requires each_kept { (symbol : Symbol) → length ((C.choices choices.now).keeps symbol)
        ≡ symbol.parameters }
    requires sound { IsSoundNormal normal.now }
    requires encoded { encoded.now ≡ encoding.encoded (C.choices choices.now) normal.now }
    requires model { AreNormalModel normal.now (tables model.now) }
    requires few { length model.now.sizes < 2 ^ 32 }
    ensures exact { IfOk result (λ s. s
        ≡ lowered (C.choices choices.now) normal.now (tables model.now)) }
    ensures within { IfOk result (λ s. lowered_entries (C.choices choices.now) normal.now
        (tables model.now) ≤ most_entries) }
    ensures refused { IfErr result
        (IsRefused (C.choices choices.now) normal.now (tables model.now)) }
{
    let size = count_numbers(model.sizes.as_slice());
    let entries = untyped_entries(size, encoded.problem.signature.as_slice());
    if entries > MOST_ENTRIES {
        return Err(Refusal::TableTooLarge { entries });
    }
    match lowered_tables(alloc, choices, normal, encoded, model) {
        Ok(made) => Ok(made),
        Err(NoMemory) => Err(Refusal::Memory),
    }
}

// the tables, where the merged domain is known not to be too large: of any structure that fits the
// signature
pub(crate) fn lowered_tables<C: Choices>(
    alloc: Global,
    choices: &C,
    normal: &Normal,
    encoded: &Encoded,
    model: &TypedStructure,
) -> Result<Structure, NoMemory>
    requires merged { (C.choices choices.now).domain ≡ Merged }
    requires by_type { (C.choices choices.now).marking ≡ ByType }
    requires each_kept { (symbol : Symbol) → length ((C.choices choices.now).keeps symbol)
        ≡ symbol.parameters }
    requires ready { IsReady normal.now.signature model.now }
    requires encoded { encoded.now ≡ encoding.encoded (C.choices choices.now) normal.now }
    requires few { length normal.now.signature.symbols + length normal.now.signature.constructors
        < 2 ^ 32 }
    requires within { lowered_entries (C.choices choices.now) normal.now (tables model.now)
        ≤ most_entries }
    ensures { IfOk result (λ s. s ≡ lowered (C.choices choices.now) normal.now (tables model.now)) }
{
    let stamped = stamped_within(alloc, model)?;
    let symbols = normal.signature.symbols.as_slice();
    let sources = sources_of_symbols(alloc, choices.keeps(), symbols)?;
    let marks = encoded.marks.as_slice();
    let blocks = blocks_of_marks(alloc, &normal.signature, model, marks)?;
    let merging = Merging {
        choices,
        normal,
        encoded,
        model,
        stamped: &stamped,
        sources: sources.as_slice(),
        blocks: blocks.as_slice(),
    };
    tabulate(alloc, encoded.problem.signature.as_slice(), &merging)
}

// the merged domain, where it is known not to be too large
fn stamped_within(alloc: Global, model: &TypedStructure) -> Result<Stamped, NoMemory>
    requires few { length model.now.sizes < 2 ^ 32 }
    requires within { merged_size model.now.sizes ≤ most_entries }
    ensures { IfOk result (λ stamped. stamped ≡ model.now.sizes) }
{
    match Stamped::new(alloc, model) {
        Ok(stamped) => Ok(stamped),
        Err(StampError::Memory) => Err(NoMemory),
        Err(StampError::TooLarge { .. }) => unreachable!(),
    }
}
