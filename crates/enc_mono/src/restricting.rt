ghost use Rattle.std.specs.Prelude.{◌≡◌, ◌<◌, ◌≤◌, ◌+◌, ◌^◌, length, map, sum, IfOk, IfErr};
ghost use Rattle.std.specs.List.{AllByRecursion};
ghost use Rattle.enc_base.specs.Counts.{in_64_bits, most_entries};
ghost use Rattle.tf_core.specs.Sound.{IsSoundNormal};
ghost use Rattle.tf_core.specs.TypedTables.{IsWellFormed};
ghost use Rattle.tf_models.specs.Reading.{tables};
ghost use Rattle.tf_models.specs.Evaluation.{IsReady};
ghost use Rattle.enc_mono.specs.Origins.{IsOriginOf};
ghost use Rattle.enc_mono.specs.Restricted.{origin_block, restricted_tables, entry_count};
ghost use Rattle.enc_mono.specs.Refusals.{IsUnrestricted};

use crate::blocks::{block_of_origin, length_of_origin, starts_of_symbols};
use crate::error::RestrictError;
use crate::instances::{Instances, Origin};
use enc_base::{List, NoMemory};
use std::alloc::Global;
use structure_tables::add_sizes;
use tf_core::{Normal, Signature};
use tf_models::{TypedStructure, copy_table, copy_tables};

/// The most entries that a structure may have, the sizes of its members counted in.
const MOST_ENTRIES: u64 = 67_108_864;

/// The structure restricted to symbol instances: the same members and constructors, and for each
/// instance a table, the block of its symbol under its types. The entries are counted first, and
/// each block is copied once.
pub fn restrict(
    alloc: Global,
    normal: &Normal,
    instances: &Instances,
    model: &TypedStructure,
) -> Result<TypedStructure, RestrictError>
    requires sound { IsSoundNormal normal.now }
    requires formed { IsWellFormed normal.now.signature (tables model.now) }
    requires few { length model.now.sizes < 2 ^ 32 }
    requires origins { AllByRecursion (IsOriginOf normal.now.signature 0) instances.now.origins }
    ensures exact { IfOk result (λ made. tables made
        ≡ restricted_tables normal.now.signature instances.now.origins (tables model.now)) }
    ensures within { IfOk result (λ made. entry_count (tables made) ≤ most_entries) }
    ensures refused { IfErr result
        (IsUnrestricted normal.now.signature instances.now.origins (tables model.now)) }
{
    let origins = instances.origins.as_slice();
    let entries = count_entries(&normal.signature, origins, model);
    if entries > MOST_ENTRIES {
        return Err(RestrictError::TableTooLarge { entries });
    }
    Ok(restricted(alloc, &normal.signature, origins, model)?)
}

// how many entries the restricted structure has, or 2^64 - 1 where it has more
fn count_entries(signature: &Signature, origins: &[Origin], model: &TypedStructure) -> u64
    requires ready { IsReady signature.now model.now }
    requires origins { AllByRecursion (IsOriginOf signature.now 0) origins.now }
    ensures { result ≡ in_64_bits
        (entry_count (restricted_tables signature.now origins.now (tables model.now))) }
{
    let mut entries = count_kept(model);
    for origin in origins {
        entries = entries.saturating_add(length_of_origin(signature, origin, model));
    }
    entries
}

// how many the sizes and the tables of constructors have, which stay
fn count_kept(model: &TypedStructure) -> u64
    ensures { result
        ≡ in_64_bits (sum model.now.sizes + sum (map length model.now.constructors)) }
{
    let mut entries = add_sizes(model.sizes.as_slice());
    for table in model.constructors.as_slice() {
        entries = entries.saturating_add(table.as_slice().len() as u64);
    }
    entries
}

// the restricted structure
fn restricted(
    alloc: Global,
    signature: &Signature,
    origins: &[Origin],
    model: &TypedStructure,
) -> Result<TypedStructure, NoMemory>
    requires ready { IsReady signature.now model.now }
    requires origins { AllByRecursion (IsOriginOf signature.now 0) origins.now }
    ensures { IfOk result (λ made. tables made
        ≡ restricted_tables signature.now origins.now (tables model.now)) }
{
    let symbols = blocks_of_origins(alloc, signature, origins, model)?;
    Ok(TypedStructure {
        sizes: copy_table(alloc, model.sizes.as_slice())?,
        constructors: copy_tables(alloc, model.constructors.as_slice())?,
        symbols,
    })
}

// the blocks of symbol instances
fn blocks_of_origins(
    alloc: Global,
    signature: &Signature,
    origins: &[Origin],
    model: &TypedStructure,
) -> Result<List<List<u32>>, NoMemory>
    requires ready { IsReady signature.now model.now }
    requires origins { AllByRecursion (IsOriginOf signature.now 0) origins.now }
    ensures { IfOk result (λ made. made
        ≡ map (origin_block signature.now (tables model.now)) origins.now) }
{
    let starts = starts_of_symbols(alloc, signature, model)?;
    let mut made = List::new(alloc);
    for origin in origins {
        let block = block_of_origin(signature, origin, starts.as_slice(), model);
        made.push(copy_table(alloc, block)?)?;
    }
    Ok(made)
}
