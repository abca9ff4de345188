ghost use Rattle.std.specs.Prelude.{◌≡◌, ℕ, List, map, length, replicate, IfOk};
ghost use Rattle.std.specs.List.{All};
ghost use Rattle.enc_base.specs.Tables.{EachBelow};
ghost use Rattle.enc_base.specs.Counts.{in_64_bits};
ghost use Rattle.tf_core.specs.Typing.{IsType, AreTypes};
ghost use Rattle.tf_core.specs.Structures.{member_count, IsStructure};
ghost use Rattle.structure_tables.specs.CountedWays.{AreWaysTo, CountWays, AreWays, ways_by};
ghost use Rattle.structure_tables.specs.ParameterGroups.{is_kept};
ghost use Rattle.structure_tables.specs.Sources.{AreMembersFor, IsSized};
ghost use Rattle.structure_tables.specs.TypeWays.{type_ways, sizes_of_type};

use crate::typed::{ConstructorOf, TypedSource};
use crate::ways::{Ways, add_sizes_of, all_ways, ways_of_parts};
use enc_base::{List, NoMemory};
use std::alloc::Global;
use tf_core::Ty;

/// The sum of the sizes of the members that a type is, over the tuples of members for the parameters
/// that are used once, the others having these members; or 2^64 - 1 where it is more.
pub(crate) fn add_sizes_of_type<S: TypedSource>(
    alloc: Global,
    source: &S,
    sizes: &[u32],
    uses: &[u32],
    members: &[u32],
    ty: &Ty,
) -> Result<u64, NoMemory>
    requires ready { S.is_ready source.now }
    requires sized { IsSized (S.signature source.now) (S.structure source.now) sizes.now }
    requires members { EachBelow (replicate (length members.now) (member_count (S.structure source.now))) members.now }
    requires uses { length uses.now ≡ length members.now }
    requires typed { IsType (S.signature source.now) (length members.now) ty.now }
    ensures { IfOk result (λ entries. entries ≡ in_64_bits (sizes_of_type (S.structure source.now) (is_kept uses.now) members.now ty.now)) }
{
    let ways = ways_of_type(alloc, source, sizes.len() as u32, uses, members, ty)?;
    let entries = add_sizes_of(&ways, sizes);
    Ok(entries)
}

/// How many tuples of members for the parameters that are used once give each member that a type can
/// be, the others having these members.
#[cycle(ways_of)]
pub(crate) fn ways_of_type<S: TypedSource>(
    alloc: Global,
    source: &S,
    count: u32,
    uses: &[u32],
    members: &[u32],
    ty: &Ty,
) -> Result<Ways, NoMemory>
    requires ready { S.is_ready source.now }
    requires fits { IsStructure (S.signature source.now) (S.structure source.now) }
    requires count { count ≡ member_count (S.structure source.now) }
    requires members { EachBelow (replicate (length members.now) (member_count (S.structure source.now))) members.now }
    requires uses { length uses.now ≡ length members.now }
    requires typed { IsType (S.signature source.now) (length members.now) ty.now }
    ensures { IfOk result (λ ways. CountWays count ways (type_ways (S.structure source.now) (is_kept uses.now) members.now ty.now)) }
{
    match ty {
        Ty::Var(i) => {
            let place = *i as usize;
            if uses[place] > 1 {
                return Ok(Ways::One(members[place]));
            }
            let ways = all_ways(alloc, count)?;
            Ok(ways)
        }
        Ty::Apply(c, types) => {
            let parts = ways_of_types(alloc, source, count, uses, members, types.as_slice())?;
            let ways = ways_of_application(alloc, source, count, *c, parts.as_slice())?;
            Ok(ways)
        }
    }
}

/// The same of types.
#[cycle(ways_of)]
fn ways_of_types<S: TypedSource>(
    alloc: Global,
    source: &S,
    count: u32,
    uses: &[u32],
    members: &[u32],
    types: &[Ty],
) -> Result<List<Ways>, NoMemory>
    requires ready { S.is_ready source.now }
    requires fits { IsStructure (S.signature source.now) (S.structure source.now) }
    requires count { count ≡ member_count (S.structure source.now) }
    requires members { EachBelow (replicate (length members.now) (member_count (S.structure source.now))) members.now }
    requires uses { length uses.now ≡ length members.now }
    requires typed { AreTypes (S.signature source.now) (length members.now) types.now }
    ensures { IfOk result (λ parts. AreWays count parts (map (type_ways (S.structure source.now) (is_kept uses.now) members.now) types.now)) }
{
    let mut parts = List::new(alloc);
    for ty in types {
        parts.push(ways_of_type(alloc, source, count, uses, members, ty)?)?;
    }
    Ok(parts)
}

// the ways of a constructor's value, by those of its arguments
fn ways_of_application<S: TypedSource>(
    alloc: Global,
    source: &S,
    count: u32,
    constructor: u32,
    parts: &[Ways],
) -> Result<Ways, NoMemory>
    requires ready { S.is_ready source.now }
    requires fits { IsStructure (S.signature source.now) (S.structure source.now) }
    requires count { count ≡ member_count (S.structure source.now) }
    requires parts { All (AreWaysTo count) parts.now }
    requires within { (members : List ℕ) → EachBelow (replicate (length parts.now) count) members → AreMembersFor (S.signature source.now) (S.structure source.now) constructor members }
    ensures { IfOk result (λ ways. CountWays count ways (ways_by ((S.structure source.now).constructor_at constructor) count parts.now)) }
{
    let function = ConstructorOf {
        source,
        constructor,
    };
    ways_of_parts(alloc, &function, count, parts)
}
