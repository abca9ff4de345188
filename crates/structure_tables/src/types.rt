ghost use Rattle.std.specs.Prelude.{◌≡◌, map, length, replicate, IfOk};
ghost use Rattle.enc_base.specs.Tables.{EachBelow};
ghost use Rattle.tf_core.specs.Typing.{IsType, AreTypes};
ghost use Rattle.tf_core.specs.Structures.{member_count, member_of, IsStructure};

use crate::typed::TypedSource;
use enc_base::{List, NoMemory};
use std::alloc::Global;
use tf_core::Ty;

/// The member that a type is, under members for its variables.
#[cycle(member_of)]
pub(crate) fn member_of_type<S: TypedSource>(
    alloc: Global,
    source: &S,
    ty: &Ty,
    members: &[u32],
) -> Result<u32, NoMemory>
    requires ready { S.is_ready source.now }
    requires fits { IsStructure (S.signature source.now) (S.structure source.now) }
    requires members { EachBelow (replicate (length members.now) (member_count (S.structure source.now))) members.now }
    requires typed { IsType (S.signature source.now) (length members.now) ty.now }
    ensures { IfOk result (λ member. member ≡ member_of (S.structure source.now) members.now ty.now) }
{
    match ty {
        Ty::Var(i) => Ok(members[*i as usize]),
        Ty::Apply(c, types) => {
            let arguments = members_of_types(alloc, source, types.as_slice(), members)?;
            Ok(source.constructor_value(*c, arguments.as_slice()))
        }
    }
}

/// The members that types are.
#[cycle(member_of)]
pub(crate) fn members_of_types<S: TypedSource>(
    alloc: Global,
    source: &S,
    types: &[Ty],
    members: &[u32],
) -> Result<List<u32>, NoMemory>
    requires ready { S.is_ready source.now }
    requires fits { IsStructure (S.signature source.now) (S.structure source.now) }
    requires members { EachBelow (replicate (length members.now) (member_count (S.structure source.now))) members.now }
    requires typed { AreTypes (S.signature source.now) (length members.now) types.now }
    ensures { IfOk result (λ found. found ≡ map (member_of (S.structure source.now) members.now) types.now) }
{
    let mut found = List::new(alloc);
    for ty in types {
        found.push(member_of_type(alloc, source, ty, members)?)?;
    }
    Ok(found)
}
