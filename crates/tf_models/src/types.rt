ghost use Rattle.std.specs.Prelude.{◌≡◌, ◌<◌, ◌≤◌, [], map, length, replicate, get_or};
ghost use Rattle.enc_base.specs.Tables.{tuple_count};
ghost use Rattle.enc_base.specs.Tuples.{IsPlaced};
ghost use Rattle.tf_core.specs.Typing.{IsType, AreTypes};
ghost use Rattle.tf_models.specs.Reading.{tables};
ghost use Rattle.tf_models.specs.Fit.{ConstructorsFit};
ghost use Rattle.tf_models.specs.Evaluation.{listed, member_in, size_in, AreMembers};

use crate::members::Members;
use crate::structure::TypedStructure;
use tf_core::{Signature, Ty};

impl TypedStructure {
    /// The member that a type is, under members for its variables.
    #[cycle(member_of)]
    pub fn member_of(&self, signature: &Signature, ty: &Ty, members: Members) -> u32
        requires fit { ConstructorsFit signature.now (tables self.now) }
        requires members { AreMembers self.now members }
        requires typed { IsType signature.now (length (listed members)) ty.now }
        ensures { result ≡ member_in self.now (listed members.entry) ty.now }
    {
        match ty {
            Ty::Var(i) => members.at(*i),
            Ty::Apply(c, types) => {
                let table = self.constructor_table(*c);
                let at = self.place_of_types(signature, types.as_slice(), members, table);
                table[at]
            }
        }
    }

    // the table of a constructor
    fn constructor_table(&self, c: u32) -> &[u32]
        requires { c < length self.now.constructors }
        ensures { result.now ≡ get_or self.now.constructors c [] }
    {
        self.constructors.as_slice()[c as usize].as_slice()
    }

    /// The place of the tuple of members that types are, in a table with an entry for each tuple.
    #[cycle(member_of)]
    pub fn place_of_types(
        &self,
        signature: &Signature,
        types: &[Ty],
        members: Members,
        table: &[u32],
    ) -> usize
        requires fit { ConstructorsFit signature.now (tables self.now) }
        requires members { AreMembers self.now members }
        requires typed { AreTypes signature.now (length (listed members)) types.now }
        requires entries { tuple_count (replicate (length types.now) (length self.now.sizes)) ≤ length table.now }
        ensures { IsPlaced (replicate (length types.now) (length self.now.sizes)) (map (member_in self.now (listed members.entry)) types.now) result }
    {
        let count = self.sizes.as_slice().len();
        let mut at = 0usize;
        for ty in types {
            let member = self.member_of(signature, ty, members);
            at = at * count + member as usize;
        }
        at
    }

    /// The size of the member that a type is.
    pub fn size_of(&self, signature: &Signature, ty: &Ty, members: Members) -> u32
        requires fit { ConstructorsFit signature.now (tables self.now) }
        requires members { AreMembers self.now members }
        requires typed { IsType signature.now (length (listed members)) ty.now }
        ensures { result ≡ size_in self.now (listed members.entry) ty.now }
    {
        let member = self.member_of(signature, ty, members);
        self.sizes.as_slice()[member as usize]
    }
}
