ghost use Rattle.std.specs.Prelude.{◌≡◌, ◌≤◌, ◌<◌, map, length, replicate, slice_get, Some};
ghost use Rattle.enc_base.specs.Tables.{EachBelow, tuple_count};
ghost use Rattle.tf_core.specs.Typing.{IsType, AreTypes};
ghost use Rattle.tf_core.specs.Structures.{member_of, AreArguments};
ghost use Rattle.enc_base.specs.Tuples.{IsPlaced};
ghost use Rattle.enc_models.specs.Calls.Lifting.{parts_of, typed_in, members_in, bounds_in, numbers_in, entry_in, IsConstructorTable, IsLifting, IsSymbolIn};

use crate::marked::Marked;
use crate::rows::rank_of;
use enc_base::List;
use enc_marks::{Choices, Marking};
use structure_tables::TypedSource;
use tf_core::{Symbol, Ty};

/// The lifted structure of an untyped one. Its values are computed and take no memory.
#[derive(Drop)]
pub(crate) struct Lifting<'a, C> {
    pub marked: &'a Marked<'a, C>,
    /// The numbers that the elements of each member stand for, in rising order.
    pub picked: &'a [List<u32>],
    /// The tables of the constructors, where members are sorts.
    pub formed: &'a [List<u32>],
}

impl<C: Choices> TypedSource for Lifting<'_, C> {
    ghost signature = { λ it. it.marked.now.normal.now.signature };

    ghost structure = { λ it. typed_in (parts_of C.choices it.marked.now) };

    ghost is_ready = { λ it. IsLifting (parts_of C.choices it.marked.now) it.picked.now
        it.formed.now };

    fn constructor_value(&self, constructor: u32, members: &[u32]) -> u32 {
        let table = self.constructor_table(constructor);
        if table.len() == 0 {
            return 0;
        }
        table[self.place_of_members(members, table)]
    }

    fn symbol_value(&self, symbol: u32, members: &[u32], elements: &[u32]) -> u32 {
        let stated = &self.marked.normal.signature.symbols.as_slice()[symbol as usize];
        let table = self.marked.table(symbol as usize);
        if table.len() == 0 {
            return 0;
        }
        let entry = self.entry(symbol, stated, members, elements);
        match &stated.result {
            Some(ty) => {
                let member = self.member_of(ty, members);
                let number = self.marked.read_in(member, entry);
                rank_of(self.picked[member as usize].as_slice(), number)
            }
            None => entry,
        }
    }
}

impl<C: Choices> Lifting<'_, C> {
    // the table of a constructor over members, or nothing where it gives 0 throughout
    fn constructor_table(&self, c: u32) -> &[u32]
        requires ready { IsLifting (parts_of C.choices self.now.marked.now) self.now.picked.now
            self.now.formed.now }
        requires constructor { c < length self.now.marked.now.normal.now.signature.constructors }
        ensures { IsConstructorTable (parts_of C.choices self.now.marked.now) c result.now }
    {
        match self.marked.choices.marking() {
            Marking::ByType => {
                let symbols = self.marked.normal.signature.symbols.as_slice().len();
                self.marked.table(symbols + c as usize)
            }
            Marking::BySort => self.formed[c as usize].as_slice(),
        }
    }

    // the place of a tuple of members, in a table with an entry for each tuple
    fn place_of_members(&self, members: &[u32], table: &[u32]) -> usize
        requires ready { IsLifting (parts_of C.choices self.now.marked.now) self.now.picked.now
            self.now.formed.now }
        requires members { EachBelow (replicate (length members.now)
            (members_in (parts_of C.choices self.now.marked.now))) members.now }
        requires entries { tuple_count
            (replicate (length members.now) (members_in (parts_of C.choices self.now.marked.now))) ≤ length table.now }
        ensures { IsPlaced (replicate (length members.now) (members_in (parts_of C.choices self.now.marked.now)))
            members.now result }
    {
        let mut at = 0usize;
        for member in members {
            at = at * self.picked.len() + *member as usize;
        }
        at
    }

    // the member that a type is, under members for its variables
    #[cycle(member_of)]
    fn member_of(&self, ty: &Ty, members: &[u32]) -> u32
        requires ready { IsLifting (parts_of C.choices self.now.marked.now) self.now.picked.now
            self.now.formed.now }
        requires members { EachBelow (replicate (length members.now)
            (members_in (parts_of C.choices self.now.marked.now))) members.now }
        requires typed { IsType self.now.marked.now.normal.now.signature (length members.now)
            ty.now }
        ensures { result ≡ member_of (typed_in (parts_of C.choices self.now.marked.now)) members.now
            ty.now }
    {
        match ty {
            Ty::Var(i) => members[*i as usize],
            Ty::Apply(c, types) => {
                let table = self.constructor_table(*c);
                if table.len() == 0 {
                    return 0;
                }
                let at = self.place_of_types(types.as_slice(), members, table);
                table[at]
            }
        }
    }

    // the place of the tuple of the members that types are
    #[cycle(member_of)]
    fn place_of_types(&self, types: &[Ty], members: &[u32], table: &[u32]) -> usize
        requires ready { IsLifting (parts_of C.choices self.now.marked.now) self.now.picked.now
            self.now.formed.now }
        requires members { EachBelow (replicate (length members.now)
            (members_in (parts_of C.choices self.now.marked.now))) members.now }
        requires typed { AreTypes self.now.marked.now.normal.now.signature (length members.now)
            types.now }
        requires entries { tuple_count
            (replicate (length types.now) (members_in (parts_of C.choices self.now.marked.now))) ≤ length table.now }
        ensures { IsPlaced (replicate (length types.now) (members_in (parts_of C.choices self.now.marked.now)))
            (map (member_of (typed_in (parts_of C.choices self.now.marked.now)) members.now)
            types.now) result }
    {
        let mut at = 0usize;
        for ty in types {
            let member = self.member_of(ty, members);
            at = at * self.picked.len() + member as usize;
        }
        at
    }

    // what the table of a symbol gives for the members that are kept and the numbers that elements
    // stand for
    fn entry(&self, f: u32, symbol: &Symbol, members: &[u32], elements: &[u32]) -> u32
        requires ready { IsLifting (parts_of C.choices self.now.marked.now) self.now.picked.now
            self.now.formed.now }
        requires at { slice_get self.now.marked.now.normal.now.signature.symbols f
            ≡ Some symbol.now }
        requires arguments { AreArguments (typed_in (parts_of C.choices self.now.marked.now))
            symbol.now members.now elements.now }
        ensures { result ≡ entry_in (parts_of C.choices self.now.marked.now) f symbol.now
            members.now elements.now }
    {
        let table = self.marked.table(f as usize);
        if table.len() == 0 {
            return 0;
        }
        let kept = self.marked.kept[f as usize].as_slice();
        table[self.place_of_arguments(symbol, kept, members, elements, table)]
    }

    // the place of the tuple of the members that are kept and of the numbers that elements stand
    // for
    fn place_of_arguments(
        &self,
        symbol: &Symbol,
        kept: &[bool],
        members: &[u32],
        elements: &[u32],
        table: &[u32],
    ) -> usize
        requires ready { IsLifting (parts_of C.choices self.now.marked.now) self.now.picked.now
            self.now.formed.now }
        requires typed { IsSymbolIn (parts_of C.choices self.now.marked.now) symbol.now }
        requires kept { kept.now ≡ (C.choices self.now.marked.now.choices.now).keeps symbol.now }
        requires arguments { AreArguments (typed_in (parts_of C.choices self.now.marked.now))
            symbol.now members.now elements.now }
        requires entries { tuple_count
            (bounds_in (parts_of C.choices self.now.marked.now) symbol.now) ≤ length table.now }
        ensures { IsPlaced (bounds_in (parts_of C.choices self.now.marked.now) symbol.now)
            (numbers_in (parts_of C.choices self.now.marked.now) symbol.now members.now
            elements.now) result }
    {
        let size = self.marked.model.size as usize;
        let mut at = 0usize;
        for (parameter, is_kept) in kept.iter().enumerate() {
            if *is_kept {
                at = at * size + members[parameter] as usize;
            }
        }
        for (i, ty) in symbol.arguments.as_slice().iter().enumerate() {
            let member = self.member_of(ty, members);
            let number = self.picked[member as usize].as_slice()[elements[i] as usize];
            at = at * size + number as usize;
        }
        at
    }
}
