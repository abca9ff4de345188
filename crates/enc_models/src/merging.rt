ghost use Rattle.std.specs.Prelude.{◌≡◌, ◌<◌, ◌≤◌, [], ◌∷◌, map, length, replicate, slice_index};
ghost use Rattle.enc_base.specs.Tables.{EachBelow, tuple_count};
ghost use Rattle.tf_core.specs.TypedTables.{constructor_entry};
ghost use Rattle.enc_base.specs.Tuples.{IsPlaced};
ghost use Rattle.tf_stamp.specs.Merged.{merged_size};
ghost use Rattle.enc_marks.specs.declared.choices.Binding.TheVariants.{ByGuard, ByTag};
ghost use Rattle.enc_laws.specs.MergedStructure.{elements_read, merged_mark};
ghost use Rattle.enc_models.specs.Calls.Sources.{numbers_at};
ghost use Rattle.enc_models.specs.Calls.Merging.{parts_of, tables_in, typed_in, merged_in, structure_in, members_in, IsMerging, AreNumbers, IsSymbolFor, IsConstructorFor};

use crate::blocks::Block;
use enc_base::List;
use enc_marks::{Choices, Encoded, Mark};
use structure_tables::UntypedSource;
use tf_core::Normal;
use tf_models::TypedStructure;
use tf_stamp::Stamped;

/// The merged structure of typed tables, over the symbols that occur in an encoded problem. Its
/// values are computed and take no memory.
#[derive(Drop)]
pub(crate) struct Merging<'a, C> {
    /// What the scheme chooses.
    pub choices: &'a C,
    pub normal: &'a Normal,
    pub encoded: &'a Encoded,
    pub model: &'a TypedStructure,
    /// The merged domain of the tables.
    pub stamped: &'a Stamped,
    /// Of each symbol, for each of its parameters, the place of the argument that tells its member.
    pub sources: &'a [List<usize>],
    /// The blocks of the table of each symbol that a mark stands for.
    pub blocks: &'a [List<Block>],
}

impl<C: Choices> UntypedSource for Merging<'_, C> {
    ghost signature = { λ it. it.encoded.now.problem.signature };

    ghost structure = { λ it. structure_in (parts_of C.choices it) };

    ghost is_ready = { λ it. IsMerging (parts_of C.choices it) };

    fn size(&self) -> u32 {
        self.stamped.size()
    }

    fn value(&self, symbol: u32, elements: &[u32]) -> u32 {
        match &self.encoded.marks.as_slice()[symbol as usize] {
            Mark::Symbol(f) => self.symbol_value(symbol, *f, elements),
            Mark::Constructor(c) => self.constructor_value(*c, elements),
            Mark::Guard => {
                let (member, number) = two_of(elements);
                self.guard_value(member, number)
            }
            Mark::Tag => {
                let (member, number) = two_of(elements);
                self.tag_value(member, number)
            }
            Mark::SortGuard(_) => unreachable!(),
            Mark::SortTag(_) => unreachable!(),
        }
    }
}

// the numbers of a tuple of two
fn two_of(values: &[u32]) -> (u32, u32)
    requires { length values.now ≡ 2 }
    ensures { values.now ≡ result.0 ∷ result.1 ∷ [] }
{
    (values[0], values[1])
}

impl<C: Choices> Merging<'_, C> {
    // the guard holds of a member and the stamps of its elements
    fn guard_value(&self, u: u32, v: u32) -> u32
        requires ready { IsMerging (parts_of C.choices self.now) }
        requires member { u < merged_size self.now.model.now.sizes }
        requires number { v < merged_size self.now.model.now.sizes }
        ensures exact { result
            ≡ merged_mark (typed_in (parts_of C.choices self.now)) ByGuard (u ∷ v ∷ []) }
    {
        let count = self.model.sizes.as_slice().len();
        if v as usize >= count && self.stamped.member_of(v) == self.stamped.member_of(u) {
            1
        } else {
            0
        }
    }

    // the tag gives the stamp of what a number is read as in a member
    fn tag_value(&self, u: u32, v: u32) -> u32
        requires ready { IsMerging (parts_of C.choices self.now) }
        requires member { u < merged_size self.now.model.now.sizes }
        requires number { v < merged_size self.now.model.now.sizes }
        ensures exact { result
            ≡ merged_mark (typed_in (parts_of C.choices self.now)) ByTag (u ∷ v ∷ []) }
    {
        let member = self.stamped.member_of(u);
        let element = self.stamped.element_in(v, member);
        self.stamped.stamp(member, element)
    }

    // the member that a constructor gives for the members that numbers are
    fn constructor_value(&self, c: u32, values: &[u32]) -> u32
        requires ready { IsMerging (parts_of C.choices self.now) }
        requires constructor { IsConstructorFor (parts_of C.choices self.now) c values.now }
        ensures exact { result ≡ constructor_entry (tables_in (parts_of C.choices self.now)) c
            (members_in (parts_of C.choices self.now) values.now) }
    {
        let table = self.model.constructors.as_slice()[c as usize].as_slice();
        let at = self.place_of_members(values, table);
        table[at]
    }

    // a function gives the stamp of its value, and a predicate the value itself
    fn symbol_value(&self, at: u32, f: u32, values: &[u32]) -> u32
        requires ready { IsMerging (parts_of C.choices self.now) }
        requires symbol { IsSymbolFor (parts_of C.choices self.now) at f values.now }
        ensures exact { result ≡ (merged_in (parts_of C.choices self.now)).symbol_at f values.now }
    {
        let symbol = &self.normal.signature.symbols.as_slice()[f as usize];
        let table = self.model.symbol_table(f);
        let sources = self.sources[f as usize].as_slice();
        let number = self.place_of_sources(sources, values, table);
        let block = &self.blocks[at as usize].as_slice()[number];
        let (_, own) = values.split_at(values.len() - symbol.arguments.as_slice().len());
        let place = self.place_in_block(block.arguments.as_slice(), own, table);
        let entry = table[block.start + place];
        match block.value {
            None => entry,
            Some(member) => self.stamped.stamp(member, entry),
        }
    }

    // the place of the tuple of the members that the numbers at some places are, in a table with an
    // entry for each tuple
    fn place_of_sources(&self, sources: &[usize], values: &[u32], table: &[u32]) -> usize
        requires ready { IsMerging (parts_of C.choices self.now) }
        requires sources { EachBelow (replicate (length sources.now) (length values.now))
            sources.now }
        requires numbers { AreNumbers (parts_of C.choices self.now) (length values.now) values.now }
        requires entries { tuple_count
            (replicate (length sources.now) (length self.now.model.now.sizes)) ≤ length table.now }
        ensures exact { IsPlaced
            (replicate (length sources.now) (length self.now.model.now.sizes))
            (members_in (parts_of C.choices self.now) (numbers_at values.now sources.now)) result }
    {
        let count = self.model.sizes.as_slice().len();
        let mut at = 0usize;
        for source in sources {
            at = at * count + self.stamped.member_of(values[*source]) as usize;
        }
        at
    }

    // the place, in a block whose arguments have these members, of the elements that numbers are
    // read as
    fn place_in_block(&self, members: &[u32], values: &[u32], table: &[u32]) -> usize
        requires ready { IsMerging (parts_of C.choices self.now) }
        requires members { EachBelow (replicate (length members.now)
            (length self.now.model.now.sizes)) members.now }
        requires numbers { AreNumbers (parts_of C.choices self.now) (length members.now)
            values.now }
        requires entries { tuple_count (map (slice_index self.now.model.now.sizes) members.now)
            ≤ length table.now }
        ensures exact { IsPlaced (map (slice_index self.now.model.now.sizes) members.now)
            (elements_read self.now.model.now.sizes members.now values.now) result }
    {
        let sizes = self.model.sizes.as_slice();
        let mut at = 0usize;
        for (i, member) in members.iter().enumerate() {
            let element = self.stamped.element_in(values[i], *member);
            at = at * sizes[*member as usize] as usize + element as usize;
        }
        at
    }

    // the place of the tuple of the members that numbers are, in a table with an entry for each
    // tuple
    fn place_of_members(&self, values: &[u32], table: &[u32]) -> usize
        requires ready { IsMerging (parts_of C.choices self.now) }
        requires numbers { AreNumbers (parts_of C.choices self.now) (length values.now) values.now }
        requires entries { tuple_count
            (replicate (length values.now) (length self.now.model.now.sizes)) ≤ length table.now }
        ensures exact { IsPlaced (replicate (length values.now) (length self.now.model.now.sizes))
            (members_in (parts_of C.choices self.now) values.now) result }
    {
        let count = self.model.sizes.as_slice().len();
        let mut at = 0usize;
        for value in values {
            at = at * count + self.stamped.member_of(*value) as usize;
        }
        at
    }
}
