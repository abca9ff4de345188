ghost use Rattle.std.specs.Prelude.{◌≡◌, ◌<◌, ◌≤◌, cond, ltb, map, length, replicate, slice_index};
ghost use Rattle.enc_base.specs.Tables.{EachBelow, tuple_count};
ghost use Rattle.enc_base.specs.Tuples.{IsPlaced};
ghost use Rattle.enc_laws.specs.CollapsedStructure.{collapse, collapsed_constructor, elements_collapsed, members_collapsed};
ghost use Rattle.enc_models.specs.Calls.Collapsing.{parts_of, typed_in, size_in, structure_in, collapsed_in, IsCollapsing, IsSymbolFor, IsConstructorFor};

use crate::blocks::Block;
use enc_base::List;
use enc_marks::{Choices, Encoded, Mark, Marking};
use structure_tables::UntypedSource;
use tf_collapse::Collapse;
use tf_core::Normal;
use tf_models::TypedStructure;

/// The collapsed structure of typed tables, over the symbols that occur in an encoded problem. Its
/// values are computed and take no memory.
#[derive(Drop)]
pub(crate) struct Collapsing<'a, C> {
    /// What the scheme chooses.
    pub choices: &'a C,
    pub normal: &'a Normal,
    pub encoded: &'a Encoded,
    pub model: &'a TypedStructure,
    /// The collapsed domain of the tables.
    pub domain: &'a Collapse,
    /// The size of the member that each sort is, where each sort has a mark of its own.
    pub sort_sizes: &'a [u32],
    /// The blocks of the table of each symbol that a mark stands for.
    pub blocks: &'a [List<Block>],
}

impl<C: Choices> UntypedSource for Collapsing<'_, C> {
    ghost signature = { λ it. it.encoded.now.problem.signature };

    ghost structure = { λ it. structure_in (parts_of C.choices it) };

    ghost is_ready = { λ it. IsCollapsing (parts_of C.choices it) };

    fn size(&self) -> u32 {
        self.domain.size()
    }

    fn value(&self, symbol: u32, elements: &[u32]) -> u32 {
        match &self.encoded.marks.as_slice()[symbol as usize] {
            Mark::Symbol(f) => self.symbol_value(symbol, *f, elements),
            Mark::Constructor(c) => self.constructor_value(*c, elements),
            Mark::Guard => unreachable!(),
            Mark::Tag => unreachable!(),
            Mark::SortGuard(s) => self.guard_value(*s, elements[0]),
            Mark::SortTag(s) => self.tag_value(*s, elements[0]),
        }
    }
}

impl<C: Choices> Collapsing<'_, C> {
    // whether a number is an element of a sort
    fn guard_value(&self, s: u32, v: u32) -> u32
        requires sort { s < length self.now.sort_sizes.now }
        ensures exact { result ≡ cond (ltb v (slice_index self.now.sort_sizes.now s)) 1 0 }
    {
        if v < self.sort_sizes[s as usize] {
            1
        } else {
            0
        }
    }

    // the element of a sort that a number is read as
    fn tag_value(&self, s: u32, v: u32) -> u32
        requires sort { s < length self.now.sort_sizes.now }
        ensures exact { result ≡ collapse (slice_index self.now.sort_sizes.now s) v }
    {
        if v < self.sort_sizes[s as usize] {
            v
        } else {
            0
        }
    }

    // what a constructor gives; where each sort has a mark of its own no type is written, and none
    // occurs
    fn constructor_value(&self, c: u32, values: &[u32]) -> u32
        requires ready { IsCollapsing (parts_of C.choices self.now) }
        requires constructor { IsConstructorFor (parts_of C.choices self.now) c values.now }
        ensures exact { result ≡ collapsed_constructor
            (C.choices self.now.choices.now).marking (typed_in (parts_of C.choices self.now)) c
            values.now }
    {
        match self.choices.marking() {
            Marking::ByType => self.constructor_member(c, values),
            Marking::BySort => 0,
        }
    }

    // the member that a constructor gives for the members that numbers are read as
    fn constructor_member(&self, c: u32, values: &[u32]) -> u32
        requires ready { IsCollapsing (parts_of C.choices self.now) }
        requires constructor { IsConstructorFor (parts_of C.choices self.now) c values.now }
        ensures exact { result ≡ (typed_in (parts_of C.choices self.now)).constructor_at c
            (members_collapsed (typed_in (parts_of C.choices self.now)) values.now) }
    {
        let table = self.model.constructors.as_slice()[c as usize].as_slice();
        let at = self.place_of_members(values, table);
        table[at]
    }

    // what the table has for the elements that numbers are read as
    fn symbol_value(&self, at: u32, f: u32, values: &[u32]) -> u32
        requires ready { IsCollapsing (parts_of C.choices self.now) }
        requires symbol { IsSymbolFor (parts_of C.choices self.now) at f values.now }
        ensures exact { result
            ≡ (collapsed_in (parts_of C.choices self.now)).symbol_at f values.now }
    {
        let symbol = &self.normal.signature.symbols.as_slice()[f as usize];
        let table = self.model.symbol_table(f);
        let (kept, own) = values.split_at(symbol.parameters as usize);
        let number = self.place_of_members(kept, table);
        let block = &self.blocks[at as usize].as_slice()[number];
        let place = self.place_in_block(block.arguments.as_slice(), own, table);
        table[block.start + place]
    }

    // the place of the tuple of the members that numbers are read as, in a table with an entry for
    // each tuple
    fn place_of_members(&self, values: &[u32], table: &[u32]) -> usize
        requires ready { IsCollapsing (parts_of C.choices self.now) }
        requires entries { tuple_count
            (replicate (length values.now) (length self.now.model.now.sizes)) ≤ length table.now }
        ensures exact { IsPlaced (replicate (length values.now) (length self.now.model.now.sizes))
            (members_collapsed (typed_in (parts_of C.choices self.now)) values.now) result }
    {
        let count = self.model.sizes.as_slice().len();
        let mut at = 0usize;
        for value in values {
            at = at * count + below_or_first(*value, count);
        }
        at
    }

    // the place, in a block whose arguments have these members, of the elements that numbers are
    // read as
    fn place_in_block(&self, members: &[u32], values: &[u32], table: &[u32]) -> usize
        requires ready { IsCollapsing (parts_of C.choices self.now) }
        requires members { EachBelow (replicate (length members.now)
            (length self.now.model.now.sizes)) members.now }
        requires values { length values.now ≡ length members.now }
        requires entries { tuple_count (map (slice_index self.now.model.now.sizes) members.now)
            ≤ length table.now }
        ensures exact { IsPlaced (map (slice_index self.now.model.now.sizes) members.now)
            (elements_collapsed (typed_in (parts_of C.choices self.now))
            (size_in (parts_of C.choices self.now)) members.now values.now) result }
    {
        let sizes = self.model.sizes.as_slice();
        let mut at = 0usize;
        for (i, member) in members.iter().enumerate() {
            let element = self.domain.collapse(*member, values[i]);
            at = at * sizes[*member as usize] as usize + element as usize;
        }
        at
    }
}

// a number below a bound as itself, and any other as 0
fn below_or_first(v: u32, bound: usize) -> usize
    ensures exact { result ≡ collapse bound v }
{
    if (v as usize) < bound { v as usize } else { 0 }
}
