ghost use Rattle.std.specs.Prelude.{◌≡◌, ◌<◌, ◌≤◌, ◌^◌, length, replicate, slice_index, IfOk, IfErr};
ghost use Rattle.enc_base.specs.Counts.{most_entries};
ghost use Rattle.enc_base.specs.Tables.{EachBelow, tuple_count};
ghost use Rattle.enc_laws.specs.CollapsedStructure.{collapse};
ghost use Rattle.tf_collapse.specs.Domain.{IsDomain};
ghost use Rattle.tf_collapse.specs.PulledBack.{sizes_in, collapsed_entry, pulled_back};
ghost use Rattle.tf_collapse.specs.Refusal.{IsRefused};
ghost use Rattle.tf_collapse.specs.Calls.Pulling.{IsPulling};

use crate::error::PullError;
use enc_base::{List, NoMemory};
use std::alloc::Global;
use std::marker::Model;
use structure_tables::{TupleFunction, count_tuples, table_of};

/// The most entries that a table may have.
const MOST_ENTRIES: u64 = 67_108_864;

/// The collapsed domain of a typed structure: so many numbers, in which an element of a member is
/// its own number, and a number that is no element of it is read there as 0.
///
/// Contracts see how many numbers it has, and the members' sizes.
#[derive(Debug, Drop)]
pub struct Collapse {
    big: u32,
    sizes: List<u32>,
}

impl Model for Collapse {
    ghost use Rattle.tf_collapse.specs.Domain.{CollapsedDomain, IsDomain};

    ghost Value = { CollapsedDomain };

    ghost view = { λ it. record { big = it.big; sizes = it.sizes } };

    ghost invariant = { λ it. IsDomain (record { big = it.big; sizes = it.sizes }) };
}

impl Collapse {
    /// The domain of so many numbers, over members of these sizes.
    pub fn new(big: u32, sizes: List<u32>) -> Collapse
        requires domain { IsDomain (record { big = big; sizes = sizes }) }
        ensures exact { result ≡ record { big = big; sizes = sizes } }
    {
        Collapse { big, sizes }
    }

    /// How many numbers it has.
    pub fn size(&self) -> u32
        ensures exact { result ≡ self.now.big }
    {
        self.big
    }

    /// The element of a member that a number is read as: itself where it is below the member's
    /// size, and 0 otherwise.
    pub fn collapse(&self, member: u32, v: u32) -> u32
        requires member { member < length self.now.sizes }
        ensures exact { result ≡ collapse (slice_index self.now.sizes member) v }
        ensures within { result < slice_index self.now.sizes member }
    {
        let size = self.sizes.as_slice()[member as usize];
        if v < size { v } else { 0 }
    }

    // what a table gives for numbers that are read as elements of members, if it begins with an
    // entry for each tuple of elements of these members
    fn entry(&self, members: &[u32], values: &[u32], table: &[u32]) -> u32
        requires members { EachBelow (replicate (length members.now) (length self.now.sizes))
            members.now }
        requires values { length values.now ≡ length members.now }
        requires entries { tuple_count (sizes_in self.now members.now) ≤ length table.now }
        ensures exact { result ≡ collapsed_entry self.now members.now table.now values.now }
    {
        let sizes = self.sizes.as_slice();
        let mut at = 0usize;
        for (i, member) in members.iter().enumerate() {
            let element = self.collapse(*member, values[i]);
            at = at * sizes[*member as usize] as usize + element as usize;
        }
        table[at]
    }

    /// The table over the domain that a table of elements gives: its entry at a tuple of numbers is
    /// that at the elements of members that these are read as, a member for each argument.
    ///
    /// Refused where it would have more than 67,108,864 entries. They are counted first, and no
    /// memory is taken for a table that is refused. The time is proportional to its entries, each
    /// with its arguments, and the memory to the entries.
    pub fn pull_back(
        &self,
        alloc: Global,
        arguments: &[u32],
        table: &[u32],
    ) -> Result<List<u32>, PullError>
        requires members { EachBelow (replicate (length arguments.now) (length self.now.sizes))
            arguments.now }
        requires entries { length table.now ≡ tuple_count (sizes_in self.now arguments.now) }
        requires few { length arguments.now < 2 ^ 32 }
        ensures exact { IfOk result (λ entries. entries
            ≡ pulled_back self.now arguments.now table.now) }
        ensures within { IfOk result (λ entries. length entries ≤ most_entries) }
        ensures refused { IfErr result (IsRefused self.now (length arguments.now)) }
    {
        let count = arguments.len() as u32;
        let entries = count_tuples(self.big as u64, count);
        if entries > MOST_ENTRIES {
            return Err(PullError::TooLarge { entries });
        }
        let pulled = PulledBack {
            domain: self,
            members: arguments,
            table,
        };
        match table_of(alloc, self.big, count, &pulled) {
            Ok(made) => Ok(made),
            Err(NoMemory) => Err(PullError::Memory),
        }
    }
}

// a table at collapsed arguments
#[derive(Drop)]
struct PulledBack<'a> {
    domain: &'a Collapse,
    // the members of the argument places
    members: &'a [u32],
    table: &'a [u32],
}

impl TupleFunction for PulledBack<'_> {
    ghost is_defined = { λ it values. IsPulling it.domain.now it.members.now it.table.now values };

    ghost gives = { λ it. collapsed_entry it.domain.now it.members.now it.table.now };

    fn at(&self, values: &[u32]) -> u32 {
        self.domain.entry(self.members, values, self.table)
    }
}
