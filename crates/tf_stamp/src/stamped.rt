ghost use Rattle.std.specs.Prelude.{◌≡◌, ◌<◌, ◌≤◌, ◌^◌, ◌++◌, [], ◌∷◌, length, replicate, slice_index, IfOk, IfErr, OnOk};
ghost use Rattle.std.specs.List.{range_with_len};
ghost use Rattle.enc_base.specs.Counts.{most_entries};
ghost use Rattle.tf_stamp.specs.Merged.{merged_size, stamp, member_in, element_in};
ghost use Rattle.tf_stamp.specs.Refusal.{IsRefused};

use crate::error::StampError;
use enc_base::{List, NoMemory};
use std::alloc::Global;
use std::marker::Model;
use tf_models::TypedStructure;

/// The most numbers that a merged domain may have.
const MOST_ENTRIES: u64 = 67_108_864;

/// The merged domain of a typed structure: the numbers of its members, and behind them a number for
/// each element of each member, the stamp of the two, by member and then element.
///
/// Contracts see it as the list of the members' sizes.
#[derive(Debug, Drop)]
pub struct Stamped {
    // where the stamps of each member begin
    starts: List<u32>,
    // the member of each number
    members: List<u32>,
}

impl Model for Stamped {
    ghost use Rattle.std.specs.Prelude.{List, ℕ, length};
    ghost use Rattle.tf_stamp.specs.Kept.{sizes_between, IsKept};

    ghost Value = { List ℕ };

    ghost view = { λ stamped. sizes_between stamped.starts (length stamped.members) };

    ghost invariant = { λ stamped. IsKept
        (sizes_between stamped.starts (length stamped.members))
        stamped.starts
        stamped.members };
}

impl Stamped {
    /// The merged domain of a structure.
    ///
    /// Refused where it would have more than 67,108,864 numbers. They are counted first, and no
    /// memory is taken for a structure that is refused.
    pub fn new(alloc: Global, structure: &TypedStructure) -> Result<Stamped, StampError>
        requires few { length structure.now.sizes < 2 ^ 32 }
        ensures exact { IfOk result (λ stamped. stamped ≡ structure.now.sizes) }
        ensures within { IfOk result (λ stamped. merged_size stamped ≤ most_entries) }
        ensures refused { IfErr result (IsRefused structure.now.sizes) }
    {
        let sizes = structure.sizes.as_slice();
        let entries = count_numbers(sizes);
        if entries > MOST_ENTRIES {
            return Err(StampError::TooLarge { entries });
        }
        match make(alloc, sizes) {
            Ok(stamped) => Ok(stamped),
            Err(NoMemory) => Err(StampError::Memory),
        }
    }

    /// How many numbers it has.
    pub fn size(&self) -> u32
        ensures exact { result ≡ merged_size self.now }
        ensures within { result ≤ most_entries }
    {
        self.members.as_slice().len() as u32
    }

    /// The member that a number is, or whose element it stands for.
    pub fn member_of(&self, v: u32) -> u32
        requires number { v < merged_size self.now }
        ensures exact { result ≡ member_in self.now v }
        ensures within { result < length self.now }
    {
        self.members.as_slice()[v as usize]
    }

    /// The element of a member that a number is read as: 0, where it is no stamp of this member.
    pub fn element_in(&self, v: u32, member: u32) -> u32
        requires number { v < merged_size self.now }
        requires member { member < length self.now }
        ensures exact { result ≡ element_in self.now v member }
    {
        let starts = self.starts.as_slice();
        if (v as usize) < starts.len() || self.members.as_slice()[v as usize] != member {
            return 0;
        }
        v - starts[member as usize]
    }

    /// The number of an element of a member.
    pub fn stamp(&self, member: u32, element: u32) -> u32
        requires member { member < length self.now }
        requires element { element < slice_index self.now member }
        ensures exact { result ≡ stamp self.now member element }
        ensures within { result < merged_size self.now }
    {
        self.starts.as_slice()[member as usize] + element
    }
}

/// How many numbers the merged domain of members of these sizes has.
pub fn count_numbers(sizes: &[u32]) -> u64
    requires few { length sizes.now < 2 ^ 32 }
    ensures { result ≡ merged_size sizes.now }
{
    let mut entries = sizes.len() as u64;
    for size in sizes {
        entries += *size as u64;
    }
    entries
}

// the merged domain of members of these sizes
fn make(alloc: Global, sizes: &[u32]) -> Result<Stamped, NoMemory>
    requires few { merged_size sizes.now ≤ most_entries }
    ensures { IfOk result (λ stamped. stamped ≡ sizes.now) }
{
    let mut starts = List::new(alloc);
    let mut members = first_numbers(alloc, sizes.len() as u32)?;
    for (member, size) in sizes.iter().enumerate() {
        starts.push(members.as_slice().len() as u32)?;
        push_times(&mut members, member as u32, *size)?;
    }
    Ok(Stamped { starts, members })
}

// so many numbers, from 0 on
fn first_numbers(alloc: Global, count: u32) -> Result<List<u32>, NoMemory>
    ensures { IfOk result (λ numbers. numbers ≡ range_with_len 0 count) }
{
    let mut numbers = List::new(alloc);
    for number in 0..count {
        numbers.push(number)?;
    }
    Ok(numbers)
}

// appends a number so many times
fn push_times(numbers: &mut List<u32>, item: u32, times: u32) -> Result<(), NoMemory>
    ensures { OnOk result (numbers.new ≡ numbers.old ++ replicate times item) }
{
    for _ in 0..times {
        numbers.push(item)?;
    }
    Ok(())
}
