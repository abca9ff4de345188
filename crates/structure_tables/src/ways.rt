ghost use Rattle.std.specs.Prelude.{◌≡◌, ◌<◌, ◌+◌, ◌*◌, ℕ, List, true, length, map, replicate, slice_index, IfOk, OnOk};
ghost use Rattle.std.specs.List.{All};
ghost use Rattle.enc_base.specs.Tables.{EachBelow, sum_below};
ghost use Rattle.enc_base.specs.Counts.{in_64_bits};
ghost use Rattle.structure_tables.specs.TypeWays.{one_at};
ghost use Rattle.structure_tables.specs.CountedWays.{AreWaysTo, CountWays, ways_to, is_one, choices_of, choice_at, count_at, choices_at, counts_at, ways_by};

use crate::tuples::{TupleFunction, repeated};
use enc_base::{List, NoMemory, next_tuple};
use std::alloc::Global;

/// How many tuples of members give each member that a type can be.
#[derive(Drop)]
pub(crate) enum Ways {
    /// One tuple, and the member that it gives.
    One(u32),
    /// For each member, how many tuples give it.
    Many(List<u64>),
}

impl Ways {
    // whether it is one member
    fn is_one(&self) -> bool
        ensures { result ≡ is_one self.now }
    {
        match self {
            Ways::One(_) => true,
            Ways::Many(_) => false,
        }
    }

    // how many members are chosen from
    fn choices(&self, members: u32) -> u32
        ensures { result ≡ choices_of members self.now }
    {
        match self {
            Ways::One(_) => 1,
            Ways::Many(_) => members,
        }
    }

    // the member that a choice is
    fn choice(&self, number: u32) -> u32
        ensures { result ≡ choice_at self.now number }
    {
        match self {
            Ways::One(member) => *member,
            Ways::Many(_) => number,
        }
    }

    // how many tuples give the member that a choice is
    fn count(&self, members: u32, number: u32) -> u64
        requires fit { AreWaysTo members self.now }
        requires within { number < choices_of members self.now }
        ensures { result ≡ count_at self.now number }
    {
        match self {
            Ways::One(_) => 1,
            Ways::Many(counts) => counts.as_slice()[number as usize],
        }
    }
}

// how many members are chosen from, for each part
fn choices_of_parts(alloc: Global, members: u32, parts: &[Ways]) -> Result<Vec<u32>, NoMemory>
    ensures { IfOk result (λ bounds. bounds.items ≡ map (choices_of members) parts.now) }
{
    let mut bounds = Vec::new(alloc);
    for part in parts {
        bounds.push(part.choices(members))?;
    }
    Ok(bounds)
}

// whether each part is one member
fn are_one(parts: &[Ways]) -> bool
    ensures { result ≡ true → All (λ part. is_one part ≡ true) parts.now }
{
    for part in parts {
        if !part.is_one() {
            return false;
        }
    }
    true
}

// puts the members that choices are in place of others, and says how many tuples give them
fn choose(
    members: u32,
    parts: &[Ways],
    numbers: &[u32],
    chosen: &mut Vec<u32>,
) -> Result<u64, NoMemory>
    requires fit { All (AreWaysTo members) parts.now }
    requires within { EachBelow (map (choices_of members) parts.now) numbers.now }
    ensures chosen { OnOk result (chosen.new.items ≡ choices_at parts.now numbers.now) }
    ensures counted { IfOk result (λ count. count ≡ in_64_bits (counts_at parts.now numbers.now)) }
{
    chosen.clear();
    let mut tuples = 1u64;
    for (i, part) in parts.iter().enumerate() {
        let number = numbers[i];
        chosen.push(part.choice(number))?;
        tuples = tuples.saturating_mul(part.count(members, number));
    }
    Ok(tuples)
}

// counts a member so many times more
fn add_ways(counts: &mut [u64], member: u32, more: u64)
    requires { member < length counts.old }
    ensures { (other : ℕ) → slice_index counts.new other ≡ in_64_bits (slice_index counts.old other + more * one_at member other) }
{
    let place = member as usize;
    counts[place] = counts[place].saturating_add(more);
}

// how many tuples give each member, by a function of parts
fn count_ways<F: TupleFunction>(
    alloc: Global,
    function: &F,
    members: u32,
    parts: &[Ways],
) -> Result<Vec<u64>, NoMemory>
    requires some { 0 < members }
    requires fit { All (AreWaysTo members) parts.now }
    requires defined { (values : List ℕ) → EachBelow (replicate (length parts.now) members) values → F.is_defined function.now values }
    requires below { (values : List ℕ) → EachBelow (replicate (length parts.now) members) values → F.gives function.now values < members }
    ensures long { IfOk result (λ counts. length counts.items ≡ members) }
    ensures counted { IfOk result (λ counts. (member : ℕ) → slice_index counts.items member ≡ in_64_bits (ways_by (F.gives function.now) members parts.now member)) }
{
    let bounds = choices_of_parts(alloc, members, parts)?;
    let mut counts = zeros(alloc, members)?;
    let mut numbers = repeated(alloc, 0, parts.len())?;
    let mut chosen = Vec::new(alloc);
    loop {
        let more = choose(members, parts, numbers.as_slice(), &mut chosen)?;
        let member = function.at(chosen.as_slice());
        add_ways(&mut counts, member, more);
        if !next_tuple(&mut numbers, bounds.as_slice()) {
            return Ok(counts);
        }
    }
}

// no ways
fn zeros(alloc: Global, count: u32) -> Result<Vec<u64>, NoMemory>
    ensures { IfOk result (λ counts. counts.items ≡ replicate count 0) }
{
    match vec![in alloc; 0u64; count as usize] {
        Ok(counts) => Ok(counts),
        Err(_) => Err(NoMemory),
    }
}

/// All members, each by one tuple.
pub(crate) fn all_ways(alloc: Global, members: u32) -> Result<Ways, NoMemory>
    ensures { IfOk result (λ ways. CountWays members ways (λ _. 1)) }
{
    match vec![in alloc; 1u64; members as usize] {
        Ok(counts) => Ok(Ways::Many(List::from_vec(counts))),
        Err(_) => Err(NoMemory),
    }
}

/// The ways to have a member by a function of parts, each of which has parameters of its own.
pub(crate) fn ways_of_parts<F: TupleFunction>(
    alloc: Global,
    function: &F,
    members: u32,
    parts: &[Ways],
) -> Result<Ways, NoMemory>
    requires some { 0 < members }
    requires fit { All (AreWaysTo members) parts.now }
    requires defined { (values : List ℕ) → EachBelow (replicate (length parts.now) members) values → F.is_defined function.now values }
    requires below { (values : List ℕ) → EachBelow (replicate (length parts.now) members) values → F.gives function.now values < members }
    ensures { IfOk result (λ ways. CountWays members ways (ways_by (F.gives function.now) members parts.now)) }
{
    if are_one(parts) {
        let numbers = repeated(alloc, 0, parts.len())?;
        let mut chosen = Vec::new(alloc);
        choose(members, parts, numbers.as_slice(), &mut chosen)?;
        return Ok(Ways::One(function.at(chosen.as_slice())));
    }
    let counts = count_ways(alloc, function, members, parts)?;
    Ok(Ways::Many(List::from_vec(counts)))
}

/// The sum of sizes, each so many times as there are ways to its member, or 2^64 - 1 where it is more.
pub(crate) fn add_sizes_of(ways: &Ways, sizes: &[u32]) -> u64
    requires { AreWaysTo (length sizes.now) ways.now }
    ensures { result ≡ in_64_bits (sum_below (length sizes.now) (λ member. ways_to ways.now member * slice_index sizes.now member)) }
{
    match ways {
        Ways::One(member) => sizes[*member as usize] as u64,
        Ways::Many(counts) => add_products(counts.as_slice(), sizes),
    }
}

// the sum of products
fn add_products(counts: &[u64], sizes: &[u32]) -> u64
    requires { length counts.now ≡ length sizes.now }
    ensures { result ≡ in_64_bits (sum_below (length sizes.now) (λ member. slice_index counts.now member * slice_index sizes.now member)) }
{
    let mut entries = 0u64;
    for (i, size) in sizes.iter().enumerate() {
        let product = counts[i].saturating_mul(*size as u64);
        entries = entries.saturating_add(product);
    }
    entries
}
