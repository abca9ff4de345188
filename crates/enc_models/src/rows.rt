ghost use Rattle.std.specs.Prelude.{◌≡◌, ◌<◌, ◌≤◌, ◌^◌, Bool, ℕ, length, IfOk};
ghost use Rattle.enc_marks.specs.Occurrence.{count_below};
ghost use Rattle.enc_models.specs.Calls.Lifting.{parts_of, members_in, picks_in, typed_in, ArePicked, AreRows, IsMarked};

use crate::marked::Marked;
use enc_base::{List, NoMemory};
use enc_marks::Choices;
use std::alloc::Global;

/// The elements of each member: how many there are, and the numbers that they stand for.
#[derive(Drop)]
pub(crate) struct Rows {
    pub sizes: List<u32>,
    pub picked: List<List<u32>>,
}

impl<C: Choices> Marked<'_, C> {
    /// The elements of each of so many members, where the domain has so many numbers.
    pub fn rows(&self, alloc: Global, members: u32, bound: u32) -> Result<Rows, NoMemory>
        requires ready { IsMarked (parts_of C.choices self.now) }
        requires members { members ≡ members_in (parts_of C.choices self.now) }
        requires bound { bound ≡ self.now.model.now.size }
        ensures few { IfOk result (λ rows. length rows.sizes < 2 ^ 32) }
        ensures domain { self.now.model.now.size < 2 ^ 32 }
        ensures sizes { IfOk result (λ rows. rows.sizes
            ≡ (typed_in (parts_of C.choices self.now)).sizes) }
        ensures each { IfOk result (λ rows. AreRows (parts_of C.choices self.now)
            (members_in (parts_of C.choices self.now)) rows.picked) }
    {
        let mut sizes = List::new(alloc);
        let mut picked = List::new(alloc);
        for member in 0..members {
            let row = self.row(alloc, member, bound)?;
            sizes.push(row.size)?;
            picked.push(row.picked)?;
        }
        Ok(Rows { sizes, picked })
    }

    /// How many elements each of so many members has. None is listed where all numbers are.
    pub fn sizes(&self, alloc: Global, members: u32, bound: u32) -> Result<List<u32>, NoMemory>
        requires ready { IsMarked (parts_of C.choices self.now) }
        requires members { members ≡ members_in (parts_of C.choices self.now) }
        requires bound { bound ≡ self.now.model.now.size }
        ensures { IfOk result (λ sizes. sizes ≡ (typed_in (parts_of C.choices self.now)).sizes) }
    {
        let mut sizes = List::new(alloc);
        for member in 0..members {
            sizes.push(self.size_of(alloc, member, bound)?)?;
        }
        Ok(sizes)
    }

    // how many elements a member has
    fn size_of(&self, alloc: Global, member: u32, bound: u32) -> Result<u32, NoMemory>
        requires ready { IsMarked (parts_of C.choices self.now) }
        requires member { member < members_in (parts_of C.choices self.now) }
        requires bound { bound ≡ self.now.model.now.size }
        ensures { IfOk result (λ size. size
            ≡ count_below bound (picks_in (parts_of C.choices self.now) member)) }
    {
        if self.picks_all(member) {
            return Ok(bound);
        }
        let row = self.row(alloc, member, bound)?;
        Ok(row.size)
    }

    // those of one member, among the numbers of the domain
    fn row(&self, alloc: Global, member: u32, bound: u32) -> Result<Row, NoMemory>
        requires ready { IsMarked (parts_of C.choices self.now) }
        requires member { member < members_in (parts_of C.choices self.now) }
        requires bound { bound ≡ self.now.model.now.size }
        ensures size { IfOk result (λ row. row.size
            ≡ count_below bound (picks_in (parts_of C.choices self.now) member)) }
        ensures picked { IfOk result (λ row. ArePicked
            (picks_in (parts_of C.choices self.now) member) bound row.picked) }
    {
        let given = self.given(alloc, member)?;
        let mut size = 0u32;
        let mut picked = List::new(alloc);
        for number in 0..bound {
            if self.picks(member, number, given.as_slice()) {
                picked.push(number)?;
                size += 1;
            }
        }
        Ok(Row { size, picked })
    }
}

// the elements of a member
#[derive(Drop)]
struct Row {
    size: u32,
    picked: List<u32>,
}

/// How many picked numbers are smaller than a number.
pub(crate) fn rank_of(picked: &[u32], number: u32) -> u32
    requires few { length picked.now < 2 ^ 32 }
    ensures { (test : ℕ → Bool) (bound : ℕ) → ArePicked test bound picked.now → number ≤ bound
        → result ≡ count_below number test }
{
    let mut low = 0usize;
    let mut high = picked.len();
    while low < high {
        let middle = low + (high - low) / 2;
        if picked[middle] < number {
            low = middle + 1;
        } else {
            high = middle;
        }
    }
    low as u32
}
