ghost use Rattle.std.specs.Prelude.{◌≡◌, ◌+◌, ◌<◌, ◌^◌, ℕ, true, cond, eqb, length, not, IfOk, IsTrue};
ghost use Rattle.enc_marks.specs.Encoded as encoding;
ghost use Rattle.enc_marks.specs.declared.choices.Marking.TheVariants.{ByType, BySort};
ghost use Rattle.enc_marks.specs.Encoded.{all_numbers, is_guard, own_marks};
ghost use Rattle.enc_laws.specs.Lifted.{type_mark, mark_of_sort, sort_at};
ghost use Rattle.tf_core.specs.Sorts.{sorts};
ghost use Rattle.enc_models.specs.Calls.Lifting.{parts_of, occurs_in, mark_count, mark_number, members_in, marked_in, mark_in, elements_of, table_in, lift_in, picks_in, gives_below, AreGiven, AreGivenIn, AreNoted, ArePlaces, IsMarked};

use enc_base::{List, NoMemory};
use enc_marks::{Binding, Choices, Elements, Mark, Marking};
use fof_models::Structure;
use std::alloc::Global;
use tf_core::Normal;

/// An untyped structure, whose tables are found by what their symbols stand for: all symbols,
/// then all constructors, then the guard or tag, or those of sorts.
#[derive(Drop)]
pub(crate) struct Marked<'a, C> {
    pub choices: &'a C,
    pub normal: &'a Normal,
    pub model: &'a Structure,
    /// The number of the table of each of them, if it has one.
    pub places: &'a [Option<u32>],
    /// Of each symbol, which of its type arguments are kept.
    pub kept: &'a [List<bool>],
    /// Of each sort, whether it is free. Nothing where one guard or tag is that of all types.
    pub free: &'a [bool],
}

/// Where the tables stand of symbols, of constructors, and of the guard or tag, or of those of sorts:
/// so many.
pub(crate) fn places_of_marks<C: Choices>(
    alloc: Global,
    choices: &C,
    normal: &Normal,
    own: usize,
    marks: &[Mark],
) -> Result<List<Option<u32>>, NoMemory>
    requires own { own ≡ length (own_marks normal.now (C.choices choices.now).binding
        (C.choices choices.now).marking) }
    requires few { mark_count (C.choices choices.now) normal.now < 2 ^ 32 }
    requires marks { marks.now ≡ (encoding.encoded (C.choices choices.now) normal.now).marks }
    ensures { IfOk result (λ places. ArePlaces (occurs_in (C.choices choices.now) normal.now)
        (mark_count (C.choices choices.now) normal.now) places) }
{
    let symbols = normal.signature.symbols.as_slice().len();
    let constructors = normal.signature.constructors.as_slice().len();
    let mut places = List::new(alloc);
    let mut at = 0usize;
    for number in 0..symbols + constructors + own {
        if at < marks.len() && number_of(&marks[at], symbols, constructors) == number {
            places.push(Some(at as u32))?;
            at += 1;
        } else {
            places.push(None)?;
        }
    }
    Ok(places)
}

// the number of what a mark stands for, among so many symbols and constructors
fn number_of(mark: &Mark, symbols: usize, constructors: usize) -> usize
    requires { symbols + constructors < 2 ^ 32 }
    ensures { result ≡ mark_number symbols constructors mark.now }
{
    match mark {
        Mark::Symbol(f) => *f as usize,
        Mark::Constructor(c) => symbols + *c as usize,
        Mark::Guard | Mark::Tag => symbols + constructors,
        Mark::SortGuard(s) | Mark::SortTag(s) => symbols + constructors + *s as usize,
    }
}

// notes a number, if it is one of the list's
fn note(given: &mut [bool], number: u32)
    ensures { AreNoted (λ v. eqb v number) given.old given.new }
{
    if (number as usize) < given.len() {
        given[number as usize] = true;
    }
}

impl<C: Choices> Marked<'_, C> {
    /// The table of one of them, or nothing where it doesn't occur.
    pub fn table(&self, number: usize) -> &[u32]
        requires ready { IsMarked (parts_of C.choices self.now) }
        requires number { number < mark_count (C.choices self.now.choices.now) self.now.normal.now }
        ensures { result.now ≡ table_in (parts_of C.choices self.now) number }
    {
        match self.places[number] {
            Some(at) => self.model.tables.as_slice()[at as usize].as_slice(),
            None => &[],
        }
    }

    /// Which numbers the tag gives in a member, where these are its elements. Else nothing is
    /// looked at, and the list is empty.
    pub fn given(&self, alloc: Global, member: u32) -> Result<Vec<bool>, NoMemory>
        requires ready { IsMarked (parts_of C.choices self.now) }
        requires member { member < members_in (parts_of C.choices self.now) }
        ensures { IfOk result (λ given.
            AreGivenIn (parts_of C.choices self.now) member given.items) }
    {
        match self.elements(member) {
            Elements::Image => self.image(alloc, member),
            _ => Ok(Vec::new(alloc)),
        }
    }

    // for each number of the domain, whether the tag gives it in a member
    fn image(&self, alloc: Global, member: u32) -> Result<Vec<bool>, NoMemory>
        requires ready { IsMarked (parts_of C.choices self.now) }
        requires member { member < members_in (parts_of C.choices self.now) }
        ensures { IfOk result (λ given. AreGiven (mark_in (parts_of C.choices self.now) member)
            self.now.model.now.size given.items) }
    {
        let mut given = vec![in alloc; false; self.model.size as usize]?;
        self.note_marks(member, &mut given);
        Ok(given)
    }

    // notes the numbers that the tag gives in a member
    fn note_marks(&self, member: u32, given: &mut [bool])
        requires ready { IsMarked (parts_of C.choices self.now) }
        requires member { member < members_in (parts_of C.choices self.now) }
        ensures { AreNoted (gives_below (mark_in (parts_of C.choices self.now) member)
            self.now.model.now.size) given.old given.new }
    {
        for number in 0..self.model.size {
            note(given, self.mark(member, number));
        }
    }

    /// Whether a number is an element of a member in which the tag gives these.
    pub fn picks(&self, member: u32, number: u32, given: &[bool]) -> bool
        requires ready { IsMarked (parts_of C.choices self.now) }
        requires member { member < members_in (parts_of C.choices self.now) }
        requires number { number < self.now.model.now.size }
        requires given { AreGivenIn (parts_of C.choices self.now) member given.now }
        ensures { result ≡ picks_in (parts_of C.choices self.now) member number }
    {
        let mark = self.mark(member, number);
        match self.elements(member) {
            Elements::Guarded => mark == 1,
            Elements::Image => given[number as usize],
            Elements::Fixed => mark == number,
            Elements::All => true,
        }
    }

    /// Whether it is plain that all numbers are elements of a member: that of a free sort, or one
    /// whose tag doesn't occur.
    pub fn picks_all(&self, member: u32) -> bool
        requires ready { IsMarked (parts_of C.choices self.now) }
        requires member { member < members_in (parts_of C.choices self.now) }
        ensures { IsTrue result → (number : ℕ) → number < self.now.model.now.size →
            picks_in (parts_of C.choices self.now) member number ≡ true }
    {
        match self.elements(member) {
            Elements::Guarded => false,
            Elements::Image => self.changes_nothing(member),
            Elements::Fixed => self.changes_nothing(member),
            Elements::All => true,
        }
    }

    // whether a member has a tag that doesn't occur
    fn changes_nothing(&self, member: u32) -> bool
        requires ready { IsMarked (parts_of C.choices self.now) }
        requires member { member < members_in (parts_of C.choices self.now) }
        ensures { IsTrue result → (number : ℕ) → number < self.now.model.now.size →
            mark_in (parts_of C.choices self.now) member number ≡ number }
    {
        let table = match self.choices.marking() {
            Marking::ByType => self.table(self.unmarked()),
            Marking::BySort => self.table(self.unmarked() + member as usize),
        };
        match self.choices.binding() {
            Binding::ByGuard => false,
            Binding::ByTag => table.len() == 0,
        }
    }

    /// What a number is read as in a member.
    pub fn read_in(&self, member: u32, number: u32) -> u32
        requires ready { IsMarked (parts_of C.choices self.now) }
        requires member { member < members_in (parts_of C.choices self.now) }
        requires number { number < self.now.model.now.size }
        ensures exact { result ≡ (lift_in (parts_of C.choices self.now)).into member number }
        ensures within { result < self.now.model.now.size }
    {
        match self.elements(member) {
            Elements::Guarded => number,
            Elements::Image => self.mark(member, number),
            Elements::Fixed => number,
            Elements::All => number,
        }
    }

    // which numbers are a member's elements: all those of a free sort
    fn elements(&self, member: u32) -> Elements
        requires ready { IsMarked (parts_of C.choices self.now) }
        requires member { member < members_in (parts_of C.choices self.now) }
        ensures { result ≡ elements_of (parts_of C.choices self.now) member }
    {
        match self.choices.marking() {
            Marking::ByType => self.choices.elements(),
            Marking::BySort => {
                if self.free[member as usize] {
                    return Elements::All;
                }
                self.choices.elements()
            }
        }
    }

    // what the guard or tag of a member gives for a number
    fn mark(&self, member: u32, number: u32) -> u32
        requires ready { IsMarked (parts_of C.choices self.now) }
        requires member { member < members_in (parts_of C.choices self.now) }
        requires number { number < self.now.model.now.size }
        ensures { result ≡ mark_in (parts_of C.choices self.now) member number }
    {
        match self.choices.marking() {
            Marking::ByType => self.type_mark(member, number),
            Marking::BySort => self.sort_mark(member, number),
        }
    }

    // what the guard or tag of all types gives for a member and a number
    fn type_mark(&self, member: u32, number: u32) -> u32
        requires ready { IsMarked (parts_of C.choices self.now) }
        requires by_type { (C.choices self.now.choices.now).marking ≡ ByType }
        requires member { member < self.now.model.now.size }
        requires number { number < self.now.model.now.size }
        ensures { result ≡ type_mark (all_numbers self.now.normal.now)
            (marked_in (parts_of C.choices self.now)) member number }
    {
        let table = self.table(self.unmarked());
        if table.len() == 0 {
            return self.absent_mark(number);
        }
        let at = member as usize * self.model.size as usize + number as usize;
        table[at]
    }

    // what the guard or tag of a sort gives for a number
    fn sort_mark(&self, sort: u32, number: u32) -> u32
        requires ready { IsMarked (parts_of C.choices self.now) }
        requires by_sort { (C.choices self.now.choices.now).marking ≡ BySort }
        requires sort { sort < length (sorts self.now.normal.now) }
        requires number { number < self.now.model.now.size }
        ensures { result ≡ mark_of_sort (all_numbers self.now.normal.now)
            (marked_in (parts_of C.choices self.now)) (sort_at self.now.normal.now sort) number }
    {
        let table = self.table(self.unmarked() + sort as usize);
        if table.len() == 0 {
            return self.absent_mark(number);
        }
        table[number as usize]
    }

    // how many symbols and constructors there are: the guards and tags come behind them
    fn unmarked(&self) -> usize
        requires ready { IsMarked (parts_of C.choices self.now) }
        ensures { result ≡ length self.now.normal.now.signature.symbols
            + length self.now.normal.now.signature.constructors }
    {
        let signature = &self.normal.signature;
        signature.symbols.as_slice().len() + signature.constructors.as_slice().len()
    }

    // what it gives for a number where it doesn't occur: a tag changes nothing
    fn absent_mark(&self, number: u32) -> u32
        ensures { result ≡ cond (not (is_guard (C.choices self.now.choices.now).binding)) number 0 }
    {
        match self.choices.binding() {
            Binding::ByGuard => 0,
            Binding::ByTag => number,
        }
    }
}
