ghost use Rattle.std.specs.Prelude.{ℕ, ◌≡◌, ◌<◌, ◌≤◌, ◌+◌, ◌-◌, true, false, List, [], ◌∷◌, ◌++◌, length, take, drop, replicate, slice_index, IfOk};
ghost use Rattle.enc_base.specs.Tables.{EachBelow, tuple_count};
ghost use Rattle.fof_models.specs.Evaluation.{IsTuple};

use enc_base::{NoMemory, next_tuple_below};
use std::alloc::Global;
use std::marker::Model;

/// The elements of the variables in scope, the last being that of `FofTerm::Var(0)`, with room for
/// a number of them that is fixed at the start. The room is for all items, those in it counted.
#[derive(Drop)]
pub struct FofEnv {
    slots: Vec<u32>,
    used: usize,
}

impl Model for FofEnv {
    ghost use Rattle.std.specs.Prelude.{◌≤◌, length, take};
    ghost use Rattle.fof_models.specs.Room.{Room};

    ghost Value = { Room };

    ghost view = { λ env. record { items = take env.used env.slots.items; room = length env.slots.items } };

    ghost invariant = { λ env. env.used ≤ length env.slots.items };
}

impl FofEnv {
    /// No elements, and room for so many.
    pub fn new(alloc: Global, terms: u32) -> Result<FofEnv, NoMemory>
        ensures ok { IfOk result (λ env. (env.items ≡ []) × (env.room ≡ terms)) }
    {
        match vec![in alloc; 0; terms as usize] {
            Ok(slots) => Ok(FofEnv { slots, used: 0 }),
            Err(_) => Err(NoMemory),
        }
    }

    /// Appends an element, for one more variable.
    pub fn bind(&mut self, element: u32)
        requires room { length self.old.items < self.old.room }
        ensures exact { self.new.items ≡ self.old.items ++ element ∷ [] }
        ensures kept { self.new.room ≡ self.old.room }
    {
        self.slots[self.used] = element;
        self.used += 1;
    }

    /// Removes the last element.
    pub fn unbind(&mut self)
        requires some { 0 < length self.old.items }
        ensures exact { self.new.items ≡ take (length self.old.items - 1) self.old.items }
        ensures kept { self.new.room ≡ self.old.room }
    {
        self.used -= 1;
    }

    /// Appends so many zeros: the first tuple of elements.
    pub(crate) fn bind_zeros(&mut self, count: usize)
        requires room { length self.old.items + count ≤ self.old.room }
        ensures exact { self.new.items ≡ self.old.items ++ replicate count 0 }
        ensures kept { self.new.room ≡ self.old.room }
    {
        for _ in 0..count {
            self.bind(0);
        }
    }

    /// Removes so many elements, the last ones.
    pub(crate) fn unbind_last(&mut self, count: usize)
        requires some { count ≤ length self.old.items }
        ensures exact { self.new.items ≡ take (length self.old.items - count) self.old.items }
        ensures kept { self.new.room ≡ self.old.room }
    {
        self.used -= count;
    }

    /// Replaces so many elements, the last ones, by the next tuple of numbers below a bound. Where
    /// there is none, it removes them. Says whether there is one.
    pub(crate) fn next_tuple(&mut self, count: usize, bound: u32) -> bool
        requires there { count ≤ length self.old.items }
        requires below { EachBelow (replicate count bound) (drop (length self.old.items - count) self.old.items) }
        ensures next { result ≡ true → (front : List ℕ) (number : ℕ) →
            IsTuple bound count front self.old.items number →
            IsTuple bound count front self.new.items (number + 1) }
        ensures last { result ≡ false → (front : List ℕ) (number : ℕ) →
            IsTuple bound count front self.old.items number →
            (self.new.items ≡ front) × (number + 1 ≡ tuple_count (replicate count bound)) }
        ensures kept { self.new.room ≡ self.old.room }
    {
        let front = self.used - count;
        if next_tuple_below(&mut self.slots[front..self.used], bound) {
            return true;
        }
        self.used = front;
        false
    }

    /// The element of `FofTerm::Var(i)`.
    pub(crate) fn element(&self, i: u32) -> u32
        requires bound { i < length self.now.items }
        ensures exact { result ≡ slice_index self.now.items (length self.now.items - (i + 1)) }
    {
        self.slots[self.used - 1 - i as usize]
    }
}
