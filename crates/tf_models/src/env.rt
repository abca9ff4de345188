ghost use Rattle.std.specs.Prelude.{◌≡◌, ◌<◌, ◌≤◌, ◌+◌, ◌-◌, [], ◌∷◌, ◌++◌, length, take, slice_index, vec_len, replicate, true, false, IfOk};
ghost use Rattle.enc_base.specs.Tables.{EachBelow};
ghost use Rattle.enc_base.specs.Tuples.{IsNext, IsLast};
ghost use Rattle.tf_core.specs.Occurrences.{occurs_in};
ghost use Rattle.tf_models.specs.Search.{tried, AreTried, AreTriedNext, AreTriedLast, AreUsed};
ghost use Rattle.tf_models.specs.Assignment.{Assignment};

use crate::occurring::formula_has;
use enc_base::NoMemory;
use std::alloc::Global;
use std::marker::Model;
use tf_core::Formula;

/// The members of the type variables and the elements of the term variables in scope, each with
/// room for a number of them that is fixed at the start.
///
/// The i-th member is that of `Ty::Var(i)`, the last element that of `Term::Var(0)`. A room is for
/// the whole list, the items in it counted.
#[derive(Drop)]
pub struct Env {
    members: Vec<u32>,
    types: usize,
    elements: Vec<u32>,
    terms: usize,
}

impl Model for Env {
    ghost use Rattle.std.specs.Prelude.{◌≤◌, length, take};
    ghost use Rattle.tf_models.specs.Assignment.{Assignment};

    ghost Value = { Assignment };

    ghost view = { λ env. record {
      members = take env.types env.members.items;
      members_room = length env.members.items;
      elements = take env.terms env.elements.items;
      elements_room = length env.elements.items;
    } };

    ghost invariant = { λ env. (env.types ≤ length env.members.items) × (env.terms ≤ length env.elements.items) };
}

impl Env {
    /// Empty lists, with room for so many members and so many elements.
    pub fn new(alloc: Global, types: u32, terms: u32) -> Result<Env, NoMemory>
        ensures ok { IfOk result (λ env. env ≡ record { members = []; members_room = types; elements = []; elements_room = terms }) }
    {
        let Ok(members) = vec![in alloc; 0; types as usize] else {
            return Err(NoMemory);
        };
        let Ok(elements) = vec![in alloc; 0; terms as usize] else {
            return Err(NoMemory);
        };
        Ok(Env {
            members,
            types: 0,
            elements,
            terms: 0,
        })
    }

    /// Replaces the members.
    pub fn set_types(&mut self, members: &[u32])
        requires room { length members.now ≤ self.old.members_room }
        ensures exact { self.new ≡ record self.old { members = members.now } }
    {
        fill(&mut self.members, members);
        self.types = members.len();
    }

    /// Replaces the members by so many zeros: the first tuple of members.
    pub(crate) fn first_types(&mut self, count: u32)
        requires room { count ≤ self.old.members_room }
        ensures exact { self.new ≡ record self.old { members = replicate count 0 } }
    {
        clear(&mut self.members, count as usize);
        self.types = count as usize;
    }

    /// Replaces the members, which are below a bound, by the next tuple of such numbers in which
    /// only the members of those type variables vary that occur in a formula: `used` of them at
    /// most, the first ones. Says whether there is one.
    pub(crate) fn next_types(&mut self, bound: u32, formula: &Formula, used: u32) -> bool
        requires used { AreUsed formula.now (length self.old.members) used }
        requires below { AreTried bound formula.now self.old.members }
        ensures next { result ≡ true → AreTriedNext bound formula.now self.old.members self.new.members }
        ensures last { result ≡ false → AreTriedLast bound formula.now self.old.members }
        ensures kept { self.new ≡ record self.old { members = self.new.members } }
    {
        next_tuple(&mut self.members, self.types, bound, formula, used)
    }

    /// Appends an element, for one more variable.
    pub fn bind(&mut self, element: u32)
        requires room { length self.old.elements < self.old.elements_room }
        ensures exact { self.new ≡ record self.old { elements = self.old.elements ++ element ∷ [] } }
    {
        self.elements[self.terms] = element;
        self.terms += 1;
    }

    /// Removes the last element.
    pub fn unbind(&mut self)
        requires some { 0 < length self.old.elements }
        ensures exact { self.new ≡ record self.old { elements = take (length self.old.elements - 1) self.old.elements } }
    {
        self.terms -= 1;
    }

    /// The members.
    pub(crate) fn members(&self) -> &[u32]
        ensures { result.now ≡ self.now.members }
    {
        &self.members[..self.types]
    }

    /// The element of `Term::Var(i)`.
    pub(crate) fn element(&self, i: u32) -> u32
        requires bound { i < length self.now.elements }
        ensures exact { result ≡ slice_index self.now.elements (length self.now.elements - (i + 1)) }
    {
        self.elements[self.terms - 1 - i as usize]
    }
}

// begins the slots with these items
fn fill(slots: &mut Vec<u32>, items: &[u32])
    requires { length items.now ≤ vec_len slots.old }
    ensures begins { take (length items.now) slots.new.items ≡ items.now }
    ensures kept { vec_len slots.new ≡ vec_len slots.old }
{
    for (i, item) in items.iter().enumerate() {
        slots[i] = *item;
    }
}

// makes the first slots zeros
fn clear(slots: &mut Vec<u32>, count: usize)
    requires { count ≤ vec_len slots.old }
    ensures begins { take count slots.new.items ≡ replicate count 0 }
    ensures kept { vec_len slots.new ≡ vec_len slots.old }
{
    for i in 0..count {
        slots[i] = 0;
    }
}

// replaces the first slots by the next tuple of numbers below a bound in which only those parts vary
// whose type variables occur in a formula, and says whether there is one
fn next_tuple(slots: &mut Vec<u32>, count: usize, bound: u32, formula: &Formula, used: u32) -> bool
    requires room { count ≤ vec_len slots.old }
    requires used { AreUsed formula.now count used }
    requires below { EachBelow (tried bound formula.now count) (take count slots.old.items) }
    ensures next { result ≡ true → IsNext (tried bound formula.now count) (take count slots.old.items) (take count slots.new.items) }
    ensures last { result ≡ false → IsLast (tried bound formula.now count) (take count slots.old.items) }
    ensures kept { vec_len slots.new ≡ vec_len slots.old }
{
    for i in (0..used).rev() {
        let slot = i as usize;
        if slots[slot] + 1 < bound && varies(formula, i, used) {
            slots[slot] += 1;
            return true;
        }
        slots[slot] = 0;
    }
    false
}

// whether a type variable occurs in a formula, of which the last that does is known
fn varies(formula: &Formula, i: u32, used: u32) -> bool
    requires last { 0 < used → occurs_in (used - 1) formula.now ≡ true }
    requires within { i < used }
    ensures exact { result ≡ occurs_in i formula.now }
{
    i + 1 == used || formula_has(formula, i)
}
