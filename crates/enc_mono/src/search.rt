//! The search for the substitutions under which each type variable occurs in an instance.

ghost use Rattle.std.specs.Prelude.{◌≡◌, ◌<◌, ◌≤◌, ◌⊎◌, ◌++◌, ◌∷◌, [], ◌^◌, IfOk, OnOk, IfSome, IfNone, Some, None, length, slice_get, map};
ghost use Rattle.std.specs.List.{AllByRecursion};
ghost use Rattle.tf_types.specs.Numbers.{IsNumber, AreNumbers};
ghost use Rattle.tf_types.specs.Matching.{AreBound};
ghost use Rattle.enc_mono.specs.Calls.Numbered.{AreIndexed, keys_in};
ghost use Rattle.enc_mono.specs.Calls.Matched.{AreMatchedUpTo};
ghost use Rattle.enc_mono.specs.Calls.Searched.{IsTotal, bound_to, IsSearch, IsFinished, GoesOn, Meets, IsWithin, steps_left, query, nothing_bound, met_in, pending_in, found_in};

use crate::occurs::occurs;
use crate::partial::{first_free, instances_under, nothing, numbers_in, put};
use enc_base::{List, NoMemory};
use indexmap::IndexSet;
use std::alloc::Global;
use std::slice::from_ref;
use tf_core::Ty;
use tf_types::{TypeId, TypeTable};

/// The partial substitutions that were met, each once; those from which the search goes on; and
/// those that are total.
#[derive(Drop)]
pub(crate) struct Search {
    pub(crate) met: IndexSet<Vec<Option<TypeId>>>,
    pub(crate) pending: Vec<List<Option<TypeId>>>,
    pub(crate) found: IndexSet<Vec<Option<TypeId>>>,
}

/// The substitutions, as numbers, under which each of so many type variables occurs in a pattern
/// that is an instance of the index. Each comes once. All come where they are no more than `most`;
/// else the search ends when there are more.
pub(crate) fn matched_substitutions(
    alloc: Global,
    table: &TypeTable,
    index: &[IndexSet<TypeId>],
    patterns: &[Ty],
    variables: usize,
    most: usize,
) -> Result<List<List<TypeId>>, NoMemory>
    requires numbers { AreIndexed table.now (keys_in index.now) }
    ensures { IfOk result (AreMatchedUpTo table.now (keys_in index.now) patterns.now variables most) }
{
    let search = searched(alloc, table, index, patterns, variables, most)?;
    all_numbers(alloc, search.found.as_slice())
}

// the search, when it has ended
fn searched(
    alloc: Global,
    table: &TypeTable,
    index: &[IndexSet<TypeId>],
    patterns: &[Ty],
    variables: usize,
    most: usize,
) -> Result<Search, NoMemory>
    requires numbers { AreIndexed table.now (keys_in index.now) }
    ensures { IfOk result
        (IsFinished (query table.now (keys_in index.now) patterns.now variables) most) }
{
    let mut search = Search::new(alloc, variables)?;
    while let Some(bound) = search.pending.pop() {
        search.go_on(alloc, table, index, patterns, bound.as_slice())?;
        if search.found.len() > most {
            break;
        }
    }
    Ok(search)
}

impl Search {
    // from the partial substitution that binds nothing
    fn new(alloc: Global, variables: usize) -> Result<Search, NoMemory>
        ensures met { IfOk result (λ search. met_in search ≡ nothing_bound variables ∷ []) }
        ensures pending { IfOk result (λ search. pending_in search ≡ nothing_bound variables ∷ []) }
        ensures found { IfOk result (λ search. found_in search ≡ []) }
        ensures within { IfOk result IsWithin }
    {
        let mut search = Search {
            met: IndexSet::new(alloc),
            pending: Vec::new(alloc),
            found: IndexSet::new(alloc),
        };
        search.meet(alloc, nothing(alloc, variables)?)?;
        Ok(search)
    }

    // goes on from a partial substitution later, unless it was met
    fn meet(&mut self, alloc: Global, bound: List<Option<TypeId>>) -> Result<(), NoMemory>
        ensures meets { OnOk result (Meets bound self.old self.new) }
        ensures within { OnOk result (IsWithin self.new) }
    {
        if put(alloc, &mut self.met, bound.as_slice())? {
            self.pending.push(bound)?;
        }
        Ok(())
    }

    // goes on from one that was pending
    fn go_on(
        &mut self,
        alloc: Global,
        table: &TypeTable,
        index: &[IndexSet<TypeId>],
        patterns: &[Ty],
        bound: &[Option<TypeId>],
    ) -> Result<(), NoMemory>
        requires numbers { AreIndexed table.now (keys_in index.now) }
        requires within { IsWithin self.old }
        requires search { IsSearch (query table.now (keys_in index.now) patterns.now (length bound.now))
            (met_in self.old) (pending_in self.old ++ bound.now ∷ []) (found_in self.old) }
        ensures search { OnOk result
            (IsSearch (query table.now (keys_in index.now) patterns.now (length bound.now))
            (met_in self.new) (pending_in self.new) (found_in self.new)) }
        ensures within { OnOk result (IsWithin self.new) }
        ensures less { OnOk result (steps_left self.new ≤ steps_left self.old) }
    {
        match first_free(bound) {
            Some(i) => self.extend(alloc, table, index, patterns, bound, i),
            None => {
                put(alloc, &mut self.found, bound)?;
                Ok(())
            }
        }
    }

    // goes on from it by the patterns in which a type variable occurs that is free
    fn extend(
        &mut self,
        alloc: Global,
        table: &TypeTable,
        index: &[IndexSet<TypeId>],
        patterns: &[Ty],
        bound: &[Option<TypeId>],
        i: usize,
    ) -> Result<(), NoMemory>
        requires numbers { AreIndexed table.now (keys_in index.now) }
        requires free { slice_get bound.now i ≡ Some None }
        requires within { IsWithin self.old }
        requires search { IsSearch (query table.now (keys_in index.now) patterns.now (length bound.now))
            (met_in self.old) (pending_in self.old ++ bound.now ∷ []) (found_in self.old) }
        ensures search { OnOk result
            (IsSearch (query table.now (keys_in index.now) patterns.now (length bound.now))
            (met_in self.new) (pending_in self.new) (found_in self.new)) }
        ensures within { OnOk result (IsWithin self.new) }
        ensures less { OnOk result (steps_left self.new ≤ steps_left self.old) }
    {
        for pattern in patterns {
            if occurs(pattern, i) {
                let ids = instances_under(index, pattern);
                self.extend_by(alloc, table, pattern, ids, bound)?;
            }
        }
        Ok(())
    }

    // goes on from it by the matches of the pattern with the numbers
    fn extend_by(
        &mut self,
        alloc: Global,
        table: &TypeTable,
        pattern: &Ty,
        ids: &[TypeId],
        bound: &[Option<TypeId>],
    ) -> Result<(), NoMemory>
        requires numbers { AreNumbers table.now ids.now }
        requires bound { AreBound table.now bound.now }
        requires within { IsWithin self.old }
        ensures goes_on { OnOk result
            (GoesOn table.now bound.now pattern.now ids.now self.old self.new) }
        ensures within { OnOk result (IsWithin self.new) }
    {
        for id in ids {
            self.extend_to(alloc, table, pattern, *id, bound)?;
        }
        Ok(())
    }

    // goes on from it by the match of the pattern with the number, if they match
    fn extend_to(
        &mut self,
        alloc: Global,
        table: &TypeTable,
        pattern: &Ty,
        id: TypeId,
        bound: &[Option<TypeId>],
    ) -> Result<(), NoMemory>
        requires number { IsNumber table.now id }
        requires bound { AreBound table.now bound.now }
        requires within { IsWithin self.old }
        ensures goes_on { OnOk result
            (GoesOn table.now bound.now pattern.now (id ∷ []) self.old self.new) }
        ensures within { OnOk result (IsWithin self.new) }
    {
        match table.matched(from_ref(pattern), from_ref(&id), bound)? {
            Some(more) => self.meet(alloc, more),
            None => Ok(()),
        }
    }
}

// the numbers in total substitutions
fn all_numbers(alloc: Global, found: &[Vec<Option<TypeId>>]) -> Result<List<List<TypeId>>, NoMemory>
    requires total { AllByRecursion (λ key. IsTotal key.items) found.now }
    ensures { IfOk result (λ made. map bound_to made ≡ map (λ key. key.items) found.now) }
{
    let mut made = List::new(alloc);
    for bound in found {
        made.push(numbers_in(alloc, bound.as_slice())?)?;
    }
    Ok(made)
}
