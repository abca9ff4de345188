//! The places of names in a list.
#![tactic(auto)]

ghost use Rattle.std.specs.Prelude.{◌≡◌, IfOk, map, length};
ghost use Rattle.std.specs.Option.{option_map};
ghost use Rattle.model_tables.specs.Held as held;
ghost use Rattle.model_tables.specs.Held.{IsPlace};
ghost use Rattle.model_tables.specs.Marks.{first_unmarked};

use crate::marks::Marks;
use enc_base::{List, NoMemory};
use std::alloc::Global;
use std::collections::HashMap;
use std::marker::Model;

/// Names, each of which is found by its bytes.
#[derive(Drop)]
pub struct Index<'a> {
    names: Vec<&'a [u8]>,
    places: HashMap<&'a [u8], usize>,
}

impl<'a> Model for Index<'a> {
    ghost use Rattle.std.specs.Prelude.{List, ℕ};
    ghost use Rattle.model_tables.specs.Held.{ArePlaces, texts_of};

    ghost Value = { List (List ℕ) };

    ghost view = { λ index. texts_of index.names.items };

    ghost invariant = { λ index. record {
      places : ArePlaces (texts_of index.names.items) index.places;
    } };
}

impl<'a> Index<'a> {
    pub fn new(alloc: Global, names: Vec<&'a [u8]>) -> Result<Index<'a>, NoMemory>
        ensures { IfOk result (λ index. index ≡ held.texts_of names.entry.items) }
    {
        let mut places: HashMap<&'a [u8], usize> = HashMap::new(alloc);
        for (i, name) in names.iter().enumerate() {
            places.insert(*name, i)?;
        }
        Ok(Index { names, places })
    }

    /// A place of the name, if it is there.
    pub fn find(&self, name: &[u8]) -> Option<usize>
        ensures { IsPlace self.now name.now result }
    {
        self.places.get(name).copied()
    }

    /// The first name whose slot is empty.
    pub fn first_empty(&self, slots: &[Option<List<u32>>]) -> Option<&'a [u8]>
        requires { length slots.now ≡ length self.now }
        ensures { option_map (λ name. name.now) result ≡ held.first_empty self.now slots.now }
    {
        for (i, name) in self.names.iter().enumerate() {
            if slots[i].is_none() {
                return Some(*name);
            }
        }
        None
    }

    /// The first name that has no mark.
    pub fn first_unmarked(&self, marks: &Marks) -> Option<&'a [u8]>
        requires { length marks.now ≡ length self.now }
        ensures { option_map (λ name. name.now) result ≡ first_unmarked self.now marks.now }
    {
        for (i, name) in self.names.iter().enumerate() {
            if !marks.has(i) {
                return Some(*name);
            }
        }
        None
    }
}
