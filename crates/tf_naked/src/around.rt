//! The binders that are open at a place of a formula.

ghost use Rattle.std.specs.Prelude.{◌≡◌, [], ◌∷◌, drop, true, eqb, slice_index_or, OnOk};
ghost use Rattle.tf_naked.specs.Calls.Noted.{unused, either, noted, uses_of_variable};

use crate::binder::Binder;
use crate::position::Position;
use enc_base::NoMemory;
use std::alloc::Global;
use std::marker::Model;

/// A stack of binders, the nearest last, each with how its variable stands so far. Contracts see
/// the list of them, the nearest first.
#[derive(Drop)]
pub(crate) struct Around {
    binders: Vec<Binder>,
}

impl Model for Around {
    ghost use Rattle.std.specs.Prelude.{List, reverse};
    ghost use Rattle.std.specs.Coded.{codes};
    ghost use Rattle.tf_naked.specs.declared.binder.Binder.{Binder as Core};
    ghost use Rattle.tf_naked.specs.contracts.binder.Binder as known;

    ghost Value = { List Core };

    ghost coded = { Prim.hlevel (codes, known.the_row.coded) };

    ghost view = { λ around. reverse around.binders.items };
}

impl Around {
    /// No binders.
    pub(crate) fn new(alloc: Global) -> Around
        ensures { result ≡ [] }
    {
        Around {
            binders: Vec::new(alloc),
        }
    }

    /// Puts a binder before the others, whose variable stands nowhere yet.
    pub(crate) fn bind(&mut self) -> Result<(), NoMemory>
        ensures { OnOk result (self.new ≡ unused ∷ self.old) }
    {
        match self.binders.push(unused()) {
            Ok(()) => Ok(()),
            Err(_) => Err(NoMemory),
        }
    }

    /// Takes the nearest binder away, and says how its variable stood.
    pub(crate) fn unbind(&mut self) -> Binder
        ensures nearest { result ≡ slice_index_or self.old 0 unused }
        ensures rest { self.new ≡ drop 1 self.old }
    {
        match self.binders.pop() {
            Some(binder) => binder,
            None => unused(),
        }
    }

    /// Notes that the i-th variable stands in a position.
    pub(crate) fn note(&mut self, i: u32, position: Position)
        ensures { self.new ≡ noted (λ j. uses_of_variable position (eqb i j)) self.old }
    {
        let i = i as usize;
        let count = self.binders.len();
        if i < count {
            let binder = self.binders[count - 1 - i];
            self.binders[count - 1 - i] = noted(binder, position);
        }
    }
}

// how a variable stands that stands in a position too
fn noted(binder: Binder, position: Position) -> Binder
    ensures { result ≡ either binder (uses_of_variable position true) }
{
    match position {
        Position::Argument(cover) => Binder {
            undercover: binder.undercover || cover,
            naked: binder.naked,
        },
        Position::Side(positive) => Binder {
            undercover: binder.undercover || positive,
            naked: binder.naked || positive,
        },
    }
}

/// How a variable stands that stands nowhere.
pub(crate) fn unused() -> Binder
    ensures { result ≡ unused }
{
    Binder {
        undercover: false,
        naked: false,
    }
}
