//! Marks of names, by their places.
#![tactic(auto)]

ghost use Rattle.std.specs.Prelude.{◌≡◌, ◌<◌, ◌==◌, false, true, length, replicate, slice_get, set, Some, IfOk};
ghost use Rattle.model_tables.specs.Marks.{missing_among};

use enc_base::NoMemory;
use std::alloc::Global;
use std::marker::Model;

/// Which names have an item, with the number of those that have none.
#[derive(Drop)]
pub struct Marks {
    marks: Vec<bool>,
    missing: usize,
}

impl Model for Marks {
    ghost use Rattle.std.specs.Prelude.{◌≡◌, List, Bool};
    ghost use Rattle.model_tables.specs.Marks.{missing_among};

    ghost Value = { List Bool };

    ghost view = { λ it. it.marks.items };

    ghost invariant = { λ it. record { missing : it.missing ≡ missing_among it.marks.items } };
}

impl Marks {
    /// No name has an item.
    pub fn new(alloc: Global, count: usize) -> Result<Marks, NoMemory>
        ensures { IfOk result (λ marks. marks ≡ replicate count false) }
    {
        match Vec::from_elem(alloc, false, count) {
            Ok(marks) => Ok(Marks {
                marks,
                missing: count,
            }),
            Err(_) => Err(NoMemory),
        }
    }

    /// Whether the name at the place has an item.
    pub fn has(&self, at: usize) -> bool
        requires { at < length self.now }
        ensures { slice_get self.now at ≡ Some result }
    {
        self.marks[at]
    }

    /// Marks the name at a place, which has no mark.
    pub fn mark(&mut self, at: usize)
        requires { slice_get self.old at ≡ Some false }
        ensures { self.new ≡ set self.old at true }
    {
        self.marks[at] = true;
        self.missing -= 1;
    }

    /// Whether each name has an item.
    pub fn all(&self) -> bool
        ensures { result ≡ (missing_among self.now == 0) }
    {
        self.missing == 0
    }
}
