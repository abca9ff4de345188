ghost use Rattle.std.specs.Prelude.{◌≡◌};
ghost use Rattle.enc_marks.specs.Calls.Writing.{IsNext};

use crate::kinds::Kinds;
use tf_naked::Binder;

/// The binders round a part of a formula, and the universal ones that follow, in reading order.
#[derive(Drop)]
pub struct Scope<'a> {
    pub kinds: Kinds,
    pub ahead: &'a [Binder],
}

impl Scope<'_> {
    /// Reads the next universal binder. Past the last one, its variable stands nowhere.
    pub fn next(&mut self) -> Binder
        ensures kinds { self.new.kinds ≡ self.old.kinds }
        ensures next { IsNext result self.old.ahead.now self.new.ahead.now }
    {
        match self.ahead.split_first() {
            Some((first, rest)) => {
                self.ahead = rest;
                *first
            }
            None => Binder {
                undercover: false,
                naked: false,
            },
        }
    }
}
