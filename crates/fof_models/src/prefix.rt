ghost use Rattle.std.specs.Prelude.{◌≡◌, ◌≢◌, ◌<◌, ◌≤◌, ◌-◌, ◌^◌, IfOk};
ghost use Rattle.fof_models.specs.declared.formula.Fof.{Fof, size-Fof};
ghost use Rattle.fof_models.specs.declared.formula.Fof.TheVariants.{ForAll, Exists};
ghost use Rattle.fof_models.specs.Prefix.{under_universals, under_existentials};

use crate::formula::Fof;
use enc_base::{Boxed, NoMemory};
use std::alloc::Global;

impl Fof {
    /// How many universal quantifiers the formula begins with, each right below the one before, and
    /// the formula below them. It stops at 2^32 - 1 of them. It takes no memory, and no stack.
    pub fn below_universals(&self) -> (u32, &Fof)
        ensures whole { self.now ≡ under_universals result.0 result.1.now }
        ensures all { result.0 < 2 ^ 32 - 1 → (body : Fof) → result.1.now ≢ ForAll body }
        ensures no_deeper { size-Fof result.1.now ≤ size-Fof self.now }
    {
        let mut below = self;
        for count in 0..u32::MAX {
            match below {
                Fof::ForAll(body) => below = body.get(),
                _ => return (count, below),
            }
        }
        (u32::MAX, below)
    }

    /// How many existential quantifiers the formula begins with, each right below the one before,
    /// and the formula below them. It stops at 2^32 - 1 of them. It takes no memory, and no stack.
    pub fn below_existentials(&self) -> (u32, &Fof)
        ensures whole { self.now ≡ under_existentials result.0 result.1.now }
        ensures all { result.0 < 2 ^ 32 - 1 → (body : Fof) → result.1.now ≢ Exists body }
        ensures no_deeper { size-Fof result.1.now ≤ size-Fof self.now }
    {
        let mut below = self;
        for count in 0..u32::MAX {
            match below {
                Fof::Exists(body) => below = body.get(),
                _ => return (count, below),
            }
        }
        (u32::MAX, below)
    }

    /// The formula under so many universal quantifiers. It takes no stack.
    pub fn under_universals(self, alloc: Global, count: u32) -> Result<Fof, NoMemory>
        ensures exact { IfOk result (λ formula. formula ≡ under_universals count self) }
    {
        let mut made = self;
        for _ in 0..count {
            made = Fof::ForAll(Boxed::new(alloc, made)?);
        }
        Ok(made)
    }

    /// The formula under so many existential quantifiers. It takes no stack.
    pub fn under_existentials(self, alloc: Global, count: u32) -> Result<Fof, NoMemory>
        ensures exact { IfOk result (λ formula. formula ≡ under_existentials count self) }
    {
        let mut made = self;
        for _ in 0..count {
            made = Fof::Exists(Boxed::new(alloc, made)?);
        }
        Ok(made)
    }
}
