//! What is found once of the argument places of symbols.

ghost use Rattle.std.specs.Prelude.{◌≡◌, map, IfOk};
ghost use Rattle.tf_naked.specs.Covers as naked;
ghost use Rattle.enc_marks.specs.Calls.Slots as specs;
ghost use Rattle.enc_marks.specs.Calls.Slots.{marking_of};

use crate::choices::Choices;
use crate::slot::Slot;
use crate::terms::flag_at;
use crate::type_writer::TypeWriter;
use enc_base::{List, NoMemory};
use std::alloc::Global;
use tf_core::{Symbol, Ty};
use tf_naked::{Kind, Position};

impl TypeWriter<'_> {
    // the argument place, a cover or not, of a type
    fn slot<C: Choices>(&self, choices: &C, cover: bool, ty: &Ty) -> Result<Slot, NoMemory>
        requires marking { (C.choices choices.now).marking ≡ marking_of self.now.marks }
        ensures exact { IfOk result (λ slot. slot ≡ specs.slot_in (C.choices choices.now)
            self.now.normal.now cover ty.now) }
    {
        let position = Position::Argument(cover);
        Ok(Slot {
            cover,
            universal: choices.tagged(position, Kind::Universal, ty),
            existential: choices.tagged(position, Kind::Existential, ty),
            applied: choices.tagged(position, Kind::Applied, ty),
            mark: self.mark(ty)?,
        })
    }

    // those of a symbol with these covers
    fn slots_of_symbol<C: Choices>(
        &self,
        alloc: Global,
        choices: &C,
        symbol: &Symbol,
        covers: &[bool],
    ) -> Result<List<Slot>, NoMemory>
        requires marking { (C.choices choices.now).marking ≡ marking_of self.now.marks }
        requires covers { covers.now ≡ naked.covers symbol.now }
        ensures exact { IfOk result (λ slots. slots ≡ specs.slots_of (C.choices choices.now)
            self.now.normal.now symbol.now) }
    {
        let mut slots = List::new(alloc);
        for (i, ty) in symbol.arguments.as_slice().iter().enumerate() {
            slots.push(self.slot(choices, flag_at(covers, i), ty)?)?;
        }
        Ok(slots)
    }

    /// Those of each symbol.
    pub fn slots_of_symbols<C: Choices>(
        &self,
        alloc: Global,
        choices: &C,
        covers: &[List<bool>],
    ) -> Result<List<List<Slot>>, NoMemory>
        requires marking { (C.choices choices.now).marking ≡ marking_of self.now.marks }
        requires covers { covers.now ≡ map naked.covers self.now.normal.now.signature.symbols }
        ensures exact { IfOk result (λ slots. slots ≡ map (specs.slots_of (C.choices choices.now)
            self.now.normal.now) self.now.normal.now.signature.symbols) }
    {
        let mut slots = List::new(alloc);
        for (f, symbol) in self.normal.signature.symbols.as_slice().iter().enumerate() {
            slots.push(self.slots_of_symbol(alloc, choices, symbol, covers[f].as_slice())?)?;
        }
        Ok(slots)
    }
}
