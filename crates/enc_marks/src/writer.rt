ghost use Rattle.std.specs.Prelude.{◌≡◌, map, slice_get, MatchOption, None};
ghost use Rattle.tf_naked.specs.Covers as naked;
ghost use Rattle.enc_marks.specs.Calls.Slots.{HaveGroundArguments, marking_of, slots_of};
ghost use Rattle.enc_marks.specs.Calls.Writing.{IsShape};

use crate::choices::Choices;
use crate::shape::Shape;
use crate::slot::Slot;
use crate::type_writer::TypeWriter;
use enc_base::List;

/// Writes the formulas of a normal problem by the choices of a scheme.
#[derive(Drop)]
pub struct Writer<'a, C: Choices> {
    pub choices: &'a C,
    pub types: TypeWriter<'a>,
    /// The covers of each symbol.
    pub covers: &'a [List<bool>],
    /// Of each symbol, the type arguments that are written.
    pub kept: &'a [List<bool>],
    /// Of each symbol, what was found of its argument places.
    pub slots: &'a [List<Slot>],
    ghost marking_is: { (C.choices choices.now).marking ≡ marking_of types.marks },
    ghost covers_are: { covers.now ≡ map naked.covers types.normal.now.signature.symbols },
    ghost kept_are: { kept.now ≡ map (C.choices choices.now).keeps
        types.normal.now.signature.symbols },
    ghost slots_are: { slots.now ≡ map (slots_of (C.choices choices.now) types.normal.now)
        types.normal.now.signature.symbols },
    ghost are_ground: { HaveGroundArguments (C.choices choices.now).marking
        types.normal.now.signature.symbols },
}

impl<'a, C: Choices> Writer<'a, C> {
    /// The f-th symbol.
    pub fn shape(&self, f: u32) -> Option<Shape<'a>>
        ensures { MatchOption result (slice_get self.now.types.normal.now.signature.symbols f ≡
            None)
            (IsShape (C.choices self.now.choices.now) self.now.types.normal.now (slice_get
            self.now.types.normal.now.signature.symbols
            f)) }
    {
        let f = f as usize;
        let symbol = self.types.normal.signature.symbols.as_slice().get(f)?;
        let covers = self.covers.get(f)?.as_slice();
        let kept = self.kept.get(f)?.as_slice();
        let slots = self.slots.get(f)?.as_slice();
        Some(Shape {
            symbol,
            covers,
            kept,
            slots,
        })
    }
}
