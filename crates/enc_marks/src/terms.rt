ghost use Rattle.std.specs.Prelude.{◌≡◌, ◌++◌, ◌∷◌, [], List, map, cond, get_or, slice_get, IfOk, OnOk, Some, false};
ghost use Rattle.tf_core.specs.Types.{instantiate};
ghost use Rattle.tf_naked.specs.declared.position.Position.TheVariants.{Argument};
ghost use Rattle.enc_marks.specs.Translation.{selected};
ghost use Rattle.enc_marks.specs.Calls.Slots.{IsGround, slot_in};
ghost use Rattle.enc_marks.specs.Calls.Writing.{IsShape, arguments_in, bare_in, placed_in, type_term_in};

use crate::choices::Choices;
use crate::kinds::Kinds;
use crate::shape::Shape;
use crate::slot::{Slot, slot_at};
use crate::type_writer::TypeWriter;
use crate::writer::Writer;
use enc_base::{List, NoMemory};
use fof_models::FofTerm;
use std::alloc::Global;
use tf_core::{Term, Ty};
use tf_naked::{Kind, Position};

/// The i-th flag; those past the end are down.
pub fn flag_at(flags: &[bool], i: usize) -> bool
    ensures { result ≡ get_or flags.now i false }
{
    flags.get(i).copied().unwrap_or(false)
}

impl<'a> TypeWriter<'a> {
    /// The types that are written, as terms.
    pub fn kept_types(
        &self,
        alloc: Global,
        kept: &[bool],
        types: &[Ty],
        depth: u32,
    ) -> Result<List<FofTerm>, NoMemory>
        ensures { IfOk result (λ made. made ≡ map (type_term_in self.now.normal.now depth) (selected
            kept.now types.now)) }
    {
        let mut made = List::new(alloc);
        for (i, ty) in types.iter().enumerate() {
            self.add_type(alloc, &mut made, flag_at(kept, i), ty, depth)?;
        }
        Ok(made)
    }

    // adds a type, where it is written
    fn add_type(
        &self,
        alloc: Global,
        made: &mut List<FofTerm>,
        kept: bool,
        ty: &Ty,
        depth: u32,
    ) -> Result<(), NoMemory>
        ensures { OnOk result (made.new ≡ made.old ++ cond kept (type_term_in self.now.normal.now
            depth
            ty.now ∷ []) []) }
    {
        if kept {
            made.push(self.type_term(alloc, ty, depth)?)?;
        }
        Ok(())
    }
}

impl<'a, C: Choices> Writer<'a, C> {
    /// A term under so many binders, without a tag of its own.
    #[cycle(term)]
    pub fn term(
        &self,
        alloc: Global,
        term: &Term,
        depth: u32,
        kinds: &Kinds,
    ) -> Result<FofTerm, NoMemory>
        ensures { IfOk result (λ made. made ≡ (bare_in (C.choices self.now.choices.now)
            self.now.types.normal.now depth kinds.now term.now).term) }
    {
        match term {
            Term::Var(i) => Ok(FofTerm::Var(*i)),
            Term::Apply(f, types, terms) => {
                let arguments = self.arguments(
                    alloc,
                    terms.as_slice(),
                    *f,
                    types.as_slice(),
                    depth,
                    kinds,
                )?;
                Ok(FofTerm::Apply(*f, arguments))
            }
        }
    }

    /// What a symbol is applied to: type arguments, then terms.
    #[cycle(term)]
    pub fn arguments(
        &self,
        alloc: Global,
        terms: &[Term],
        f: u32,
        types: &[Ty],
        depth: u32,
        kinds: &Kinds,
    ) -> Result<List<FofTerm>, NoMemory>
        ensures { IfOk result (λ made. made ≡ arguments_in (C.choices self.now.choices.now)
            self.now.types.normal.now depth kinds.now (slice_get
            self.now.types.normal.now.signature.symbols f) types.now terms.now) }
    {
        match self.shape(f) {
            Some(shape) => self.applied(alloc, terms, &shape, types, depth, kinds),
            None => Ok(List::new(alloc)),
        }
    }

    #[cycle(term)]
    fn applied(
        &self,
        alloc: Global,
        terms: &[Term],
        shape: &Shape,
        types: &[Ty],
        depth: u32,
        kinds: &Kinds,
    ) -> Result<List<FofTerm>, NoMemory>
        requires shape { IsShape (C.choices self.now.choices.now) self.now.types.normal.now
            (Some shape.now.symbol.now) shape.now }
        ensures exact { IfOk result (λ made. made ≡ arguments_in (C.choices self.now.choices.now)
            self.now.types.normal.now depth kinds.now (Some shape.now.symbol.now) types.now
            terms.now) }
    {
        let mut made = self.types.kept_types(alloc, shape.kept, types, depth)?;
        let declared = shape.symbol.arguments.as_slice();
        let count = declared.len().min(terms.len());
        for i in 0..count {
            let slot = slot_at(shape.slots, i);
            let term = self.argument(alloc, &terms[i], &slot, &declared[i], types, depth, kinds)?;
            made.push(term)?;
        }
        Ok(made)
    }

    // a term in an argument place of this declared type
    #[cycle(term)]
    fn argument(
        &self,
        alloc: Global,
        term: &Term,
        slot: &Slot,
        ty: &Ty,
        types: &[Ty],
        depth: u32,
        kinds: &Kinds,
    ) -> Result<FofTerm, NoMemory>
        ensures { IfOk result (λ made. IsGround (C.choices self.now.choices.now).marking ty.now →
            slot.now ≡ slot_in (C.choices self.now.choices.now) self.now.types.normal.now
            slot.now.cover ty.now → made ≡ placed_in (C.choices self.now.choices.now)
            self.now.types.normal.now depth (Argument slot.now.cover) (instantiate types.now ty.now)
            (bare_in (C.choices self.now.choices.now) self.now.types.normal.now depth kinds.now
            term.now)) }
    {
        let kind = kinds.kind_of(term);
        let made = self.term(alloc, term, depth, kinds)?;
        self.placed(alloc, made, slot, kind, ty, types, depth)
    }

    // A term of an instance of the type of an argument place, with its tag where it has one there.
    // The instance isn't made: whether it has a tag is seen at the declared type.
    fn placed(
        &self,
        alloc: Global,
        term: FofTerm,
        slot: &Slot,
        kind: Kind,
        ty: &Ty,
        types: &[Ty],
        depth: u32,
    ) -> Result<FofTerm, NoMemory>
        ensures { IfOk result (λ made. IsGround (C.choices self.now.choices.now).marking ty.now →
            slot.now ≡ slot_in (C.choices self.now.choices.now) self.now.types.normal.now
            slot.now.cover ty.now → made ≡ placed_in (C.choices self.now.choices.now)
            self.now.types.normal.now depth (Argument slot.now.cover) (instantiate types.now ty.now) (record {
              kind = kind;
              term = term;
            })) }
    {
        if slot.is_tagged(kind) {
            self.types
                .tag_instance(alloc, term, slot.mark, ty, types, depth)
        } else {
            Ok(term)
        }
    }

    /// A term of a type in its position, with its tag where it has one there.
    pub fn typed(
        &self,
        alloc: Global,
        term: FofTerm,
        position: Position,
        kind: Kind,
        ty: &Ty,
        depth: u32,
    ) -> Result<FofTerm, NoMemory>
        ensures { IfOk result (λ made. made ≡ placed_in (C.choices self.now.choices.now)
            self.now.types.normal.now depth position ty.now (record { kind = kind; term = term })) }
    {
        if self.choices.tagged(position, kind, ty) {
            self.types.tag(alloc, term, ty, depth)
        } else {
            Ok(term)
        }
    }
}
