ghost use Rattle.std.specs.Prelude.{◌≡◌, ℕ, ◌+◌, ◌-◌, ◌∷◌, ◌++◌, [], List, cond, map, length, IfOk, OnOk, Some};
ghost use Rattle.enc_marks.specs.Axioms as specs;
ghost use Rattle.enc_marks.specs.Axioms.{own_types};
ghost use Rattle.enc_marks.specs.Translation.{selected, type_term};
ghost use Rattle.enc_marks.specs.Calls.Writing.{IsShape, application_in, bind_in, last_in, premises_in, tag_in, typing_axiom_in};

use crate::choices::{Binding, Choices};
use crate::shape::Shape;
use crate::terms::flag_at;
use crate::type_writer::{in_32_bits, type_variable};
use crate::writer::Writer;
use enc_base::{Boxed, List, NoMemory};
use fof_models::{Fof, FofTerm};
use std::alloc::Global;
use tf_core::{Symbol, Ty};
use tf_naked::{Kind, Position};

/// A conclusion under premises.
pub fn under(alloc: Global, premises: List<Fof>, conclusion: Fof) -> Result<Fof, NoMemory>
    ensures { IfOk result (λ made. made ≡ specs.under premises conclusion) }
{
    let mut premises = premises.into_vec();
    if premises.len() > 1 {
        let all = Fof::And(List::from_vec(premises));
        return implication(alloc, all, conclusion);
    }
    match premises.pop() {
        Some(premise) => implication(alloc, premise, conclusion),
        None => Ok(conclusion),
    }
}

fn implication(alloc: Global, premise: Fof, conclusion: Fof) -> Result<Fof, NoMemory>
    ensures { IfOk result (λ made. made ≡ Fof.Implies premise conclusion) }
{
    let premise = Boxed::new(alloc, premise)?;
    Ok(Fof::Implies(premise, Boxed::new(alloc, conclusion)?))
}

// adds a type variable, where it is written
fn add_variable(made: &mut List<FofTerm>, kept: bool, i: u32, depth: u32) -> Result<(), NoMemory>
    ensures { OnOk result (made.new ≡ made.old ++ cond kept (FofTerm.Var (depth - (i + 1)) ∷ [])
        []) }
{
    if kept {
        made.push(type_variable(i, depth))?;
    }
    Ok(())
}

// those of a symbol's parameters that are written, as terms
fn own_types_kept(
    alloc: Global,
    symbol: &Symbol,
    kept: &[bool],
    depth: u32,
) -> Result<List<FofTerm>, NoMemory>
    ensures { IfOk result (λ made. (number : ℕ → ℕ) → made ≡ map (type_term number depth) (selected
        kept.now (own_types symbol.now))) }
{
    let mut made = List::new(alloc);
    for i in 0..symbol.parameters {
        add_variable(&mut made, flag_at(kept, i as usize), i, depth)?;
    }
    Ok(made)
}

impl<'a, C: Choices> Writer<'a, C> {
    // a symbol at its own parameters and at the variables of the nearest binders
    fn own_application(
        &self,
        alloc: Global,
        f: u32,
        shape: &Shape,
        depth: u32,
    ) -> Result<FofTerm, NoMemory>
        requires shape { IsShape (C.choices self.now.choices.now) self.now.types.normal.now
            (Some shape.now.symbol.now) shape.now }
        ensures exact { IfOk result (λ made. made ≡ application_in (C.choices self.now.choices.now)
            self.now.types.normal.now depth f shape.now.symbol.now) }
    {
        let mut arguments = own_types_kept(alloc, shape.symbol, shape.kept, depth)?;
        let types = shape.symbol.arguments.as_slice();
        let count = in_32_bits(types.len(), 0)?;
        for i in 0..count {
            let cover = flag_at(shape.covers, i as usize);
            let ty = &types[i as usize];
            let variable = FofTerm::Var(count - 1 - i);
            let position = Position::Argument(cover);
            arguments.push(self.typed(alloc, variable, position, Kind::Universal, ty, depth)?)?;
        }
        Ok(FofTerm::Apply(f, arguments))
    }

    // adds the premise of an argument, where there is one
    fn add_premise(
        &self,
        alloc: Global,
        made: &mut List<Fof>,
        cover: bool,
        ty: &Ty,
        variable: u32,
        depth: u32,
    ) -> Result<(), NoMemory>
        ensures { OnOk result (made.new ≡ made.old ++ cond ((C.choices self.now.choices.now).premise
            cover ty.now) (bind_in (C.choices self.now.choices.now) self.now.types.normal.now depth
            ty.now
            (FofTerm.Var variable) ∷ []) []) }
    {
        if self.choices.premise(cover, ty) {
            made.push(self.bind(alloc, FofTerm::Var(variable), ty, depth)?)?;
        }
        Ok(())
    }

    // the premises of a typing axiom, of the variables of the nearest binders
    fn premises(&self, alloc: Global, shape: &Shape, depth: u32) -> Result<List<Fof>, NoMemory>
        requires shape { IsShape (C.choices self.now.choices.now) self.now.types.normal.now
            (Some shape.now.symbol.now) shape.now }
        ensures exact { IfOk result (λ made. made ≡ premises_in (C.choices self.now.choices.now)
            self.now.types.normal.now depth shape.now.covers.now shape.now.symbol.now.arguments
            (length
            shape.now.symbol.now.arguments)) }
    {
        let mut made = List::new(alloc);
        let types = shape.symbol.arguments.as_slice();
        let count = in_32_bits(types.len(), 0)?;
        for i in 0..count {
            let cover = flag_at(shape.covers, i as usize);
            let ty = &types[i as usize];
            self.add_premise(alloc, &mut made, cover, ty, count - 1 - i, depth)?;
        }
        Ok(made)
    }

    /// The typing axiom of the f-th symbol, whose result has this type, below its quantifiers:
    /// there
    /// are as many as the symbol has parameters and arguments.
    pub fn typing_axiom(
        &self,
        alloc: Global,
        f: u32,
        shape: &Shape,
        value: &Ty,
        depth: u32,
    ) -> Result<Fof, NoMemory>
        requires shape { IsShape (C.choices self.now.choices.now) self.now.types.normal.now
            (Some shape.now.symbol.now) shape.now }
        requires depth_is { depth ≡ shape.now.symbol.now.parameters + length
            shape.now.symbol.now.arguments }
        ensures exact { IfOk result (λ made. specs.closed depth made ≡ typing_axiom_in (C.choices
            self.now.choices.now) self.now.types.normal.now f shape.now.symbol.now value.now) }
    {
        let premises = self.premises(alloc, shape, depth)?;
        let term = self.own_application(alloc, f, shape, depth)?;
        let conclusion = self.bind(alloc, term, value, depth)?;
        under(alloc, premises, conclusion)
    }

    // some element is bound to the type
    fn inhabitation(&self, alloc: Global, ty: &Ty, depth: u32) -> Result<Fof, NoMemory>
        ensures { IfOk result (λ made. made ≡ Fof.Exists (bind_in (C.choices self.now.choices.now)
            self.now.types.normal.now depth ty.now (FofTerm.Var 0))) }
    {
        let bound = self.bind(alloc, FofTerm::Var(0), ty, depth)?;
        Ok(Fof::Exists(Boxed::new(alloc, bound)?))
    }

    // each element's tagged value is bound to the type
    fn idempotence(&self, alloc: Global, ty: &Ty, depth: u32) -> Result<Fof, NoMemory>
        ensures { IfOk result (λ made. made ≡ Fof.ForAll (bind_in (C.choices self.now.choices.now)
            self.now.types.normal.now depth ty.now (tag_in (C.choices self.now.choices.now)
            self.now.types.normal.now depth ty.now (FofTerm.Var 0)))) }
    {
        let tagged = self.types.tag(alloc, FofTerm::Var(0), ty, depth)?;
        let bound = self.bind(alloc, tagged, ty, depth)?;
        Ok(Fof::ForAll(Boxed::new(alloc, bound)?))
    }

    /// The last axiom of a type, under so many binders.
    pub fn last_axiom(&self, alloc: Global, ty: &Ty, depth: u32) -> Result<Fof, NoMemory>
        ensures { IfOk result (λ made. made ≡ last_in (C.choices self.now.choices.now)
            self.now.types.normal.now depth ty.now) }
    {
        let inner = in_32_bits(depth as usize, 1)?;
        match self.choices.binding() {
            Binding::ByGuard => self.inhabitation(alloc, ty, inner),
            Binding::ByTag => self.idempotence(alloc, ty, inner),
        }
    }
}
