ghost use Rattle.std.specs.Prelude.{◌≡◌, ◌++◌, ◌∷◌, [], List, slice_get, IfOk, OnOk, Some};
ghost use Rattle.fof_models.specs.declared.formula.Fof.TheVariants.{ForAll};
ghost use Rattle.tf_core.specs.declared.ty.Ty.TheVariants.{Var};
ghost use Rattle.enc_marks.specs.Axioms.{typing_axiom};
ghost use Rattle.enc_marks.specs.Encoded as specs;
ghost use Rattle.enc_marks.specs.Encoded.{axiom_named, role_of};
ghost use Rattle.enc_marks.specs.Names.{last_name, sort_last_name, typing_name};
ghost use Rattle.enc_marks.specs.Calls.Closures.{closure_of, closures};
ghost use Rattle.enc_marks.specs.Calls.Writing.{IsShape, last_in, typing_axiom_in, typing_in};

use crate::choices::{Binding, Choices};
use crate::kinds::Kinds;
use crate::open_formula::OpenFormula;
use crate::scope::Scope;
use crate::shape::Shape;
use crate::type_marks::Marks;
use crate::type_writer::in_32_bits;
use crate::writer::Writer;
use enc_base::{List, Name, NoMemory};
use fof_models::FofRole;
use std::alloc::Global;
use tf_core::{NormalFormula, Ty};
use tf_naked::universal_binders;

/// A name behind another.
pub fn joined(alloc: Global, first: &[u8], second: &[u8]) -> Result<Name, NoMemory>
    ensures { IfOk result (λ name. name ≡ first.now ++ second.now) }
{
    let mut bytes = Vec::new(alloc);
    bytes.extend_from_slice(first)?;
    bytes.extend_from_slice(second)?;
    Name::from_slice(alloc, bytes.as_slice())
}

fn role(negated: bool) -> FofRole
    ensures { result ≡ role_of negated }
{
    if negated {
        FofRole::NegatedConjecture
    } else {
        FofRole::Axiom
    }
}

// what the last axiom is called
fn axiom_name(binding: Binding) -> &'static str
    ensures { result.now ≡ last_name binding }
{
    match binding {
        Binding::ByGuard => "inhabitation",
        Binding::ByTag => "tag_idempotence",
    }
}

impl<'a, C: Choices> Writer<'a, C> {
    fn stated(&self, alloc: Global, formula: &NormalFormula) -> Result<OpenFormula, NoMemory>
        ensures { IfOk result (λ made. closure_of made ≡ specs.stated (C.choices
            self.now.choices.now)
            self.now.types.normal.now formula.now) }
    {
        let signature = &self.types.normal.signature;
        let binders = universal_binders(alloc, signature, self.covers, &formula.body)?;
        let mut scope = Scope {
            kinds: Kinds::new(alloc),
            ahead: binders.as_slice(),
        };
        let body = self.formula(alloc, &formula.body, formula.type_variables, &mut scope)?;
        Ok(OpenFormula {
            name: formula.name.copy(alloc)?,
            role: role(formula.negated),
            binders: formula.type_variables,
            body,
        })
    }

    fn typing(
        &self,
        alloc: Global,
        f: u32,
        shape: &Shape,
        value: &Ty,
    ) -> Result<OpenFormula, NoMemory>
        requires shape { IsShape (C.choices self.now.choices.now) self.now.types.normal.now
            (Some shape.now.symbol.now) shape.now }
        ensures exact { IfOk result (λ made. closure_of made ≡ axiom_named (typing_name
            shape.now.symbol.now.name) (typing_axiom_in (C.choices self.now.choices.now)
            self.now.types.normal.now f shape.now.symbol.now value.now)) }
    {
        let count = shape.symbol.arguments.as_slice().len();
        let binders = in_32_bits(shape.symbol.parameters as usize, count)?;
        Ok(OpenFormula {
            name: joined(alloc, b"typing_", shape.symbol.name.as_slice())?,
            role: FofRole::Axiom,
            binders,
            body: self.typing_axiom(alloc, f, shape, value, binders)?,
        })
    }

    // adds the typing axiom of a function with this result type, where it has one
    fn add_typing_of(
        &self,
        alloc: Global,
        made: &mut List<OpenFormula>,
        f: u32,
        shape: &Shape,
        value: &Ty,
    ) -> Result<(), NoMemory>
        requires shape { IsShape (C.choices self.now.choices.now) self.now.types.normal.now
            (Some shape.now.symbol.now) shape.now }
        ensures exact { OnOk result (closures made.new ≡ closures made.old ++ specs.typing_of
            (C.choices
            self.now.choices.now) self.now.types.normal.now f shape.now.symbol.now (Some
            value.now)) }
    {
        if self.choices.typing(value) {
            made.push(self.typing(alloc, f, shape, value)?)?;
        }
        Ok(())
    }

    // adds the typing axiom of the f-th symbol, where it has one
    fn add_typing(
        &self,
        alloc: Global,
        made: &mut List<OpenFormula>,
        f: u32,
    ) -> Result<(), NoMemory>
        ensures { OnOk result (closures made.new ≡ closures made.old ++ typing_in (C.choices
            self.now.choices.now) self.now.types.normal.now f (slice_get
            self.now.types.normal.now.signature.symbols f)) }
    {
        let Some(shape) = self.shape(f) else {
            return Ok(());
        };
        match &shape.symbol.result {
            Some(value) => self.add_typing_of(alloc, made, f, &shape, value),
            None => Ok(()),
        }
    }

    fn add_typings(&self, alloc: Global, made: &mut List<OpenFormula>) -> Result<(), NoMemory>
        ensures { OnOk result (closures made.new ≡ closures made.old ++ specs.typing_axioms
            (C.choices
            self.now.choices.now) self.now.types.normal.now 0
            self.now.types.normal.now.signature.symbols) }
    {
        let count = in_32_bits(self.types.normal.signature.symbols.as_slice().len(), 0)?;
        for f in 0..count {
            self.add_typing(alloc, made, f)?;
        }
        Ok(())
    }

    // the last axiom of all types
    fn last_of_types(&self, alloc: Global) -> Result<OpenFormula, NoMemory>
        ensures { IfOk result (λ made. closure_of made ≡ axiom_named (last_name (C.choices
            self.now.choices.now).binding) (ForAll (last_in (C.choices self.now.choices.now)
            self.now.types.normal.now 1 (Var 0)))) }
    {
        let name = axiom_name(self.choices.binding());
        Ok(OpenFormula {
            name: Name::from_slice(alloc, name.as_bytes())?,
            role: FofRole::Axiom,
            binders: 1,
            body: self.last_axiom(alloc, &Ty::Var(0), 1)?,
        })
    }

    // adds it, where there is one
    fn add_last_of_types(&self, alloc: Global, made: &mut List<OpenFormula>) -> Result<(), NoMemory>
        ensures { OnOk result (closures made.new ≡ closures made.old ++ specs.type_axioms (C.choices
            self.now.choices.now) self.now.types.normal.now) }
    {
        if self.choices.last(&Ty::Var(0)) {
            made.push(self.last_of_types(alloc)?)?;
        }
        Ok(())
    }

    // the last axiom of a sort
    fn last_of_sort(&self, alloc: Global, sort: &Ty) -> Result<OpenFormula, NoMemory>
        ensures { IfOk result (λ made. closure_of made ≡ axiom_named (sort_last_name
            self.now.types.normal.now (C.choices self.now.choices.now).binding sort.now) (last_in
            (C.choices self.now.choices.now) self.now.types.normal.now 0 sort.now)) }
    {
        let name = axiom_name(self.choices.binding());
        Ok(OpenFormula {
            name: self.types.name_of_sort(alloc, name.as_bytes(), sort)?,
            role: FofRole::Axiom,
            binders: 0,
            body: self.last_axiom(alloc, sort, 0)?,
        })
    }

    // adds it, where there is one
    fn add_last_of_sort(
        &self,
        alloc: Global,
        made: &mut List<OpenFormula>,
        sort: &Ty,
    ) -> Result<(), NoMemory>
        ensures { OnOk result (closures made.new ≡ closures made.old ++ specs.sort_axioms (C.choices
            self.now.choices.now) self.now.types.normal.now (sort.now ∷ [])) }
    {
        if self.choices.last(sort) {
            made.push(self.last_of_sort(alloc, sort)?)?;
        }
        Ok(())
    }

    // adds those of sorts
    fn add_last_of_sorts(
        &self,
        alloc: Global,
        made: &mut List<OpenFormula>,
        sorts: &[Ty],
    ) -> Result<(), NoMemory>
        ensures { OnOk result (closures made.new ≡ closures made.old ++ specs.sort_axioms (C.choices
            self.now.choices.now) self.now.types.normal.now sorts.now) }
    {
        for sort in sorts {
            self.add_last_of_sort(alloc, made, sort)?;
        }
        Ok(())
    }

    // adds the last axioms
    fn add_last(&self, alloc: Global, made: &mut List<OpenFormula>) -> Result<(), NoMemory>
        ensures { OnOk result (closures made.new ≡ closures made.old ++ specs.last_axioms (C.choices
            self.now.choices.now) self.now.types.normal.now (C.choices
            self.now.choices.now).marking) }
    {
        match self.types.marks {
            Marks::Shared => self.add_last_of_types(alloc, made),
            Marks::Sorts(table) => self.add_last_of_sorts(alloc, made, table.as_slice()),
        }
    }

    /// The formulas, the typing axioms and the last axioms, each below its outermost quantifiers.
    pub fn translation(&self, alloc: Global) -> Result<List<OpenFormula>, NoMemory>
        ensures { IfOk result (λ made. closures made ≡ specs.translation (C.choices
            self.now.choices.now) self.now.types.normal.now) }
    {
        let mut made = List::new(alloc);
        for formula in self.types.normal.formulas.as_slice() {
            made.push(self.stated(alloc, formula)?)?;
        }
        self.add_typings(alloc, &mut made)?;
        self.add_last(alloc, &mut made)?;
        Ok(made)
    }
}
