ghost use Rattle.std.specs.Prelude.{◌≡◌, ◌+◌, ◌∷◌, List, map, IfOk, OnOk};
ghost use Rattle.tf_core.specs.Sorts.{joined};
ghost use Rattle.tf_naked.specs.declared.position.Kind.TheVariants.{Universal};
ghost use Rattle.tf_naked.specs.declared.position.Position.TheVariants.{Side};
ghost use Rattle.tf_naked.specs.Standing.{is_naked, is_undercover};
ghost use Rattle.enc_marks.specs.Translation as specs;
ghost use Rattle.tf_naked.specs.Binders.{universal_binders};
ghost use Rattle.enc_marks.specs.Calls.Writing.{AfterReading, bare_in, bind_in, exists_in, for_all_in, formula_in, placed_in};

use crate::choices::Choices;
use crate::kinds::Kinds;
use crate::scope::Scope;
use crate::type_writer::{in_32_bits, pair};
use crate::writer::Writer;
use enc_base::{Boxed, List, NoMemory};
use fof_models::{Fof, FofTerm};
use std::alloc::Global;
use tf_core::{Nnf, Term, Ty};
use tf_naked::{Binder, Kind, Position};

// an atom or an equation with its sign
fn literal(alloc: Global, positive: bool, p: Fof) -> Result<Fof, NoMemory>
    ensures { IfOk result (λ made. made ≡ specs.literal positive p) }
{
    if positive {
        Ok(p)
    } else {
        Ok(Fof::Not(Boxed::new(alloc, p)?))
    }
}

impl<'a, C: Choices> Writer<'a, C> {
    /// A formula under so many binders. The binders that follow in the scope begin with the
    /// universal ones of the formula; they are read.
    #[cycle(formula)]
    pub fn formula(
        &self,
        alloc: Global,
        body: &Nnf,
        depth: u32,
        scope: &mut Scope,
    ) -> Result<Fof, NoMemory>
        ensures kinds { OnOk result (scope.new.kinds ≡ scope.old.kinds) }
        ensures exact { IfOk result (λ made. AfterReading (universal_binders
            self.now.types.normal.now.signature
            body.now) scope.old.ahead.now scope.new.ahead.now (made ≡ formula_in (C.choices
            self.now.choices.now) self.now.types.normal.now depth scope.old.kinds body.now)) }
    {
        match body {
            Nnf::True => Ok(Fof::True),
            Nnf::False => Ok(Fof::False),
            Nnf::Atom(positive, f, types, terms) => {
                let arguments = self.arguments(
                    alloc,
                    terms.as_slice(),
                    *f,
                    types.as_slice(),
                    depth,
                    &scope.kinds,
                )?;
                literal(alloc, *positive, Fof::Atom(*f, arguments))
            }
            Nnf::Equation(positive, ty, left, right) => {
                let left = self.side(alloc, left, *positive, ty, depth, &scope.kinds)?;
                let right = self.side(alloc, right, *positive, ty, depth, &scope.kinds)?;
                literal(alloc, *positive, Fof::Equal(left, right))
            }
            Nnf::And(parts) => {
                let parts = self.formulas(alloc, parts.as_slice(), depth, scope)?;
                Ok(Fof::And(parts))
            }
            Nnf::Or(parts) => {
                let parts = self.formulas(alloc, parts.as_slice(), depth, scope)?;
                Ok(Fof::Or(parts))
            }
            Nnf::ForAll(ty, body) => self.universal(alloc, body.get(), ty, depth, scope),
            Nnf::Exists(ty, body) => self.existential(alloc, body.get(), ty, depth, scope),
        }
    }

    #[cycle(formula)]
    fn formulas(
        &self,
        alloc: Global,
        parts: &[Nnf],
        depth: u32,
        scope: &mut Scope,
    ) -> Result<List<Fof>, NoMemory>
        ensures kinds { OnOk result (scope.new.kinds ≡ scope.old.kinds) }
        ensures exact { IfOk result (λ made. AfterReading (joined (map (universal_binders
            self.now.types.normal.now.signature) parts.now)) scope.old.ahead.now
            scope.new.ahead.now (made ≡
            map (formula_in (C.choices self.now.choices.now) self.now.types.normal.now depth
            scope.old.kinds) parts.now)) }
    {
        let mut made = List::new(alloc);
        for part in parts {
            made.push(self.formula(alloc, part, depth, scope)?)?;
        }
        Ok(made)
    }

    // a universal binder and its body
    #[cycle(formula)]
    fn universal(
        &self,
        alloc: Global,
        body: &Nnf,
        ty: &Ty,
        depth: u32,
        scope: &mut Scope,
    ) -> Result<Fof, NoMemory>
        ensures kinds { OnOk result (scope.new.kinds ≡ scope.old.kinds) }
        ensures exact { IfOk result (λ made. AfterReading (universal_binders
            self.now.types.normal.now.signature
            (Nnf.ForAll ty.now body.now)) scope.old.ahead.now scope.new.ahead.now (made ≡ formula_in
            (C.choices self.now.choices.now) self.now.types.normal.now depth scope.old.kinds
            (Nnf.ForAll
            ty.now body.now))) }
    {
        let inner = in_32_bits(depth as usize, 1)?;
        let binder = scope.next();
        scope.kinds.bind(Kind::Universal)?;
        let made = self.formula(alloc, body, inner, scope)?;
        scope.kinds.unbind();
        self.for_all(alloc, made, binder, ty, inner)
    }

    // an existential binder and its body
    #[cycle(formula)]
    fn existential(
        &self,
        alloc: Global,
        body: &Nnf,
        ty: &Ty,
        depth: u32,
        scope: &mut Scope,
    ) -> Result<Fof, NoMemory>
        ensures kinds { OnOk result (scope.new.kinds ≡ scope.old.kinds) }
        ensures exact { IfOk result (λ made. AfterReading (universal_binders
            self.now.types.normal.now.signature
            (Nnf.Exists ty.now body.now)) scope.old.ahead.now scope.new.ahead.now (made ≡ formula_in
            (C.choices self.now.choices.now) self.now.types.normal.now depth scope.old.kinds
            (Nnf.Exists
            ty.now body.now))) }
    {
        let inner = in_32_bits(depth as usize, 1)?;
        scope.kinds.bind(Kind::Existential)?;
        let made = self.formula(alloc, body, inner, scope)?;
        scope.kinds.unbind();
        self.exists(alloc, made, ty, inner)
    }

    // a side of an equation
    fn side(
        &self,
        alloc: Global,
        term: &Term,
        positive: bool,
        ty: &Ty,
        depth: u32,
        kinds: &Kinds,
    ) -> Result<FofTerm, NoMemory>
        ensures { IfOk result (λ made. made ≡ placed_in (C.choices self.now.choices.now)
            self.now.types.normal.now depth (Side positive) ty.now (bare_in (C.choices
            self.now.choices.now) self.now.types.normal.now depth kinds.now term.now)) }
    {
        let kind = kinds.kind_of(term);
        let made = self.term(alloc, term, depth, kinds)?;
        self.typed(alloc, made, Position::Side(positive), kind, ty, depth)
    }

    /// The formula that binds a term to a type.
    pub fn bind(&self, alloc: Global, term: FofTerm, ty: &Ty, depth: u32) -> Result<Fof, NoMemory>
        ensures { IfOk result (λ made. made ≡ bind_in (C.choices self.now.choices.now)
            self.now.types.normal.now depth ty.now term) }
    {
        let binding = self.choices.binding();
        self.types.bind(alloc, binding, term, ty, depth)
    }

    // a universal binder round a body
    fn for_all(
        &self,
        alloc: Global,
        made: Fof,
        binder: Binder,
        ty: &Ty,
        depth: u32,
    ) -> Result<Fof, NoMemory>
        ensures { IfOk result (λ p. p ≡ for_all_in (C.choices self.now.choices.now)
            self.now.types.normal.now depth binder.undercover binder.naked ty.now made) }
    {
        if self.choices.universal(binder.undercover, binder.naked, ty) {
            let premise = self.bind(alloc, FofTerm::Var(0), ty, depth)?;
            let implied = Fof::Implies(Boxed::new(alloc, premise)?, Boxed::new(alloc, made)?);
            Ok(Fof::ForAll(Boxed::new(alloc, implied)?))
        } else {
            Ok(Fof::ForAll(Boxed::new(alloc, made)?))
        }
    }

    // an existential binder round a body
    fn exists(&self, alloc: Global, made: Fof, ty: &Ty, depth: u32) -> Result<Fof, NoMemory>
        ensures { IfOk result (λ p. p ≡ exists_in (C.choices self.now.choices.now)
            self.now.types.normal.now depth ty.now made) }
    {
        if self.choices.existential(ty) {
            let bound = self.bind(alloc, FofTerm::Var(0), ty, depth)?;
            let both = Fof::And(pair(alloc, bound, made)?);
            Ok(Fof::Exists(Boxed::new(alloc, both)?))
        } else {
            Ok(Fof::Exists(Boxed::new(alloc, made)?))
        }
    }
}
