ghost use Rattle.std.specs.Prelude.{◌≡◌, ◌+◌, ◌-◌, ◌∷◌, [], map, get_or, IfOk};
ghost use Rattle.std.specs.Coded.{Coded-set, codes};
ghost use Rattle.tf_core.specs.contracts.ty.Ty as known;
ghost use Rattle.tf_core.specs.declared.ty.Ty.TheVariants.{Var};
ghost use Rattle.tf_core.specs.Sorts.{sorts};
ghost use Rattle.tf_core.specs.Types.{instantiate};
ghost use Rattle.enc_marks.specs.Encoded.{all_numbers};
ghost use Rattle.enc_marks.specs.Translation as specs;
ghost use Rattle.enc_marks.specs.Calls.Slots.{AreMarks, listed, mark_number, marked_terms, marking_of};
ghost use Rattle.enc_marks.specs.Calls.Writing.{type_term_in};

use crate::choices::Binding;
use crate::type_marks::Marks;
use enc_base::{Boxed, List, NoMemory};
use fof_models::{Fof, FofTerm};
use std::alloc::Global;
use tf_core::{Normal, Ty};

/// Writes types as terms, and their guards or tags. The symbols have the numbers of all marked
/// symbols, whether they occur or not.
#[derive(Clone, Copy)]
pub struct TypeWriter<'a> {
    pub normal: &'a Normal,
    pub marks: Marks<'a>,
    ghost marks_are: { AreMarks normal.now marks } by { Coded-set (Prim.hlevel (
      codes,
      known.the_row.coded,
    )) (listed normal.now marks) (sorts normal.now) },
}

/// A sum of counts. One beyond 32 bits, which no sound problem has, is taken for want of memory.
pub fn in_32_bits(a: usize, b: usize) -> Result<u32, NoMemory>
    ensures { IfOk result (λ sum. sum ≡ a + b) }
{
    match a.checked_add(b) {
        Some(sum) => {
            if sum <= u32::MAX as usize {
                Ok(sum as u32)
            } else {
                Err(NoMemory)
            }
        }
        None => Err(NoMemory),
    }
}

/// A type variable under so many binders.
pub fn type_variable(i: u32, depth: u32) -> FofTerm
    ensures { result ≡ FofTerm.Var (depth - (i + 1)) }
{
    FofTerm::Var(depth.saturating_sub(i).saturating_sub(1))
}

// a list of one
fn single<T: Drop>(alloc: Global, item: T) -> Result<List<T>, NoMemory>
    ensures { IfOk result (λ items. items ≡ item ∷ []) }
{
    let mut items = List::new(alloc);
    items.push(item)?;
    Ok(items)
}

/// A list of two.
pub fn pair<T: Drop>(alloc: Global, first: T, second: T) -> Result<List<T>, NoMemory>
    ensures { IfOk result (λ items. items ≡ first ∷ second ∷ []) }
{
    let mut items = List::new(alloc);
    items.push(first)?;
    items.push(second)?;
    Ok(items)
}

impl<'a> TypeWriter<'a> {
    // the number of a constructor's function
    fn constructor(&self, c: u32) -> Result<u32, NoMemory>
        ensures { IfOk result (λ number. number ≡ (all_numbers self.now.normal.now).constructor c) }
    {
        in_32_bits(self.normal.signature.symbols.as_slice().len(), c as usize)
    }

    /// The number of the guard or the tag.
    pub fn shared(&self) -> Result<u32, NoMemory>
        ensures { IfOk result (λ number. number ≡ (all_numbers self.now.normal.now).shared) }
    {
        let symbols = self.normal.signature.symbols.as_slice().len();
        in_32_bits(symbols, self.normal.signature.constructors.as_slice().len())
    }

    /// A type as a term.
    #[cycle(type_term)]
    pub fn type_term(&self, alloc: Global, ty: &Ty, depth: u32) -> Result<FofTerm, NoMemory>
        ensures { IfOk result (λ t. t ≡ type_term_in self.now.normal.now depth ty.now) }
    {
        match ty {
            Ty::Var(i) => Ok(type_variable(*i, depth)),
            Ty::Apply(c, types) => {
                let number = self.constructor(*c)?;
                let terms = self.type_terms(alloc, types.as_slice(), depth)?;
                Ok(FofTerm::Apply(number, terms))
            }
        }
    }

    // types as terms
    #[cycle(type_term)]
    fn type_terms(&self, alloc: Global, types: &[Ty], depth: u32) -> Result<List<FofTerm>, NoMemory>
        ensures { IfOk result (λ terms. terms ≡ map (type_term_in self.now.normal.now depth)
            types.now) }
    {
        let mut terms = List::new(alloc);
        for ty in types {
            terms.push(self.type_term(alloc, ty, depth)?)?;
        }
        Ok(terms)
    }

    /// An instance of a type as a term. The instance isn't made.
    #[cycle(instance)]
    pub fn instance(
        &self,
        alloc: Global,
        ty: &Ty,
        types: &[Ty],
        depth: u32,
    ) -> Result<FofTerm, NoMemory>
        ensures { IfOk result (λ t. t ≡ type_term_in self.now.normal.now depth (instantiate
            types.now
            ty.now)) }
    {
        match ty {
            Ty::Var(i) => self.given(alloc, *i, types, depth),
            Ty::Apply(c, arguments) => {
                let number = self.constructor(*c)?;
                let terms = self.instances(alloc, arguments.as_slice(), types, depth)?;
                Ok(FofTerm::Apply(number, terms))
            }
        }
    }

    #[cycle(instance)]
    fn instances(
        &self,
        alloc: Global,
        arguments: &[Ty],
        types: &[Ty],
        depth: u32,
    ) -> Result<List<FofTerm>, NoMemory>
        ensures { IfOk result (λ terms. terms ≡ map (type_term_in self.now.normal.now depth) (map
            (instantiate types.now) arguments.now)) }
    {
        let mut terms = List::new(alloc);
        for ty in arguments {
            terms.push(self.instance(alloc, ty, types, depth)?)?;
        }
        Ok(terms)
    }

    // the type that is given for a variable, as a term
    fn given(&self, alloc: Global, i: u32, types: &[Ty], depth: u32) -> Result<FofTerm, NoMemory>
        ensures { IfOk result (λ t. t ≡ type_term_in self.now.normal.now depth (get_or types.now i
            (Var
            i))) }
    {
        match types.get(i as usize) {
            Some(ty) => self.type_term(alloc, ty, depth),
            None => Ok(type_variable(i, depth)),
        }
    }

    /// The number of the guard or tag of a type.
    pub fn mark(&self, ty: &Ty) -> Result<u32, NoMemory>
        ensures { IfOk result (λ number. number ≡ mark_number (marking_of self.now.marks)
            (all_numbers self.now.normal.now) ty.now) }
    {
        match self.marks {
            Marks::Shared => self.shared(),
            Marks::Sorts(table) => in_32_bits(self.shared()? as usize, table.place(ty)),
        }
    }

    // what the guard or tag of a type is applied to
    fn marked(
        &self,
        alloc: Global,
        term: FofTerm,
        ty: &Ty,
        depth: u32,
    ) -> Result<List<FofTerm>, NoMemory>
        ensures { IfOk result (λ terms. terms ≡ marked_terms (marking_of self.now.marks)
            self.now.normal.now depth ty.now term) }
    {
        match self.marks {
            Marks::Shared => pair(alloc, self.type_term(alloc, ty, depth)?, term),
            Marks::Sorts(_) => single(alloc, term),
        }
    }

    /// A term with the tag of its type.
    pub fn tag(
        &self,
        alloc: Global,
        term: FofTerm,
        ty: &Ty,
        depth: u32,
    ) -> Result<FofTerm, NoMemory>
        ensures { IfOk result (λ made. made ≡ specs.tag_by (marking_of self.now.marks) (all_numbers
            self.now.normal.now) depth ty.now term) }
    {
        let number = self.mark(ty)?;
        Ok(FofTerm::Apply(number, self.marked(alloc, term, ty, depth)?))
    }

    /// A term with the tag of this number, which is that of an instance of a type. The instance
    /// isn't made.
    pub fn tag_instance(
        &self,
        alloc: Global,
        term: FofTerm,
        number: u32,
        ty: &Ty,
        types: &[Ty],
        depth: u32,
    ) -> Result<FofTerm, NoMemory>
        ensures { IfOk result (λ made. number ≡ mark_number (marking_of self.now.marks) (all_numbers
            self.now.normal.now) (instantiate types.now ty.now) → made ≡ specs.tag_by (marking_of self.now.marks)
            (all_numbers self.now.normal.now) depth (instantiate types.now ty.now) term) }
    {
        let terms = match self.marks {
            Marks::Shared => pair(alloc, self.instance(alloc, ty, types, depth)?, term)?,
            Marks::Sorts(_) => single(alloc, term)?,
        };
        Ok(FofTerm::Apply(number, terms))
    }

    // the guard of a term
    fn guard(&self, alloc: Global, term: FofTerm, ty: &Ty, depth: u32) -> Result<Fof, NoMemory>
        ensures { IfOk result (λ made. made ≡ specs.guard_by (marking_of self.now.marks)
            (all_numbers self.now.normal.now) depth ty.now term) }
    {
        let number = self.mark(ty)?;
        Ok(Fof::Atom(number, self.marked(alloc, term, ty, depth)?))
    }

    // the equation of a term with its tag and of the term
    fn fixed(&self, alloc: Global, term: FofTerm, ty: &Ty, depth: u32) -> Result<Fof, NoMemory>
        ensures { IfOk result (λ made. made ≡ Fof.Equal (specs.tag_by (marking_of self.now.marks)
            (all_numbers self.now.normal.now) depth ty.now term) term) }
    {
        let same = term.copy(alloc)?;
        Ok(Fof::Equal(self.tag(alloc, same, ty, depth)?, term))
    }

    /// The formula that binds a term to a type.
    pub fn bind(
        &self,
        alloc: Global,
        binding: Binding,
        term: FofTerm,
        ty: &Ty,
        depth: u32,
    ) -> Result<Fof, NoMemory>
        ensures { IfOk result (λ made. made ≡ specs.bind_by binding (marking_of self.now.marks)
            (all_numbers self.now.normal.now) depth ty.now term) }
    {
        match binding {
            Binding::ByGuard => self.guard(alloc, term, ty, depth),
            Binding::ByTag => self.fixed(alloc, term, ty, depth),
        }
    }
}
