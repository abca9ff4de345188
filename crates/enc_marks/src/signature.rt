ghost use Rattle.std.specs.Prelude.{◌≡◌, ◌+◌, ◌∷◌, [], cond, ℕ, length, slice_get, Some, IfOk, OnOk};
ghost use Rattle.enc_marks.specs.Choices.{Choices};
ghost use Rattle.enc_marks.specs.Encoded as specs;
ghost use Rattle.enc_marks.specs.Calls.Flags.{is_set};
ghost use Rattle.enc_marks.specs.Calls.Marked.{Holds, MarksAdded};
ghost use Rattle.enc_marks.specs.Calls.Slots.{marking_of};
ghost use Rattle.tf_core.specs.declared.normal.Normal.{Normal};
ghost use Rattle.enc_marks.specs.Names.{wanted_constructor, wanted_mark};
ghost use Rattle.enc_marks.specs.Occurrence.{passing};
ghost use Rattle.enc_marks.specs.Calls.Writing.{IsShape, marked_in};

use crate::choices::{Binding, Choices};
use crate::flags::Occurring;
use crate::mark::Mark;
use crate::marked::Marked;
use crate::shape::Shape;
use crate::tables::count_raised;
use crate::type_marks::Marks;
use crate::type_writer::{TypeWriter, in_32_bits};
use crate::writer::Writer;
use enc_base::{List, Name, NoMemory};
use fof_models::FofSymbol;
use std::alloc::Global;
use tf_core::{Constructor, Normal, Ty};

/// What a constructor wants to be called.
pub fn constructor_name(
    alloc: Global,
    normal: &Normal,
    i: usize,
    constructor: &Constructor,
) -> Result<Name, NoMemory>
    ensures { IfOk result (λ name. name ≡ wanted_constructor normal.now i constructor.now.name) }
{
    if i == 0 {
        return Name::from_slice(alloc, b"ty_i");
    }
    let constructors = normal.signature.constructors.as_slice().len();
    let first = constructors.saturating_sub(normal.fresh as usize);
    if i < first {
        return constructor.name.copy(alloc);
    }
    let variable = i - first;
    let name = format!(in alloc; "fresh_{variable}")?;
    Name::from_slice(alloc, name.as_bytes())
}

impl Marked {
    fn new(alloc: Global) -> Marked
        ensures { Holds result [] }
    {
        Marked {
            symbols: List::new(alloc),
            marks: List::new(alloc),
        }
    }

    fn push(&mut self, mark: Mark, symbol: FofSymbol) -> Result<(), NoMemory>
        ensures { OnOk result (MarksAdded self.old self.new (record {
          mark = mark;
          symbol = symbol;
        } ∷
            [])) }
    {
        self.symbols.push(symbol)?;
        self.marks.push(mark)
    }
}

// a source symbol, as a symbol of the untyped problem
fn symbol_of(alloc: Global, shape: &Shape) -> Result<FofSymbol, NoMemory>
    ensures { IfOk result (λ made. (c : Choices) (normal : Normal) →
        IsShape c normal (Some shape.now.symbol.now) shape.now → (f : ℕ) →
        made ≡ (specs.marked_symbol c f shape.now.symbol.now).symbol) }
{
    let count = shape.symbol.arguments.as_slice().len();
    Ok(FofSymbol {
        wanted: shape.symbol.name.copy(alloc)?,
        arity: in_32_bits(count_raised(shape.kept), count)?,
        predicate: shape.symbol.result.is_none(),
    })
}

// what the guard or tag of all types is called, and how the names of those of sorts begin
fn mark_word(binding: Binding) -> &'static str
    ensures { result.now ≡ wanted_mark binding }
{
    match binding {
        Binding::ByGuard => "is",
        Binding::ByTag => "as",
    }
}

fn is_guard(binding: Binding) -> bool
    ensures { result ≡ specs.is_guard binding }
{
    match binding {
        Binding::ByGuard => true,
        Binding::ByTag => false,
    }
}

// the guard or tag of all types
fn shared_of(alloc: Global, binding: Binding) -> Result<FofSymbol, NoMemory>
    ensures { IfOk result (λ made. made ≡ (specs.shared_mark binding).symbol) }
{
    Ok(FofSymbol {
        wanted: Name::from_slice(alloc, mark_word(binding).as_bytes())?,
        arity: 2,
        predicate: is_guard(binding),
    })
}

fn mark_of(binding: Binding) -> Mark
    ensures { result ≡ specs.mark_of binding }
{
    match binding {
        Binding::ByGuard => Mark::Guard,
        Binding::ByTag => Mark::Tag,
    }
}

fn sort_mark_of(binding: Binding, s: u32) -> Mark
    ensures { result ≡ specs.sort_mark_of binding s }
{
    match binding {
        Binding::ByGuard => Mark::SortGuard(s),
        Binding::ByTag => Mark::SortTag(s),
    }
}

impl<'a> TypeWriter<'a> {
    fn add_constructor(
        &self,
        alloc: Global,
        marked: &mut Marked,
        occurs: bool,
        i: usize,
        constructor: &Constructor,
    ) -> Result<(), NoMemory>
        ensures { OnOk result (MarksAdded marked.old marked.new (cond occurs
            (specs.marked_constructor
            self.now.normal.now i constructor.now ∷ []) [])) }
    {
        if !occurs {
            return Ok(());
        }
        let mark = Mark::Constructor(in_32_bits(i, 0)?);
        let made = FofSymbol {
            wanted: constructor_name(alloc, self.normal, i, constructor)?,
            arity: constructor.arity,
            predicate: false,
        };
        marked.push(mark, made)
    }

    /// Adds the constructors that occur.
    pub fn add_constructors(
        &self,
        alloc: Global,
        marked: &mut Marked,
        occurring: &Occurring,
    ) -> Result<(), NoMemory>
        ensures { OnOk result (MarksAdded marked.old marked.new (passing (is_set occurring.now)
            (length
            self.now.normal.now.signature.symbols) (specs.marked_constructors self.now.normal.now 0
            self.now.normal.now.signature.constructors))) }
    {
        let constructors = self.normal.signature.constructors.as_slice();
        let first = self.normal.signature.symbols.as_slice().len();
        for (i, constructor) in constructors.iter().enumerate() {
            let at = in_32_bits(first, i)? as usize;
            self.add_constructor(alloc, marked, occurring.has(at), i, constructor)?;
        }
        Ok(())
    }

    // adds the guard or tag of all types, where it occurs
    fn add_shared(
        &self,
        alloc: Global,
        marked: &mut Marked,
        occurring: &Occurring,
        binding: Binding,
    ) -> Result<(), NoMemory>
        ensures { OnOk result (MarksAdded marked.old marked.new (passing (is_set occurring.now)
            (length
            self.now.normal.now.signature.symbols + length
            self.now.normal.now.signature.constructors)
            (specs.shared_mark binding ∷ []))) }
    {
        if !occurring.has(self.shared()? as usize) {
            return Ok(());
        }
        marked.push(mark_of(binding), shared_of(alloc, binding)?)
    }

    // adds the guard or tag of the s-th sort, where it occurs
    fn add_sort_mark(
        &self,
        alloc: Global,
        marked: &mut Marked,
        occurs: bool,
        binding: Binding,
        s: usize,
        sort: &Ty,
    ) -> Result<(), NoMemory>
        ensures { OnOk result (MarksAdded marked.old marked.new (cond occurs (specs.sort_mark
            self.now.normal.now binding s sort.now ∷ []) [])) }
    {
        if !occurs {
            return Ok(());
        }
        let mark = sort_mark_of(binding, in_32_bits(s, 0)?);
        let made = FofSymbol {
            wanted: self.name_of_sort(alloc, mark_word(binding).as_bytes(), sort)?,
            arity: 1,
            predicate: is_guard(binding),
        };
        marked.push(mark, made)
    }

    // adds those of sorts that occur
    fn add_sort_marks(
        &self,
        alloc: Global,
        marked: &mut Marked,
        occurring: &Occurring,
        binding: Binding,
        sorts: &[Ty],
    ) -> Result<(), NoMemory>
        ensures { OnOk result (MarksAdded marked.old marked.new (passing (is_set occurring.now)
            (length
            self.now.normal.now.signature.symbols + length
            self.now.normal.now.signature.constructors)
            (specs.sort_marks self.now.normal.now binding 0 sorts.now))) }
    {
        let first = self.shared()? as usize;
        for (s, sort) in sorts.iter().enumerate() {
            let at = in_32_bits(first, s)? as usize;
            self.add_sort_mark(alloc, marked, occurring.has(at), binding, s, sort)?;
        }
        Ok(())
    }

    /// Adds the guards or tags that occur.
    pub fn add_own(
        &self,
        alloc: Global,
        marked: &mut Marked,
        occurring: &Occurring,
        binding: Binding,
    ) -> Result<(), NoMemory>
        ensures { OnOk result (MarksAdded marked.old marked.new (passing (is_set occurring.now)
            (length
            self.now.normal.now.signature.symbols + length
            self.now.normal.now.signature.constructors)
            (specs.own_marks self.now.normal.now binding (marking_of self.now.marks)))) }
    {
        match self.marks {
            Marks::Shared => self.add_shared(alloc, marked, occurring, binding),
            Marks::Sorts(table) => {
                self.add_sort_marks(alloc, marked, occurring, binding, table.as_slice())
            }
        }
    }
}

impl<'a, C: Choices> Writer<'a, C> {
    // adds the f-th symbol, where it occurs
    fn add_symbol(
        &self,
        alloc: Global,
        marked: &mut Marked,
        occurring: &Occurring,
        f: u32,
    ) -> Result<(), NoMemory>
        ensures { OnOk result (MarksAdded marked.old marked.new (passing (is_set occurring.now) f
            (marked_in (C.choices self.now.choices.now) f (slice_get
            self.now.types.normal.now.signature.symbols f)))) }
    {
        let Some(shape) = self.shape(f) else {
            return Ok(());
        };
        if !occurring.has(f as usize) {
            return Ok(());
        }
        marked.push(Mark::Symbol(f), symbol_of(alloc, &shape)?)
    }

    fn add_symbols(
        &self,
        alloc: Global,
        marked: &mut Marked,
        occurring: &Occurring,
    ) -> Result<(), NoMemory>
        ensures { OnOk result (MarksAdded marked.old marked.new (passing (is_set occurring.now) 0
            (specs.marked_symbols (C.choices self.now.choices.now) 0
            self.now.types.normal.now.signature.symbols))) }
    {
        let count = in_32_bits(self.types.normal.signature.symbols.as_slice().len(), 0)?;
        for f in 0..count {
            self.add_symbol(alloc, marked, occurring, f)?;
        }
        Ok(())
    }

    /// The marked symbols that occur, and what they stand for.
    pub fn marked(&self, alloc: Global, occurring: &Occurring) -> Result<Marked, NoMemory>
        ensures { IfOk result (λ marked. Holds marked (passing (is_set occurring.now) 0
            (specs.all_marks
            (C.choices self.now.choices.now) self.now.types.normal.now))) }
    {
        let mut marked = Marked::new(alloc);
        self.add_symbols(alloc, &mut marked, occurring)?;
        self.types.add_constructors(alloc, &mut marked, occurring)?;
        let binding = self.choices.binding();
        self.types.add_own(alloc, &mut marked, occurring, binding)?;
        Ok(marked)
    }
}
