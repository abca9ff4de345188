//! The constructors and symbols of a signature, found by the names of items.
#![tactic(auto)]

ghost use Rattle.std.specs.Prelude.{◌≡◌, false, length, map, slice_get, Some, IfOk, OnOk};
ghost use Rattle.fof_text.specs.Names.{AllDiffer};
ghost use Rattle.tf_core.specs.Typing.{IsSignature};
ghost use Rattle.model_tables.specs.Grammar.{Table};
ghost use Rattle.model_tables.specs.declared.form.Kind.TheVariants as kind;
ghost use Rattle.model_tables.specs.Faults.{missing_faults, name_faults};
ghost use Rattle.model_tables.specs.Typed.{typed};
ghost use Rattle.model_tables.specs.Writable as writable;
ghost use Rattle.model_tables.specs.Held.{texts_of};
ghost use Rattle.model_tables.specs.Checks.{Checks};
ghost use Rattle.model_tables.specs.Marks.{first_unmarked, missing_among};
ghost use Rattle.model_tables.specs.ReadTyped.{AreKnown, IsPart, IsSaid};

use crate::checks::{check_known, check_missing, check_new};
use crate::error::TableError;
use crate::index::Index;
use crate::partial::Partial;
use enc_base::NoMemory;
use std::alloc::Global;
use tf_core::{Constructor, Signature, Symbol};

/// A signature with its constructors and symbols found by their names.
#[derive(Drop)]
pub struct Known<'a> {
    pub signature: &'a Signature,
    pub constructors: Index<'a>,
    pub symbols: Index<'a>,
}

/// The names of constructors.
fn constructor_names(alloc: Global, constructors: &[Constructor]) -> Result<Vec<&[u8]>, NoMemory>
    ensures { IfOk result (λ names. texts_of names.items ≡ map (λ c. c.name) constructors.now) }
{
    let mut names: Vec<&[u8]> = Vec::new(alloc);
    for constructor in constructors {
        names.push(constructor.name.as_slice())?;
    }
    Ok(names)
}

/// The names of symbols.
fn symbol_names(alloc: Global, symbols: &[Symbol]) -> Result<Vec<&[u8]>, NoMemory>
    ensures { IfOk result (λ names. texts_of names.items ≡ map (λ f. f.name) symbols.now) }
{
    let mut names: Vec<&[u8]> = Vec::new(alloc);
    for symbol in symbols {
        names.push(symbol.name.as_slice())?;
    }
    Ok(names)
}

impl<'a> Known<'a> {
    pub fn new(alloc: Global, signature: &'a Signature) -> Result<Known<'a>, NoMemory>
        requires typed { IsSignature signature.now }
        requires constructors_differ { AllDiffer (writable.constructor_names signature.now) }
        requires symbols_differ { AllDiffer (writable.symbol_names signature.now) }
        ensures same { IfOk result (λ known. known.signature.now ≡ signature.now) }
        ensures known { IfOk result (λ known. AreKnown known) }
    {
        let constructors = constructor_names(alloc, signature.constructors.as_slice())?;
        let symbols = symbol_names(alloc, signature.symbols.as_slice())?;
        Ok(Known {
            signature,
            constructors: Index::new(alloc, constructors)?,
            symbols: Index::new(alloc, symbols)?,
        })
    }

    /// The number of the constructor that has an item's name, unless the item may not stand there.
    pub fn constructor(
        &self,
        alloc: Global,
        part: &Partial,
        name: &[u8],
    ) -> Result<usize, TableError>
        requires known { AreKnown self.now }
        requires part { IsPart self.now.signature.now part.now }
        ensures checks { (before : Table) → IsSaid self.now.signature.now before part.now → Checks (name_faults (typed self.now.signature.now).wants before.items kind.Constructor name.now) result }
        ensures found { IfOk result (λ at. slice_get (writable.constructor_names self.now.signature.now) at ≡ Some name.now) }
        ensures new { IfOk result (λ at. slice_get part.now.constructors at ≡ Some false) }
    {
        let at = check_known(alloc, self.constructors.find(name), name)?;
        check_new(alloc, part.constructors.has(at), name)?;
        Ok(at)
    }

    /// Checks that no constructor is missing.
    fn check_constructors(&self, alloc: Global, part: &Partial) -> Result<(), TableError>
        requires { length part.now.constructors ≡ length self.now.constructors }
        ensures checks { Checks (missing_faults (first_unmarked self.now.constructors part.now.constructors)) result }
        ensures all { OnOk result (missing_among part.now.constructors ≡ 0) }
    {
        if part.constructors.all() {
            return Ok(());
        }
        check_missing(alloc, self.constructors.first_unmarked(&part.constructors))
    }

    /// The number of the symbol that has an item's name, unless the item may not stand there.
    pub fn symbol(&self, alloc: Global, part: &Partial, name: &[u8]) -> Result<usize, TableError>
        requires known { AreKnown self.now }
        requires part { IsPart self.now.signature.now part.now }
        ensures checks { (before : Table) → IsSaid self.now.signature.now before part.now → Checks (name_faults (typed self.now.signature.now).wants before.items kind.Symbol name.now) result }
        ensures found { IfOk result (λ at. slice_get (writable.symbol_names self.now.signature.now) at ≡ Some name.now) }
        ensures new { IfOk result (λ at. slice_get part.now.symbols at ≡ Some false) }
        ensures all { OnOk result (missing_among part.now.constructors ≡ 0) }
    {
        let at = check_known(alloc, self.symbols.find(name), name)?;
        check_new(alloc, part.symbols.has(at), name)?;
        self.check_constructors(alloc, part)?;
        Ok(at)
    }
}
