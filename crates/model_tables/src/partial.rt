//! A typed structure as far as its table is read.
#![tactic(auto)]

ghost use Rattle.std.specs.Prelude.{◌≡◌, ◌≤◌, ◌<◌, [], false, length, replicate, set, slice_get, Some, IfOk};
ghost use Rattle.enc_base.specs.Counts.{most_entries};
ghost use Rattle.tf_models.specs.Fit.{IsInhabited};
ghost use Rattle.model_tables.specs.Typed.{constructor_entries};
ghost use Rattle.model_tables.specs.Steps.{with_no_items};
ghost use Rattle.model_tables.specs.ReadTyped.{with_constructor, with_symbol, IsPart, IsLimited, IsSaid};

use crate::marks::Marks;
use enc_base::{List, NoMemory};
use std::alloc::Global;
use std::mem;
use tf_core::Signature;
use tf_models::TypedStructure;

/// A structure as far as its table is read. The tables that are missing are empty.
#[derive(Drop)]
pub struct Partial {
    pub structure: TypedStructure,
    /// The constructors whose tables are read.
    pub constructors: Marks,
    /// The symbols whose tables are read.
    pub symbols: Marks,
}

/// So many empty tables.
fn empty_tables(alloc: Global, count: usize) -> Result<List<List<u32>>, NoMemory>
    ensures { IfOk result (λ tables. tables ≡ replicate count []) }
{
    let mut tables = List::new(alloc);
    for _ in 0..count {
        tables.push(List::new(alloc))?;
    }
    Ok(tables)
}

/// Puts a table at its place.
fn put(alloc: Global, tables: &mut List<List<u32>>, at: usize, table: List<u32>)
    requires { at < length tables.old }
    ensures { tables.new ≡ set tables.old at table }
{
    let mut items = mem::replace(tables, List::new(alloc)).into_vec();
    items[at] = table;
    *tables = List::from_vec(items);
}

impl Partial {
    /// The structure of which only the sizes are read.
    pub fn new(alloc: Global, signature: &Signature, sizes: List<u32>) -> Result<Partial, NoMemory>
        requires inhabited { IsInhabited sizes }
        requires small { constructor_entries signature.now sizes ≤ most_entries }
        requires some { 0 < length signature.now.constructors }
        ensures part { IfOk result (λ part. IsPart signature.now part) }
        ensures limited { IfOk result (λ part. IsLimited signature.now part) }
        ensures said { IfOk result (λ part. IsSaid signature.now (with_no_items sizes) part) }
    {
        let constructors = signature.constructors.as_slice().len();
        let symbols = signature.symbols.as_slice().len();
        Ok(Partial {
            structure: TypedStructure {
                sizes,
                constructors: empty_tables(alloc, constructors)?,
                symbols: empty_tables(alloc, symbols)?,
            },
            constructors: Marks::new(alloc, constructors)?,
            symbols: Marks::new(alloc, symbols)?,
        })
    }
    /// Puts the table of a constructor that was missing.
    pub fn put_constructor(&mut self, alloc: Global, at: usize, entries: List<u32>)
        requires new { slice_get self.old.constructors at ≡ Some false }
        requires within { at < length self.old.structure.constructors }
        ensures { self.new ≡ with_constructor self.old at entries }
    {
        put(alloc, &mut self.structure.constructors, at, entries);
        self.constructors.mark(at);
    }

    /// Puts the table of a symbol that was missing.
    pub fn put_symbol(&mut self, alloc: Global, at: usize, entries: List<u32>)
        requires new { slice_get self.old.symbols at ≡ Some false }
        requires within { at < length self.old.structure.symbols }
        ensures { self.new ≡ with_symbol self.old at entries }
    {
        put(alloc, &mut self.structure.symbols, at, entries);
        self.symbols.mark(at);
    }
}
