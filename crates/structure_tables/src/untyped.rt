ghost use Rattle.std.specs.Prelude.{◌≡◌, ◌≤◌, ◌<◌, ◌^◌, ℕ, List, length, replicate, slice_get, Some, IfOk};
ghost use Rattle.enc_base.specs.Tables.{EachBelow, table};
ghost use Rattle.fof_models.specs.declared.problem.FofSymbol.{FofSymbol};
ghost use Rattle.fof_models.specs.Structures.{Untyped};
ghost use Rattle.fof_models.specs.Tabled.{symbol_table, symbol_tables, tabled};
ghost use Rattle.structure_tables.specs.Sources.{AreElementsFor};

use crate::tuples::{TupleFunction, table_of};
use enc_base::{List, NoMemory};
use fof_models::{FofSymbol, Structure};
use std::alloc::Global;

/// An untyped structure whose values are computed, one at a time.
pub trait UntypedSource {
    /// The symbols that it has.
    ghost signature: { Self → List FofSymbol };

    /// The structure.
    ghost structure: { Self → Untyped };

    /// What its values rest on.
    ghost is_ready: { Self → Type 0 };

    /// The number of elements.
    fn size(&self) -> u32
        requires ready { is_ready self.now }
        ensures { result ≡ (structure self.now).size };

    /// The value of a symbol for elements.
    fn value(&self, symbol: u32, elements: &[u32]) -> u32
        requires ready { is_ready self.now }
        requires within { AreElementsFor (signature self.now) (structure self.now) symbol elements.now }
        ensures { result ≡ (structure self.now).symbol_at symbol elements.now };
}

/// The tables of a structure whose values are computed. Each value is asked for once.
pub fn tabulate<S: UntypedSource>(
    alloc: Global,
    signature: &[FofSymbol],
    source: &S,
) -> Result<Structure, NoMemory>
    requires ready { S.is_ready source.now }
    requires signature { signature.now ≡ S.signature source.now }
    requires few { length signature.now ≤ 2 ^ 32 }
    requires inhabited { 0 < (S.structure source.now).size }
    ensures { IfOk result (λ s. s ≡ tabled signature.now (S.structure source.now)) }
{
    let mut tables = List::new(alloc);
    for (f, symbol) in signature.iter().enumerate() {
        let symbol_of = SymbolOf {
            source,
            symbol: f as u32,
        };
        tables.push(table_of(alloc, source.size(), symbol.arity, &symbol_of)?)?;
    }
    Ok(Structure {
        size: source.size(),
        tables,
    })
}

// a symbol of a structure
#[derive(Drop)]
struct SymbolOf<'a, S> {
    source: &'a S,
    symbol: u32,
}

impl<S: UntypedSource> TupleFunction for SymbolOf<'_, S> {
    ghost is_defined = { λ it elements. S.is_ready it.source.now × AreElementsFor (S.signature it.source.now) (S.structure it.source.now) it.symbol elements };

    ghost gives = { λ it. (S.structure it.source.now).symbol_at it.symbol };

    fn at(&self, values: &[u32]) -> u32 {
        self.source.value(self.symbol, values)
    }
}
