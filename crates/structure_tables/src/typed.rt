ghost use Rattle.std.specs.Prelude.{◌≡◌, ◌≤◌, ◌^◌, ℕ, List, length, IfOk};
ghost use Rattle.tf_core.specs.declared.signature.Signature.{Signature};
ghost use Rattle.tf_core.specs.Typing.{IsSignature};
ghost use Rattle.tf_core.specs.Structures.{Typed};
ghost use Rattle.tf_models.specs.Reading.{tables};
ghost use Rattle.structure_tables.specs.Sources.{AreMembersFor, AreArgumentsFor, IsSized};
ghost use Rattle.structure_tables.specs.TypedTabled.{constructor_tables, symbol_tables, tabled};

use crate::blocks::table_of_symbol;
use crate::tuples::{TupleFunction, table_of};
use enc_base::{List, NoMemory};
use std::alloc::Global;
use tf_core::{Constructor, Signature, Symbol};
use tf_models::TypedStructure;

/// A typed structure whose values are computed, one at a time.
pub trait TypedSource {
    /// The constructors and symbols that it has.
    ghost signature: { Self → Signature };

    /// The structure.
    ghost structure: { Self → Typed };

    /// What its values rest on.
    ghost is_ready: { Self → Type 0 };

    /// The member that a constructor gives for members.
    fn constructor_value(&self, constructor: u32, members: &[u32]) -> u32
        requires ready { is_ready self.now }
        requires within { AreMembersFor (signature self.now) (structure self.now) constructor members.now }
        ensures { result ≡ (structure self.now).constructor_at constructor members.now };

    /// The value of a symbol for members and elements.
    fn symbol_value(&self, symbol: u32, members: &[u32], elements: &[u32]) -> u32
        requires ready { is_ready self.now }
        requires within { AreArgumentsFor (signature self.now) (structure self.now) symbol members.now elements.now }
        ensures { result ≡ (structure self.now).symbol_at symbol members.now elements.now };
}

/// The tables of a structure whose values are computed, with the sizes of its members. Each value
/// of a symbol is asked for once.
pub fn tabulate_typed<S: TypedSource>(
    alloc: Global,
    signature: &Signature,
    sizes: List<u32>,
    source: &S,
) -> Result<TypedStructure, NoMemory>
    requires ready { S.is_ready source.now }
    requires signature { signature.now ≡ S.signature source.now }
    requires few_constructors { length signature.now.constructors ≤ 2 ^ 32 }
    requires few_symbols { length signature.now.symbols ≤ 2 ^ 32 }
    requires typed { IsSignature signature.now }
    requires sized { IsSized signature.now (S.structure source.now) sizes }
    ensures { IfOk result (λ t. tables t ≡ tabled signature.now (S.structure source.now)) }
{
    let constructors = tables_of_constructors(
        alloc,
        source,
        sizes.as_slice(),
        signature.constructors.as_slice(),
    )?;
    let symbols = tables_of_symbols(
        alloc,
        source,
        sizes.as_slice(),
        signature.symbols.as_slice(),
    )?;
    Ok(TypedStructure {
        sizes,
        constructors,
        symbols,
    })
}

// the tables of the constructors
fn tables_of_constructors<S: TypedSource>(
    alloc: Global,
    source: &S,
    sizes: &[u32],
    constructors: &[Constructor],
) -> Result<List<List<u32>>, NoMemory>
    requires ready { S.is_ready source.now }
    requires constructors { constructors.now ≡ (S.signature source.now).constructors }
    requires few { length constructors.now ≤ 2 ^ 32 }
    requires sized { IsSized (S.signature source.now) (S.structure source.now) sizes.now }
    ensures { IfOk result (λ made. made ≡ constructor_tables (S.structure source.now) constructors.now 0) }
{
    let count = sizes.len() as u32;
    let mut made = List::new(alloc);
    for (c, constructor) in constructors.iter().enumerate() {
        let constructor_of = ConstructorOf {
            source,
            constructor: c as u32,
        };
        made.push(table_of(alloc, count, constructor.arity, &constructor_of)?)?;
    }
    Ok(made)
}

// the tables of the symbols
fn tables_of_symbols<S: TypedSource>(
    alloc: Global,
    source: &S,
    sizes: &[u32],
    symbols: &[Symbol],
) -> Result<List<List<u32>>, NoMemory>
    requires ready { S.is_ready source.now }
    requires symbols { symbols.now ≡ (S.signature source.now).symbols }
    requires few { length symbols.now ≤ 2 ^ 32 }
    requires typed { IsSignature (S.signature source.now) }
    requires sized { IsSized (S.signature source.now) (S.structure source.now) sizes.now }
    ensures { IfOk result (λ made. made ≡ symbol_tables (S.structure source.now) symbols.now 0) }
{
    let mut made = List::new(alloc);
    for (f, symbol) in symbols.iter().enumerate() {
        made.push(table_of_symbol(alloc, source, sizes, f as u32, symbol)?)?;
    }
    Ok(made)
}

// a constructor of a structure
#[derive(Drop)]
pub(crate) struct ConstructorOf<'a, S> {
    pub source: &'a S,
    pub constructor: u32,
}

impl<S: TypedSource> TupleFunction for ConstructorOf<'_, S> {
    ghost is_defined = { λ it members. S.is_ready it.source.now × AreMembersFor (S.signature it.source.now) (S.structure it.source.now) it.constructor members };

    ghost gives = { λ it. (S.structure it.source.now).constructor_at it.constructor };

    fn at(&self, values: &[u32]) -> u32 {
        self.source.constructor_value(self.constructor, values)
    }
}
