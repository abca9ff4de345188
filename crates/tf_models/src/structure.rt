ghost use Rattle.std.specs.Prelude.{◌≡◌, ◌↔◌, IsTrue, IfOk};

use enc_base::{List, NoMemory};
use std::alloc::Global;

/// A typed structure: the sizes of its members, and a table for each constructor and each symbol of
/// a signature.
///
/// All tuples are in lexicographic order, the first part changing slowest. A constructor's table
/// has an entry, a member, for each tuple of members. A symbol's table has a block for each tuple
/// of members for its parameters, and a block has an entry for each tuple of elements of its
/// argument types' members: an element of its result type's member, or for a predicate 0 or 1.
#[derive(Debug, Drop)]
pub struct TypedStructure {
    pub sizes: List<u32>,
    pub constructors: List<List<u32>>,
    pub symbols: List<List<u32>>,
}

impl TypedStructure {
    /// An equal structure.
    pub fn copy(&self, alloc: Global) -> Result<TypedStructure, NoMemory>
        ensures { IfOk result (λ structure. structure ≡ self.now) }
    {
        Ok(TypedStructure {
            sizes: copy_table(alloc, self.sizes.as_slice())?,
            constructors: copy_tables(alloc, self.constructors.as_slice())?,
            symbols: copy_tables(alloc, self.symbols.as_slice())?,
        })
    }

    /// Whether the two are equal.
    pub fn same(&self, other: &TypedStructure) -> bool
        ensures { IsTrue result ↔ (self.now ≡ other.now) }
    {
        same_table(self.sizes.as_slice(), other.sizes.as_slice())
            && same_tables(self.constructors.as_slice(), other.constructors.as_slice())
            && same_tables(self.symbols.as_slice(), other.symbols.as_slice())
    }
}

/// An equal table.
pub fn copy_table(alloc: Global, table: &[u32]) -> Result<List<u32>, NoMemory>
    ensures { IfOk result (λ copied. copied ≡ table.now) }
{
    match table.to_vec(alloc) {
        Ok(entries) => Ok(List::from_vec(entries)),
        Err(_) => Err(NoMemory),
    }
}

/// Equal tables.
pub fn copy_tables(alloc: Global, tables: &[List<u32>]) -> Result<List<List<u32>>, NoMemory>
    ensures { IfOk result (λ copied. copied ≡ tables.now) }
{
    let mut copied = List::new(alloc);
    for table in tables {
        copied.push(copy_table(alloc, table.as_slice())?)?;
    }
    Ok(copied)
}

// whether the two tables are equal
fn same_table(table: &[u32], other: &[u32]) -> bool
    ensures { IsTrue result ↔ (table.now ≡ other.now) }
{
    table == other
}

// whether the tables are equal
fn same_tables(tables: &[List<u32>], others: &[List<u32>]) -> bool
    ensures { IsTrue result ↔ (tables.now ≡ others.now) }
{
    if tables.len() != others.len() {
        return false;
    }
    for (i, table) in tables.iter().enumerate() {
        if !same_table(table.as_slice(), others[i].as_slice()) {
            return false;
        }
    }
    true
}
