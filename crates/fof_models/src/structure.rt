ghost use Rattle.std.specs.Prelude.{◌≡◌, ◌↔◌, IsTrue, IfOk};

use enc_base::{List, NoMemory};
use std::alloc::Global;

/// An untyped structure: a domain, whose elements are the numbers below `size`, and for each symbol
/// of a signature the table of its values.
///
/// A table has one entry for each tuple of elements, in lexicographic order, the first changing
/// slowest. An entry of a function is an element, one of a predicate 0 or 1.
#[derive(Debug, Drop)]
pub struct Structure {
    pub size: u32,
    pub tables: List<List<u32>>,
}

impl Structure {
    /// An equal structure.
    pub fn copy(&self, alloc: Global) -> Result<Structure, NoMemory>
        ensures { IfOk result (λ structure. structure ≡ self.now) }
    {
        Ok(Structure {
            size: self.size,
            tables: copy_tables(alloc, self.tables.as_slice())?,
        })
    }

    /// Whether the two are equal.
    pub fn same(&self, other: &Structure) -> bool
        ensures { IsTrue result ↔ (self.now ≡ other.now) }
    {
        self.size == other.size && same_tables(self.tables.as_slice(), other.tables.as_slice())
    }
}

// an equal table
fn copy_table(alloc: Global, table: &[u32]) -> Result<List<u32>, NoMemory>
    ensures { IfOk result (λ copied. copied ≡ table.now) }
{
    match table.to_vec(alloc) {
        Ok(entries) => Ok(List::from_vec(entries)),
        Err(_) => Err(NoMemory),
    }
}

// equal tables
fn copy_tables(alloc: Global, tables: &[List<u32>]) -> Result<List<List<u32>>, NoMemory>
    ensures { IfOk result (λ copied. copied ≡ tables.now) }
{
    let mut copied = List::new(alloc);
    for table in tables {
        copied.push(copy_table(alloc, table.as_slice())?)?;
    }
    Ok(copied)
}

// whether the two tables are equal
fn same_table(table: &[u32], other: &[u32]) -> bool
    ensures { IsTrue result ↔ (table.now ≡ other.now) }
{
    table == other
}

// whether the tables are equal
fn same_tables(tables: &[List<u32>], others: &[List<u32>]) -> bool
    ensures { IsTrue result ↔ (tables.now ≡ others.now) }
{
    if tables.len() != others.len() {
        return false;
    }
    for (i, table) in tables.iter().enumerate() {
        if !same_table(table.as_slice(), others[i].as_slice()) {
            return false;
        }
    }
    true
}
