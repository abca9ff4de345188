ghost use Rattle.std.specs.Prelude.{◌≡◌, ◌↔◌, IsTrue, IfOk};

use enc_base::{List, NoMemory};
use std::alloc::Global;
use tf_core::{Ty, copy_types, same_types};

/// The symbol instance that a symbol of the problem of instances is: the number of a symbol of the
/// first problem, and a type without variables for each of its parameters.
#[derive(Debug, Drop)]
pub struct Origin {
    pub symbol: u32,
    pub types: List<Ty>,
}

impl Origin {
    /// An equal origin.
    pub fn copy(&self, alloc: Global) -> Result<Origin, NoMemory>
        ensures { IfOk result (λ copied. copied ≡ self.now) }
    {
        Ok(Origin {
            symbol: self.symbol,
            types: copy_types(alloc, self.types.as_slice())?,
        })
    }

    /// Whether the two are equal.
    pub fn same(&self, other: &Origin) -> bool
        ensures { IsTrue result ↔ (self.now ≡ other.now) }
    {
        self.symbol == other.symbol && same_types(self.types.as_slice(), other.types.as_slice())
    }
}

/// Equal origins.
pub fn copy_origins(alloc: Global, origins: &[Origin]) -> Result<List<Origin>, NoMemory>
    ensures { IfOk result (λ copied. copied ≡ origins.now) }
{
    let mut copied = List::new(alloc);
    for origin in origins {
        copied.push(origin.copy(alloc)?)?;
    }
    Ok(copied)
}

/// Whether the two lists are equal.
pub fn same_origins(origins: &[Origin], others: &[Origin]) -> bool
    ensures { IsTrue result ↔ (origins.now ≡ others.now) }
{
    if origins.len() != others.len() {
        return false;
    }
    for (i, origin) in origins.iter().enumerate() {
        if !origin.same(&others[i]) {
            return false;
        }
    }
    true
}

/// The symbol instances of a problem of instances, one for each of its symbols, in order.
#[derive(Debug, Drop)]
pub struct Instances {
    pub origins: List<Origin>,
}

impl Instances {
    /// Equal instances.
    pub fn copy(&self, alloc: Global) -> Result<Instances, NoMemory>
        ensures { IfOk result (λ copied. copied ≡ self.now) }
    {
        Ok(Instances {
            origins: copy_origins(alloc, self.origins.as_slice())?,
        })
    }

    /// Whether the two are equal.
    pub fn same(&self, other: &Instances) -> bool
        ensures { IsTrue result ↔ (self.now ≡ other.now) }
    {
        same_origins(self.origins.as_slice(), other.origins.as_slice())
    }
}
