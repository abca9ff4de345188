ghost use Rattle.std.specs.Prelude.{◌≡◌, ◌↔◌, IsTrue, IfOk};

use enc_base::NoMemory;
use std::alloc::Global;

/// A side of an equation of a normal problem.
///
/// The equations of a formula are counted in reading order, those of both polarities. Side 0 is the
/// left one and side 1 the right one.
#[derive(Debug, Drop)]
pub struct Place {
    pub formula: usize,
    pub equation: usize,
    pub side: u32,
}

impl Place {
    /// An equal place. It takes no memory, and has an error because every type's copy has one.
    pub fn copy(&self, _alloc: Global) -> Result<Place, NoMemory>
        ensures { IfOk result (λ copied. copied ≡ self.now) }
    {
        Ok(Place {
            formula: self.formula,
            equation: self.equation,
            side: self.side,
        })
    }

    /// Whether the two are equal.
    pub fn same(&self, other: &Place) -> bool
        ensures { IsTrue result ↔ (self.now ≡ other.now) }
    {
        self.formula == other.formula && self.equation == other.equation && self.side == other.side
    }
}
