use crate::slot::Slot;
use tf_core::Symbol;

/// A symbol, with what was found of it once.
#[derive(Clone, Copy)]
pub struct Shape<'a> {
    pub symbol: &'a Symbol,
    /// For each argument place, whether it is the cover of a parameter.
    pub covers: &'a [bool],
    /// For each parameter, whether the type argument is written; those past the end aren't.
    pub kept: &'a [bool],
    /// What was found of its argument places.
    pub slots: &'a [Slot],
}
