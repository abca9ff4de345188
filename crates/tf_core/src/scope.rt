//! What types and terms are formed over.

ghost use Rattle.std.specs.Prelude.{◌≡◌, slice_get};
ghost use Rattle.tf_core.specs.Contexts.{lent};

use crate::signature::{Signature, Symbol};

/// A signature, and how many type variables there are.
#[derive(Drop)]
pub(crate) struct Scope<'g> {
    pub(crate) signature: &'g Signature,
    pub(crate) variables: u32,
}

impl<'g> Scope<'g> {
    /// The f-th symbol.
    pub(crate) fn symbol_at(&self, f: u32) -> Option<&'g Symbol>
        ensures { lent result ≡ slice_get self.now.signature.now.symbols f }
    {
        self.signature.symbols.as_slice().get(f as usize)
    }
}
