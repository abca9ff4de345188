//! A signature beside the covers of its symbols.

ghost use Rattle.std.specs.Prelude.{◌≡◌, map, slice_get};
ghost use Rattle.tf_naked.specs.Covers.{covers, covers_of};

use enc_base::List;
use tf_core::Signature;

/// A signature, and for each argument place of each of its symbols whether it is a cover.
#[derive(Drop)]
pub(crate) struct Scope<'g> {
    pub(crate) signature: &'g Signature,
    pub(crate) rows: &'g [List<bool>],
    ghost exact: { rows.now ≡ map covers signature.now.symbols },
}

impl<'g> Scope<'g> {
    /// The covers of the f-th symbol: none where there is no such symbol.
    pub(crate) fn covers_of(&self, f: u32) -> &'g [bool]
        ensures { result.now ≡ covers_of (slice_get self.now.signature.now.symbols f) }
    {
        match self.rows.get(f as usize) {
            Some(row) => row.as_slice(),
            None => &[],
        }
    }
}
