//! Which names are taken while names are chosen.

ghost use Rattle.std.specs.Prelude.{◌≡◌, Some, OnOk, OnErr, cond};
ghost use Rattle.std.specs.Str.{bytes_eq};
ghost use Rattle.fof_text.specs.Uses.{use_at, IsSet};

use enc_base::NoMemory;
use std::collections::BTreeMap;

/// How a name is taken: a symbol wants it, or has it too.
///
/// Each number below `next` is known to make the name no free one.
#[derive(Clone, Copy, Debug, Drop)]
pub(crate) struct Use {
    pub(crate) had: bool,
    pub(crate) next: usize,
}

/// The use of the name, if it is taken.
pub(crate) fn use_of(uses: &BTreeMap<Vec<u8>, Use>, name: &[u8]) -> Option<Use>
    ensures { result ≡ use_at uses.now name.now }
{
    match uses.get(name) {
        Some(found) => Some(*found),
        None => None,
    }
}

/// Takes the name, in place of how it was taken.
pub(crate) fn take(
    uses: &mut BTreeMap<Vec<u8>, Use>,
    name: Vec<u8>,
    how: Use,
) -> Result<(), NoMemory>
    ensures { OnOk result (IsSet uses.old name.items how uses.new) }
{
    uses.insert(name, how)?;
    Ok(())
}
