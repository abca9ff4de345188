//! Typed tables, read exactly.
#![tactic(auto)]

ghost use Rattle.std.specs.Prelude.{◌≡◌, ◌≢◌, ◌≤◌, ◌<◌, ◌^◌, length, IfOk, IfErr};
ghost use Rattle.enc_base.specs.Counts.{most_entries};
ghost use Rattle.tf_core.specs.Typing.{IsSignature};
ghost use Rattle.tf_models.specs.declared.structure.TypedStructure.{TypedStructure};
ghost use Rattle.model_tables.specs.declared.error.TableError.{TableError};
ghost use Rattle.model_tables.specs.declared.error.TableError.TheVariants as e;
ghost use Rattle.model_tables.specs.Refusals.{IsRefused};
ghost use Rattle.model_tables.specs.Typed.{typed, IsTypedTable, structure_entries};
ghost use Rattle.model_tables.specs.TypedLaws.{HasNames};
ghost use Rattle.model_tables.specs.ReadTyped.{SaysTyped};

use crate::error::TableError;
use crate::known::Known;
use crate::partial::Partial;
use crate::reader::Reader;
use crate::sizes::{check_sizes, sizes};
use std::alloc::Global;
use tf_core::Signature;
use tf_models::TypedStructure;

/// The structure that the text says without a fault, or the first fault.
fn read_said(
    alloc: Global,
    text: &[u8],
    signature: &Signature,
) -> Result<TypedStructure, TableError>
    requires typed { IsSignature signature.now }
    requires names { HasNames signature.now }
    ensures said { IfOk result (SaysTyped signature.now text.now) }
    ensures few { IfOk result (λ s. length s.sizes < 2 ^ 32) }
    ensures refused { IfErr result (λ fault. fault ≢ e.Memory
        → IsRefused (typed signature.now) text.now fault) }
{
    let mut reader = Reader::new(text);
    let total = text.len();
    let sizes = sizes(alloc, &mut reader, total)?;
    check_sizes(signature, sizes.as_slice())?;
    let known = Known::new(alloc, signature)?;
    let mut part = Partial::new(alloc, signature, sizes)?;
    known.read_items(alloc, &mut reader, &mut part, total)?;
    known.check_end(alloc, &reader, &part, total)?;
    Ok(part.structure)
}

/// The structure of which the text is a typed table, for a signature that has a constructor and in
/// which the names of constructors differ, and those of symbols.
///
/// An error says where and why the text is refused: it is no table of any structure within the
/// limit on entries. The entries are read in one pass. The limit is decided before a symbol's
/// table is made, by counting over the tuples of members of those parameters of a symbol that
/// share its argument types: their number is not bounded by the text.
pub fn read_typed(
    alloc: Global,
    text: &[u8],
    signature: &Signature,
) -> Result<TypedStructure, TableError>
    requires typed { IsSignature signature.now }
    requires names { HasNames signature.now }
    ensures exact { IfOk result (IsTypedTable text.now signature.now) }
    ensures within { IfOk result (λ s. structure_entries s ≤ most_entries) }
    ensures few { IfOk result (λ s. length s.sizes < 2 ^ 32) }
    ensures unrefused { IfOk result (λ s. (fault : TableError)
        → IsRefused (typed signature.now) text.now fault → ⊥) }
    ensures refused { IfErr result (λ fault. fault ≢ e.Memory
        → IsRefused (typed signature.now) text.now fault) }
    ensures kept { (s : TypedStructure) → IsTypedTable text.now signature.now s
        → structure_entries s ≤ most_entries → IfErr result (λ fault. fault ≡ e.Memory) }
{
    read_said(alloc, text, signature)
}
