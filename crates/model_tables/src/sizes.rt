//! The sizes of the members of a typed structure, up to the full stop behind them.
#![tactic(auto)]

ghost use Rattle.std.specs.Prelude.{◌≡◌, ℕ, [], ◌∷◌, None, IfOk, OnOk};
ghost use Rattle.tptp_phrases.specs.Readers.{seen};
ghost use Rattle.tf_core.specs.declared.signature.Signature.{Signature};
ghost use Rattle.tf_models.specs.Fit.{IsInhabited};
ghost use Rattle.model_tables.specs.Grammar as grammar;
ghost use Rattle.model_tables.specs.Places.{AtSize, AtSizesEnd};
ghost use Rattle.model_tables.specs.Faults.{limit_faults};
ghost use Rattle.model_tables.specs.Typed as typed;
ghost use Rattle.model_tables.specs.Typed.{typed};
ghost use Rattle.model_tables.specs.Steps.{Start, Stands};
ghost use Rattle.model_tables.specs.Ahead.{first_as};
ghost use Rattle.model_tables.specs.Leads.{lead, arrive, Goes};
ghost use Rattle.model_tables.specs.Checks.{Checks};

use crate::checks::{check_limit, check_size};
use crate::error::TableError;
use crate::form::Form;
use crate::parts::{opening, refused};
use crate::reader::Reader;
use enc_base::List;
use std::alloc::Global;
use structure_tables::{add_sizes, entries_of_constructors};
use tf_core::Signature;

/// Reads the sizes behind the first one.
fn more_sizes(alloc: Global, reader: &mut Reader<'_>, first: u32) -> Result<List<u32>, TableError>
    ensures goes { (g : Signature) (total : ℕ) → Goes (arrive (typed g) total (Stands (AtSize (first ∷ []))) reader.old) result (λ sizes. lead (typed g) total (Stands (AtSize sizes)) reader.new) }
    ensures inhabited { IfOk result (λ sizes. IsInhabited sizes) }
    ensures all { OnOk result (first_as grammar.number (seen reader.new) ≡ None) }
{
    check_size(alloc, Form::Typed, first)?;
    let mut sizes = List::new(alloc);
    sizes.push(first)?;
    'sizes: while let Some(size) = reader.first_number() {
        reader.advance();
        check_size(alloc, Form::Typed, size)?;
        sizes.push(size)?;
    }
    Ok(sizes)
}

/// Reads up to the full stop behind the sizes.
pub fn sizes(alloc: Global, reader: &mut Reader<'_>, total: usize) -> Result<List<u32>, TableError>
    ensures goes { (g : Signature) → Goes (lead (typed g) total Start reader.old) result (λ sizes. arrive (typed g) total (Stands (AtSizesEnd sizes)) reader.new) }
    ensures inhabited { IfOk result (λ sizes. IsInhabited sizes) }
{
    let first = opening(reader, Form::Typed, total)?;
    let sizes = more_sizes(alloc, reader, first)?;
    match reader.take_mark(b".") {
        Ok(()) => Ok(sizes),
        Err(fault) => Err(refused(reader, fault, total)),
    }
}

/// Checks that the sizes and the tables of the constructors are within the limit on entries.
pub fn check_sizes(signature: &Signature, sizes: &[u32]) -> Result<(), TableError>
    ensures { Checks (limit_faults (typed.constructor_entries signature.now sizes.now)) result }
{
    let constructors = entries_of_constructors(sizes, signature.constructors.as_slice());
    check_limit(add_sizes(sizes).saturating_add(constructors))
}
