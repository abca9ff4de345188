//! The rounds: what is known at first, and what is admitted by what is known.

ghost use Rattle.std.specs.Prelude.{ℕ, ◌<◌, IfOk, OnOk, length};
ghost use Rattle.tf_core.specs.declared.normal.Normal.{Normal};
ghost use Rattle.tf_core.specs.Sound.{IsSoundNormal};
ghost use Rattle.enc_mono.specs.Instances.{symbol_instances};
ghost use Rattle.enc_mono.specs.Rounds.{IsKnown};
ghost use Rattle.enc_mono.specs.Calls.Numbered.{IsIndex};
ghost use Rattle.enc_mono.specs.Calls.Known.{IsKept, Files, AreOfSymbols, index_in};
ghost use Rattle.enc_mono.specs.Calls.Admitted.{AreAdmittedUpTo};

use crate::known::Known;
use crate::listing::list_instances;
use crate::patterns::patterns_of;
use crate::search::matched_substitutions;
use enc_base::{List, NoMemory};
use std::alloc::Global;
use tf_core::{Nnf, Normal, NormalFormula};
use tf_types::TypeId;

/// What is known at first: the symbol instances of the formulas without type variables.
pub(crate) fn known_at_first(alloc: Global, normal: &Normal) -> Result<Known, NoMemory>
    requires sound { IsSoundNormal normal.now }
    ensures kept { IfOk result IsKept }
    ensures index { IfOk result (λ known. IsIndex known.table (IsKnown normal.now 0)
        (index_in known)) }
{
    let mut known = Known::new(alloc, normal.signature.symbols.as_slice().len())?;
    for formula in normal.formulas.as_slice() {
        if formula.type_variables == 0 {
            file_formula(alloc, &mut known, &formula.body)?;
        }
    }
    Ok(known)
}

// files the symbol instances of a formula
fn file_formula(alloc: Global, known: &mut Known, formula: &Nnf) -> Result<(), NoMemory>
    requires kept { IsKept known.old }
    requires of_symbols { AreOfSymbols (length (index_in known.old))
        (symbol_instances formula.now) }
    ensures { OnOk result (Files (symbol_instances formula.now) known.old known.new) }
{
    let mut listed = List::new(alloc);
    list_instances(alloc, formula, &mut listed)?;
    known.file_all(listed.as_slice())
}

/// The substitutions of a formula with type variables, as numbers, that the known symbol instances
/// admit. Each comes once. All come where they are no more than `most`.
pub(crate) fn admitted(
    alloc: Global,
    known: &Known,
    formula: &NormalFormula,
    most: usize,
) -> Result<List<List<TypeId>>, NoMemory>
    requires kept { IsKept known.now }
    requires polymorphic { 0 < formula.now.type_variables }
    ensures { IfOk result (λ found. (normal : Normal) (rounds : ℕ) → IsSoundNormal normal →
        IsIndex known.now.table (IsKnown normal rounds) (index_in known.now) →
        AreAdmittedUpTo known.now.table (IsKnown normal rounds) normal.signature formula.now most
        found) }
{
    let patterns = patterns_of(alloc, &formula.body)?;
    matched_substitutions(
        alloc,
        &known.table,
        known.index.as_slice(),
        patterns.as_slice(),
        formula.type_variables as usize,
        most,
    )
}
