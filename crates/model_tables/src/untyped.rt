//! Untyped tables, read exactly.
#![tactic(auto)]

ghost use Rattle.std.specs.Prelude.{◌≡◌, ◌≢◌, ◌≤◌, ◌<◌, List, [], ◌∷◌, length, map, replicate};
ghost use Rattle.std.specs.Prelude.{Option, Some, None, Result, true, false, IfOk, IfErr, OnOk};
ghost use Rattle.enc_base.specs.Counts.{most_entries};
ghost use Rattle.tptp_phrases.specs.Readers.{goes_on, seen};
ghost use Rattle.fof_text.specs.Names.{AllDiffer};
ghost use Rattle.fof_models.specs.declared.structure.Structure.{Structure};
ghost use Rattle.model_tables.specs.declared.error.TableError.{TableError};
ghost use Rattle.model_tables.specs.declared.error.TableError.TheVariants as e;
ghost use Rattle.model_tables.specs.declared.form.Form.TheVariants as form;
ghost use Rattle.model_tables.specs.Grammar.{Table};
ghost use Rattle.model_tables.specs.Places.{AtSizesEnd};
ghost use Rattle.model_tables.specs.Faults.{Asked, limit_faults};
ghost use Rattle.model_tables.specs.Items.{entries_or_none};
ghost use Rattle.model_tables.specs.Untyped.{untyped, all_entries, IsUntypedTable, structure_entries};
ghost use Rattle.model_tables.specs.Refusals.{IsRefused};
ghost use Rattle.model_tables.specs.Steps.{Start, Stands};
ghost use Rattle.model_tables.specs.Ahead.{any_word};
ghost use Rattle.model_tables.specs.Leads.{lead, arrive, Goes, GoesOn};
ghost use Rattle.model_tables.specs.Held.{texts_of, empty_slots};
ghost use Rattle.model_tables.specs.Checks.{Checks};
ghost use Rattle.model_tables.specs.ReadUntyped.{AreReady, ReadSoFar, IsAnswer, asked_of};
ghost use Rattle.model_tables.specs.ReadUntyped.{SaysStructure};

use crate::checks::{check_limit, check_missing, check_size};
use crate::error::TableError;
use crate::fault::Fault;
use crate::form::Form;
use crate::index::Index;
use crate::parts::{ended, entries, heading, opening, refused};
use crate::reader::Reader;
use crate::symbols::Symbols;
use enc_base::{List, Name, NoMemory};
use fof_models::{FofProblem, FofSymbol, Structure};
use fof_text::Names;
use std::alloc::Global;
use structure_tables::untyped_entries;

/// The names, for an index.
fn texts(alloc: Global, names: &[Name]) -> Result<Vec<&[u8]>, NoMemory>
    ensures { IfOk result (λ texts. texts_of texts.items ≡ names.now) }
{
    let mut texts: Vec<&[u8]> = Vec::new(alloc);
    for name in names {
        texts.push(name.as_slice())?;
    }
    Ok(texts)
}

/// So many empty slots.
fn empty(alloc: Global, count: usize) -> Result<Vec<Option<List<u32>>>, NoMemory>
    ensures { IfOk result (λ slots. slots.items ≡ replicate count None) }
{
    let mut slots: Vec<Option<List<u32>>> = Vec::new(alloc);
    for _ in 0..count {
        slots.push(None)?;
    }
    Ok(slots)
}

/// The entries in slots.
fn tables(alloc: Global, slots: Vec<Option<List<u32>>>) -> Result<List<List<u32>>, NoMemory>
    ensures { IfOk result (λ tables. tables ≡ map entries_or_none slots.items) }
{
    let mut tables = List::new(alloc);
    for slot in slots {
        match slot {
            Some(entries) => tables.push(entries)?,
            None => tables.push(List::new(alloc))?,
        }
    }
    Ok(tables)
}

/// Reads up to the full stop behind the size.
fn size(alloc: Global, reader: &mut Reader<'_>, total: usize) -> Result<u32, TableError>
    ensures { (asked : Asked) → asked.form ≡ form.Untyped
        → Goes (lead asked total Start reader.old) result
        (λ size. arrive asked total (Stands (AtSizesEnd (size ∷ []))) reader.new) }
{
    let size = opening(reader, Form::Untyped, total)?;
    check_size(alloc, Form::Untyped, size)?;
    match reader.take_mark(b".") {
        Ok(()) => Ok(size),
        Err(fault) => Err(refused(reader, fault, total)),
    }
}

/// Checks that a structure of this size is within the limit on entries.
fn check_entries(size: u32, signature: &[FofSymbol]) -> Result<(), TableError>
    ensures { Checks (limit_faults (all_entries signature.now size)) result }
{
    check_limit(untyped_entries(size as u64, signature))
}

/// Reads an item, and keeps its entries in the slot of its symbol.
fn item(
    alloc: Global,
    reader: &mut Reader<'_>,
    total: usize,
    symbols: &Symbols<'_>,
    slots: &mut [Option<List<u32>>],
) -> Result<(), TableError>
    requires ready { AreReady symbols.now }
    requires slots { length slots.old ≡ length symbols.now.signature.now }
    requires word { goes_on any_word (seen reader.old) ≡ true }
    ensures read { (whole : Result Table TableError)
        → ReadSoFar symbols.now total whole slots.old reader.old
        → GoesOn whole result (ReadSoFar symbols.now total whole slots.new reader.new) }
    ensures fewer { OnOk result (empty_slots slots.new < empty_slots slots.old) }
{
    let (kind, name) = heading(alloc, reader, Form::Untyped, total)?;
    let at = symbols.check_name(alloc, kind, name.as_slice(), slots)?;
    let entries = entries(alloc, reader, total)?;
    symbols.check_entries(alloc, at, name.as_slice(), entries.as_slice())?;
    slots[at] = Some(entries);
    Ok(())
}

/// Reads the items up to where no word stands next.
fn items(
    alloc: Global,
    reader: &mut Reader<'_>,
    total: usize,
    symbols: &Symbols<'_>,
    slots: &mut [Option<List<u32>>],
) -> Result<(), TableError>
    requires ready { AreReady symbols.now }
    requires slots { length slots.old ≡ length symbols.now.signature.now }
    ensures read { (whole : Result Table TableError)
        → ReadSoFar symbols.now total whole slots.old reader.old
        → GoesOn whole result (ReadSoFar symbols.now total whole slots.new reader.new) }
    ensures all { OnOk result (goes_on any_word (seen reader.new) ≡ false) }
{
    'items: while reader.sees_word() {
        item(alloc, reader, total, symbols, slots)?;
    }
    Ok(())
}

/// What the text says, where its items are read.
fn finish(
    alloc: Global,
    reader: &Reader<'_>,
    total: usize,
    symbols: &Symbols<'_>,
    slots: Vec<Option<List<u32>>>,
) -> Result<Structure, TableError>
    requires ready { AreReady symbols.now }
    requires slots { length slots.items ≡ length symbols.now.signature.now }
    requires word { goes_on any_word (seen reader.now) ≡ false }
    ensures { (whole : Result Table TableError)
        → ReadSoFar symbols.now total whole slots.items reader.now
        → IsAnswer symbols.now.signature.now symbols.now.names whole result }
{
    ended(reader, total)?;
    check_missing(alloc, symbols.names.first_empty(&slots))?;
    Ok(Structure {
        size: symbols.size,
        tables: tables(alloc, slots)?,
    })
}

/// Reads what stands behind the size.
fn read_items(
    alloc: Global,
    reader: &mut Reader<'_>,
    total: usize,
    symbols: &Symbols<'_>,
) -> Result<Structure, TableError>
    requires ready { AreReady symbols.now }
    ensures { IsAnswer symbols.now.signature.now symbols.now.names
        (lead (asked_of symbols.now) total (Stands (AtSizesEnd (symbols.now.size ∷ []))) reader.old)
        result }
{
    let mut slots = empty(alloc, symbols.signature.len())?;
    items(alloc, reader, total, symbols, &mut slots)?;
    finish(alloc, reader, total, symbols, slots)
}

/// The structure that a text gives, for the symbols of a problem and their names.
fn read_text(
    alloc: Global,
    text: &[u8],
    signature: &[FofSymbol],
    names: &[Name],
) -> Result<Structure, TableError>
    requires one_each { length names.now ≡ length signature.now }
    requires differ { AllDiffer names.now }
    ensures said { IfOk result (SaysStructure signature.now names.now text.now) }
    ensures refused { IfErr result (λ fault. fault ≢ e.Memory
        → IsRefused (untyped signature.now names.now) text.now fault) }
{
    let mut reader = Reader::new(text);
    let size = size(alloc, &mut reader, text.len())?;
    check_entries(size, signature)?;
    let names = Index::new(alloc, texts(alloc, names)?)?;
    let symbols = Symbols {
        signature,
        names,
        size,
    };
    read_items(alloc, &mut reader, text.len(), &symbols)
}

/// The structure of which the text is an untyped table, for a problem and the names of its symbols.
///
/// The names are those of the problem's symbols, in order. An error says where and why the text is
/// refused: it is no table of any structure within the limit on entries.
pub fn read_untyped(
    alloc: Global,
    text: &[u8],
    problem: &FofProblem,
    names: &Names,
) -> Result<Structure, TableError>
    requires one_each { length names.now ≡ length problem.now.signature }
    requires differ { AllDiffer names.now }
    ensures exact { IfOk result (IsUntypedTable text.now problem.now names.now) }
    ensures within { IfOk result (λ s. structure_entries s ≤ most_entries) }
    ensures unrefused { IfOk result (λ _. (fault : TableError)
        → IsRefused (untyped problem.now.signature names.now) text.now fault → ⊥) }
    ensures refused { IfErr result (λ fault. fault ≢ e.Memory
        → IsRefused (untyped problem.now.signature names.now) text.now fault) }
    ensures kept { (s : Structure) → IsUntypedTable text.now problem.now names.now s
        → structure_entries s ≤ most_entries → IfErr result (λ fault. fault ≡ e.Memory) }
{
    read_text(alloc, text, problem.signature.as_slice(), names.as_slice())
}
