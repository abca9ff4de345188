//! The parts of a table, each read up to the next place at which there may be a fault.
#![tactic(auto, unfolding(tptp_phrases::specs::Readers::seq, tptp_phrases::specs::Readers::give))]

ghost use Rattle.std.specs.Prelude.{◌≡◌, ◌≢◌, ℕ, List, [], ◌∷◌, Some, true, false};
ghost use Rattle.tptp_phrases.specs.Readers.{goes_on, seen};
ghost use Rattle.model_tables.specs.declared.fault.Fault.TheVariants as fault_kind;
ghost use Rattle.model_tables.specs.declared.error.TableError.TheVariants as e;
ghost use Rattle.model_tables.specs.Grammar as grammar;
ghost use Rattle.model_tables.specs.declared.form.Kind.{Kind};
ghost use Rattle.model_tables.specs.Faults.{Asked};
ghost use Rattle.model_tables.specs.Places.{AtSize, AtName, AtItemEnd};
ghost use Rattle.model_tables.specs.Grammar.{Table};
ghost use Rattle.model_tables.specs.Steps.{State, Start, Stands, table_at, answer_at_end};
ghost use Rattle.model_tables.specs.Ahead.{Gives, any_word};
ghost use Rattle.model_tables.specs.Leads as leads;
ghost use Rattle.model_tables.specs.Leads.{lead, arrive, Goes, refused_at};

use crate::error::TableError;
use crate::fault::Fault;
use crate::form::{Form, Kind};
use crate::reader::Reader;
use enc_base::{List, Name};
use std::alloc::Global;

/// The word that a table begins with.
fn form_word(form: Form) -> &'static [u8]
    ensures { result.now ≡ grammar.form_word form }
{
    match form {
        Form::Typed => b"typed",
        Form::Untyped => b"untyped",
    }
}

/// The word before the sizes.
pub fn size_word(form: Form) -> &'static [u8]
    ensures { result.now ≡ grammar.size_word form }
{
    match form {
        Form::Typed => b"sizes",
        Form::Untyped => b"size",
    }
}

/// The words up to the first size.
fn opening_words(reader: &mut Reader<'_>, form: Form) -> Result<u32, Fault>
    ensures { Gives (leads.opening_at form reader.old) result reader.new }
{
    reader.take_keyword(form_word(form))?;
    reader.take_format()?;
    reader.take_mark(b".")?;
    reader.take_keyword(size_word(form))?;
    reader.take_number()
}

/// The first two words of an item.
fn heading_words(alloc: Global, reader: &mut Reader<'_>, form: Form) -> Result<(Kind, Name), Fault>
    ensures { Gives (leads.heading_at form reader.old) result reader.new }
{
    let kind = reader.take_kind(form)?;
    let name = reader.take_name(alloc, kind)?;
    Ok((kind, name))
}

/// The numbers that stand next.
fn numbers(alloc: Global, reader: &mut Reader<'_>) -> Result<List<u32>, Fault>
    ensures { Gives (leads.numbers_at [] reader.old) result reader.new }
{
    let mut found = List::new(alloc);
    'numbers: while let Some(number) = reader.first_number() {
        found.push(number)?;
        reader.advance();
    }
    Ok(found)
}

/// The words of an item behind its name.
fn entry_words(alloc: Global, reader: &mut Reader<'_>) -> Result<List<u32>, Fault>
    ensures { Gives (leads.entries_at reader.old) result reader.new }
{
    reader.take_mark(b"=")?;
    let entries = numbers(alloc, reader)?;
    reader.take_mark(b".")?;
    Ok(entries)
}

/// The refusal at what stands next in a text of so many bytes.
pub fn refused(reader: &Reader<'_>, fault: Fault, total: usize) -> TableError
    ensures memory { fault ≡ fault_kind.Memory → result ≡ e.Memory }
    ensures syntax { fault ≢ fault_kind.Memory → result ≡ refused_at total reader.now }
{
    match fault {
        Fault::Memory => TableError::Memory,
        Fault::Syntax => TableError::TableSyntax {
            at: reader.place(total),
        },
    }
}

/// Reads up to the first size.
pub fn opening(reader: &mut Reader<'_>, form: Form, total: usize) -> Result<u32, TableError>
    ensures { (asked : Asked) → asked.form ≡ form → Goes (lead asked total Start reader.old) result (λ size. arrive asked total (Stands (AtSize (size ∷ []))) reader.new) }
{
    match opening_words(reader, form) {
        Ok(size) => Ok(size),
        Err(fault) => Err(refused(reader, fault, total)),
    }
}

/// Reads the kind and the name of an item.
pub fn heading(
    alloc: Global,
    reader: &mut Reader<'_>,
    form: Form,
    total: usize,
) -> Result<(Kind, Name), TableError>
    requires { goes_on any_word (seen reader.old) ≡ true }
    ensures { (asked : Asked) (s : State) (before : Table) → asked.form ≡ form → table_at s ≡ Some before → Goes (lead asked total s reader.old) result (λ head. arrive asked total (Stands (AtName before head.0 head.1)) reader.new) }
{
    match heading_words(alloc, reader, form) {
        Ok(head) => Ok(head),
        Err(fault) => Err(refused(reader, fault, total)),
    }
}

/// Reads the entries of an item and the full stop behind them.
pub fn entries(
    alloc: Global,
    reader: &mut Reader<'_>,
    total: usize,
) -> Result<List<u32>, TableError>
    ensures { (asked : Asked) (before : Table) (kind : Kind) (name : List ℕ) → Goes (lead asked total (Stands (AtName before kind name)) reader.old) result (λ entries. arrive asked total (Stands (AtItemEnd before (record { kind = kind; name = name; entries = entries }))) reader.new) }
{
    match entry_words(alloc, reader) {
        Ok(entries) => Ok(entries),
        Err(fault) => Err(refused(reader, fault, total)),
    }
}

/// Checks that the text ends where no word stands next.
pub fn ended(reader: &Reader<'_>, total: usize) -> Result<(), TableError>
    requires { goes_on any_word (seen reader.now) ≡ false }
    ensures { (asked : Asked) (s : State) → Goes (lead asked total s reader.now) result
        (λ _. answer_at_end asked total (table_at s)) }
{
    if reader.is_ended() {
        Ok(())
    } else {
        Err(refused(reader, Fault::Syntax, total))
    }
}
