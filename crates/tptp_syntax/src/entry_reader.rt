//! The reader of entries and files.
#![tactic(auto, unfolding(tptp_phrases::specs::Readers::seq, tptp_phrases::specs::Readers::choose, tptp_phrases::specs::Readers::give, tptp_phrases::specs::Readers::refuse_stray, crate::specs::Descent::declaration_at, crate::specs::Descent::entry_at, crate::specs::Descent::file_at))]

ghost use Rattle.std.specs.Prelude.{◌≡◌, ◌+◌, ◌<◌, ◌^◌, [], true, codes};
ghost use Rattle.tptp_phrases.specs.Readers.{Outcome, many_at, limit_cause, no_strays, seen, skip_balanced};
ghost use Rattle.tptp_phrases.specs.Readers as readers;
ghost use Rattle.tptp_syntax.specs.Descent as descent;
ghost use Rattle.tptp_syntax.specs.Ahead as spec;
ghost use Rattle.tptp_syntax.specs.Ahead.{Gives, cause};

use crate::entry::{Entry, File};
use crate::fault::Fault;
use crate::fixed::Fixed;
use crate::formula::RawFormula;
use crate::formula_reader::formula_inside;
use crate::language::Language;
use crate::reader::Reader;
use crate::type_reader::type_expr;
use crate::types::TypeExpr;
use enc_base::{List, Name};
use std::alloc::Global;

/// How deep a word may nest.
pub const MAX_NESTING: usize = 400;

/// Why no declaration may stand where the levels are used up.
#[tactic(auto, using(crate::proofs::SkippedWords::no_stray_cause))]
fn declaration_limit(reader: &Reader<'_>) -> Fault
    ensures { cause result ≡ limit_cause descent.opens_declaration no_strays (seen reader.now) }
{
    if reader.sees_name() || reader.sees(Fixed::Open) {
        Fault::TooDeep
    } else {
        Fault::Syntax
    }
}

/// A declared name and its type, maybe in brackets, where so many levels are left.
#[cycle(declarations)]
fn declaration(
    alloc: Global,
    reader: &mut Reader<'_>,
    left: usize,
) -> Result<(Name, TypeExpr), Fault>
    ensures { Gives (descent.declaration_at left reader.old) result reader.new }
{
    if reader.sees_name() {
        let name = reader.name(alloc)?;
        reader.expect(Fixed::Colon)?;
        let body = type_expr(alloc, reader, left)?;
        return Ok((name, body));
    }
    reader.expect(Fixed::Open)?;
    let inner = declaration_inside(alloc, reader, left, 1)?;
    reader.expect(Fixed::Close)?;
    Ok(inner)
}

/// A declaration so many levels deeper, where `left` levels are left.
#[cycle(declarations)]
fn declaration_inside(
    alloc: Global,
    reader: &mut Reader<'_>,
    left: usize,
    levels: usize,
) -> Result<(Name, TypeExpr), Fault>
    requires { 0 < levels }
    ensures { Gives (descent.declaration_inside left levels reader.old) result reader.new }
{
    if left < levels {
        Err(declaration_limit(reader))
    } else {
        declaration(alloc, reader, left - levels)
    }
}

/// How many brackets are open behind the next word; `None` where it closes one that is not open.
fn open_behind(reader: &Reader<'_>, count: usize) -> Option<usize>
    requires word { readers.goes_on descent.any_word (seen reader.now) ≡ true }
    requires counted { count + 1 < 2 ^ 64 }
    ensures { result ≡ spec.open_first (seen reader.now) count }
{
    if reader.sees(Fixed::Open) {
        return Some(count + 1);
    }
    if reader.sees(Fixed::Close) {
        return count.checked_sub(1);
    }
    Some(count)
}

/// Whether so many open brackets and words make notes.
fn enough(count: usize, some: bool) -> Result<(), Fault>
    ensures { (s : _) → Gives (readers.enough count some s) result s }
{
    if some && count == 0 {
        Ok(())
    } else {
        Err(Fault::Syntax)
    }
}

/// One or more words in which the brackets match.
fn skip_words(reader: &mut Reader<'_>) -> Result<(), Fault>
    ensures { Gives (skip_balanced (descent.sees (codes "(")) (descent.sees (codes ")")) reader.old) result reader.new }
{
    reader.words_can_be_counted();
    let mut count = 0;
    let mut some = false;
    'words: while reader.sees_word() {
        match open_behind(reader, count) {
            Some(more) => count = more,
            None => return enough(0, some),
        }
        reader.advance();
        some = true;
    }
    enough(count, some)
}

fn notes(reader: &mut Reader<'_>) -> Result<(), Fault>
    ensures { Gives (descent.notes_at reader.old) result reader.new }
{
    if reader.sees(Fixed::Comma) {
        reader.expect(Fixed::Comma)?;
        skip_words(reader)?;
        return Ok(());
    }
    Ok(())
}

fn formula(alloc: Global, reader: &mut Reader<'_>, language: Language) -> Result<RawFormula, Fault>
    ensures { Gives (descent.formula_at language 400 reader.old) result reader.new }
{
    formula_inside(alloc, reader, language, MAX_NESTING + 1)
}

fn statement(
    alloc: Global,
    reader: &mut Reader<'_>,
    language: Language,
    name: Name,
) -> Result<Entry, Fault>
    ensures { Gives (descent.statement_at language 400 name reader.old) result reader.new }
{
    if reader.sees_role() {
        let role = reader.role()?;
        reader.expect(Fixed::Comma)?;
        let formula = formula(alloc, reader, language)?;
        return Ok(Entry::Statement {
            name,
            role,
            formula,
        });
    }
    Err(reader.stray_role(language))
}

fn tff_content(alloc: Global, reader: &mut Reader<'_>, name: Name) -> Result<Entry, Fault>
    ensures { Gives (descent.tff_content_at 400 name reader.old) result reader.new }
{
    if reader.sees(Fixed::Type) {
        reader.expect(Fixed::Type)?;
        reader.expect(Fixed::Comma)?;
        let (subject, body) = declaration(alloc, reader, MAX_NESTING)?;
        return Ok(Entry::Declaration {
            name,
            subject,
            body,
        });
    }
    statement(alloc, reader, Language::Tff, name)
}

fn content(
    alloc: Global,
    reader: &mut Reader<'_>,
    language: Language,
    name: Name,
) -> Result<Entry, Fault>
    ensures { Gives (descent.content_at language 400 name reader.old) result reader.new }
{
    match language {
        Language::Fof => statement(alloc, reader, Language::Fof, name),
        Language::Tff => tff_content(alloc, reader, name),
    }
}

/// What closes an entry.
fn ending(reader: &mut Reader<'_>) -> Result<(), Fault>
    ensures { Gives (descent.ending_at reader.old) result reader.new }
{
    notes(reader)?;
    reader.expect(Fixed::Close)?;
    reader.expect(Fixed::Dot)?;
    Ok(())
}

/// What stands behind the label, up to the full stop.
fn closed_content(
    alloc: Global,
    reader: &mut Reader<'_>,
    language: Language,
    name: Name,
) -> Result<Entry, Fault>
    ensures { Gives (descent.closed_content_at language 400 name reader.old) result reader.new }
{
    let entry = content(alloc, reader, language, name)?;
    ending(reader)?;
    Ok(entry)
}

fn annotated(alloc: Global, reader: &mut Reader<'_>) -> Result<Entry, Fault>
    ensures { Gives (descent.annotated_at 400 reader.old) result reader.new }
{
    let language = reader.language()?;
    reader.expect(Fixed::Open)?;
    let name = reader.label(alloc)?;
    reader.expect(Fixed::Comma)?;
    closed_content(alloc, reader, language, name)
}

fn entry(alloc: Global, reader: &mut Reader<'_>) -> Result<Entry, Fault>
    ensures { Gives (descent.entry_at 400 reader.old) result reader.new }
{
    if reader.sees_language() {
        return annotated(alloc, reader);
    }
    Err(reader.stray_language())
}

fn entries(alloc: Global, reader: &mut Reader<'_>) -> Result<List<Entry>, Fault>
    ensures { Gives (many_at descent.any_word (descent.entry_at 400) [] reader.old) result reader.new }
{
    let mut found = List::new(alloc);
    'items: while reader.sees_word() {
        let item = entry(alloc, reader)?;
        found.push(item)?;
    }
    Ok(found)
}

/// All entries up to the last word.
pub fn file(alloc: Global, reader: &mut Reader<'_>) -> Result<File, Fault>
    ensures { Gives (descent.file_at 400 reader.old) result reader.new }
{
    let entries = entries(alloc, reader)?;
    Ok(File { entries })
}
