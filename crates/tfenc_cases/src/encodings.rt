//! Translations, their symbols, and names.

ghost use Rattle.fof_models.specs.Sound.{IsSound};
ghost use Rattle.fof_text.specs.States.{AreNamed};

use crate::call::Call;
use crate::encoding::{Encoding, encoding_of};
use crate::instances::types_of;
use crate::models::ROOM;
use crate::out::Out;
use crate::put_tables::kind_word;
use crate::stop::Stop;
use enc_base::{List, MemorySink, Name};
use enc_marks::{Mark, type_term};
use fof_models::{FofProblem, FofSymbol, FofTerm};
use fof_text::{Names, write_problem};
use std::alloc::Global;
use tf_core::Ty;

/// Whether the call is one of this layer, which is then made.
pub fn answer(name: &[u8], call: &mut Call<'_>, out: &mut Out) -> Result<bool, Stop> {
    match name {
        b"encode" => encode(call, out)?,
        b"marks" => marks(call, out)?,
        b"fof_counts" => counts(call, out)?,
        b"type_term" => term_of_type(call, out)?,
        b"names" => names(call, out)?,
        _ => return Ok(false),
    }
    Ok(true)
}

fn encode(call: &mut Call<'_>, out: &mut Out) -> Result<(), Stop> {
    let which = call.scheme()?;
    let encoding = encoding_of(call.alloc, &which, call.text())?;
    put_written(out, &encoding)
}

fn put_written(out: &mut Out, encoding: &Encoding) -> Result<(), Stop>
    requires sound { IsSound encoding.now.encoded.problem }
    requires named { AreNamed encoding.now.names encoding.now.encoded.problem }
{
    let mut sink = MemorySink::new(out.alloc, ROOM, List::new(out.alloc))?;
    if write_problem(&encoding.encoded.problem, &encoding.names, &mut sink).is_err() {
        return Err(Stop::Shape);
    }
    out.text(sink.written());
    Ok(())
}

fn marks(call: &mut Call<'_>, out: &mut Out) -> Result<(), Stop> {
    let which = call.scheme()?;
    let encoding = encoding_of(call.alloc, &which, call.text())?;
    put_marks(out, &encoding);
    Ok(())
}

fn put_marks(out: &mut Out, encoding: &Encoding) {
    let symbols = encoding.encoded.problem.signature.as_slice().iter();
    let named = symbols.zip(encoding.names.as_slice().iter());
    for ((symbol, name), mark) in named.zip(encoding.encoded.marks.as_slice().iter()) {
        put_marked(out, symbol, name, mark);
    }
}

// a line for a symbol
fn put_marked(out: &mut Out, symbol: &FofSymbol, name: &Name, mark: &Mark) {
    out.begin();
    out.name(name);
    out.put(b"/");
    out.show(&symbol.arity);
    out.put(b" ");
    out.put(kind_word(symbol));
    put_mark(out, mark);
    if !name.same(&symbol.wanted) {
        out.put(b", wants ");
        out.name(&symbol.wanted);
    }
    out.end();
}

fn put_mark(out: &mut Out, mark: &Mark) {
    match mark {
        Mark::Symbol(number) => put_numbered(out, b"Symbol ", *number),
        Mark::Constructor(number) => put_numbered(out, b"Constructor ", *number),
        Mark::Guard => out.put(b"Guard"),
        Mark::Tag => out.put(b"Tag"),
        Mark::SortGuard(number) => put_numbered(out, b"SortGuard ", *number),
        Mark::SortTag(number) => put_numbered(out, b"SortTag ", *number),
    }
}

fn put_numbered(out: &mut Out, word: &[u8], number: u32) {
    out.put(word);
    out.show(&number);
}

fn counts(call: &mut Call<'_>, out: &mut Out) -> Result<(), Stop> {
    let which = call.scheme()?;
    let encoding = encoding_of(call.alloc, &which, call.text())?;
    put_counts(out, &encoding.encoded.problem);
    Ok(())
}

fn put_counts(out: &mut Out, problem: &FofProblem)
    requires sound { IsSound problem.now }
{
    out.begin();
    out.put(b"sound ");
    out.show(&problem.is_sound());
    out.put(b", most terms ");
    out.show(&problem.most_terms());
    out.put(b", formulas ");
    out.show(&problem.formulas.as_slice().len());
    out.end();
}

fn term_of_type(call: &mut Call<'_>, out: &mut Out) -> Result<(), Stop> {
    let which = call.scheme()?;
    let depth = call.number()?;
    let text = call.texts.problem.as_slice();
    let encoding = encoding_of(call.alloc, &which, text)?;
    let types = types_of(call.alloc, text, call.rest)?;
    put_type_terms(out, &encoding, types.as_slice(), depth)
}

fn put_type_terms(
    out: &mut Out,
    encoding: &Encoding,
    types: &[Ty],
    depth: u32,
) -> Result<(), Stop> {
    let marks = encoding.encoded.marks.as_slice();
    if marks.len() > u32::MAX as usize {
        return Err(Stop::Shape);
    }
    for ty in types {
        let term = type_term(out.alloc, ty, marks, depth)?;
        out.begin();
        put_term(out, &encoding.names, &term);
        out.end();
    }
    Ok(())
}

#[cycle(put_term)]
fn put_term(out: &mut Out, names: &Names, term: &FofTerm) {
    match term {
        FofTerm::Var(i) => put_numbered(out, b"#", *i),
        FofTerm::Apply(symbol, terms) => {
            match names.as_slice().get(*symbol as usize) {
                Some(name) => out.name(name),
                None => put_numbered(out, b"?", *symbol),
            }
            put_terms(out, names, terms.as_slice())
        }
    }
}

// terms in brackets, or nothing where there are none
#[cycle(put_term)]
fn put_terms(out: &mut Out, names: &Names, terms: &[FofTerm]) {
    let mut before: &[u8] = b"(";
    for term in terms {
        out.put(before);
        put_term(out, names, term);
        before = b",";
    }
    out.put(if terms.is_empty() { b"" } else { b")" })
}

fn names(call: &mut Call<'_>, out: &mut Out) -> Result<(), Stop> {
    let wanted = wanting(call.alloc, call.rest)?;
    let names = Names::choose(call.alloc, wanted.as_slice())?;
    put_names(out, names.as_slice());
    Ok(())
}

// for each word a symbol that wants it for its name
fn wanting(alloc: Global, words: &[u8]) -> Result<Vec<FofSymbol>, Stop> {
    let mut symbols = Vec::new(alloc);
    for word in words.split(|byte| *byte == b' ') {
        symbols.push(FofSymbol {
            wanted: Name::from_slice(alloc, word)?,
            arity: 0,
            predicate: false,
        })?;
    }
    Ok(symbols)
}

fn put_names(out: &mut Out, names: &[Name]) {
    out.begin();
    for (i, name) in names.iter().enumerate() {
        out.put(if i == 0 { b"" } else { b" " });
        out.name(name);
    }
    out.end();
}
