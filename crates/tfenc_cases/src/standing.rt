//! Which argument places are covers, how the variables of binders stand, and the first naked place.

ghost use Rattle.std.specs.Prelude.{◌≡◌, map};
ghost use Rattle.tf_core.specs.Sound.{IsSound, IsSoundNormal};
ghost use Rattle.tf_naked.specs.Covers.{covers};

use crate::binders::binders_at;
use crate::call::Call;
use crate::given::{normal_of, problem_of};
use crate::out::Out;
use crate::stop::Stop;
use enc_base::List;
use enc_cover::{cover_of, is_undercover};
use std::alloc::Global;
use tf_core::{Normal, Problem, Symbol};
use tf_naked::{Binder, Place, covers_of_symbols, first_naked, kept_of_symbol, universal_binders};

/// Whether the call is one of this layer, which is then made.
pub fn answer(name: &[u8], call: &mut Call<'_>, out: &mut Out) -> Result<bool, Stop> {
    if name == b"covers".as_slice() {
        cover_places(call, out)?;
    } else if name == b"cover_of".as_slice() {
        covers_of_parameters(call, out)?;
    } else if name == b"binders".as_slice() {
        binders(call, out)?;
    } else if name == b"is_undercover".as_slice() {
        undercover(call, out)?;
    } else if name == b"first_naked".as_slice() {
        first_naked_place(call, out)?;
    } else {
        return Ok(false);
    }
    Ok(true)
}

// of each symbol whether its argument places are covers, and whether its parameters are kept
fn cover_places(call: &Call<'_>, out: &mut Out) -> Result<(), Stop> {
    let problem = problem_of(call.alloc, call.text())?;
    if !problem.signature.check() {
        return Err(Stop::Shape);
    }
    let rows = covers_of_symbols(call.alloc, &problem.signature)?;
    for (i, symbol) in problem.signature.symbols.as_slice().iter().enumerate() {
        let kept = kept_of_symbol(call.alloc, symbol)?;
        out.begin();
        out.name(&symbol.name);
        if let Some(row) = rows.as_slice().get(i) {
            put_flags(out, b": covers", row.as_slice());
        }
        put_flags(out, b", kept", kept.as_slice());
        out.end();
    }
    Ok(())
}

// words, and answers to a question of each of some things
fn put_flags(out: &mut Out, words: &[u8], flags: &[bool]) {
    out.put(words);
    for flag in flags {
        put_flag(out, *flag);
    }
    if flags.is_empty() {
        out.put(b" -");
    }
}

fn put_flag(out: &mut Out, flag: bool) {
    out.put(if flag { b" yes" } else { b" no" });
}

// of each symbol the cover of each of its parameters
fn covers_of_parameters(call: &Call<'_>, out: &mut Out) -> Result<(), Stop> {
    let problem = problem_of(call.alloc, call.text())?;
    for symbol in problem.signature.symbols.as_slice() {
        put_covers(out, symbol)?;
    }
    Ok(())
}

fn put_covers(out: &mut Out, symbol: &Symbol) -> Result<(), Stop> {
    if symbol.arguments.as_slice().len() >= 1 << 28 {
        return Err(Stop::Shape);
    }
    out.begin();
    out.name(&symbol.name);
    out.put(if symbol.parameters > 0 { b":" } else { b": -" });
    for parameter in 0..symbol.parameters {
        put_cover(out, cover_of(symbol, parameter));
    }
    out.end();
    Ok(())
}

fn put_cover(out: &mut Out, cover: Option<u32>) {
    out.put(b" ");
    match cover {
        Some(place) => out.show(&place),
        None => out.put(b"none"),
    }
}

// of each formula how the variables of its universal binders stand
fn binders(call: &Call<'_>, out: &mut Out) -> Result<(), Stop> {
    let problem = problem_of(call.alloc, call.text())?;
    put_normal(out, &problem)
}

fn put_normal(out: &mut Out, problem: &Problem) -> Result<(), Stop>
    requires sound { IsSound problem.now }
{
    let normal = normal_of(out.alloc, problem)?;
    put_rows(out, &normal)
}

fn put_rows(out: &mut Out, normal: &Normal) -> Result<(), Stop> {
    if !normal.signature.check() {
        return Err(Stop::Shape);
    }
    let rows = covers_of_symbols(out.alloc, &normal.signature)?;
    put_formulas(out.alloc, normal, rows.as_slice(), out)
}

fn put_formulas(
    alloc: Global,
    normal: &Normal,
    rows: &[List<bool>],
    out: &mut Out,
) -> Result<(), Stop>
    requires rows { rows.now ≡ map covers normal.now.signature.symbols }
{
    for formula in normal.formulas.as_slice() {
        let found = universal_binders(alloc, &normal.signature, rows, &formula.body)?;
        out.begin();
        out.name(&formula.name);
        put_binders(out, found.as_slice());
        out.end();
    }
    Ok(())
}

fn put_binders(out: &mut Out, binders: &[Binder]) {
    let mut before: &[u8] = b": ";
    for binder in binders {
        out.put(before);
        out.put(word_of(binder));
        before = b", ";
    }
    if binders.is_empty() {
        out.put(b": -");
    }
}

fn word_of(binder: &Binder) -> &'static [u8] {
    if binder.naked {
        b"naked"
    } else if binder.undercover {
        b"undercover"
    } else {
        b"open"
    }
}

// of each formula whether the variables of its binders are undercover
fn undercover(call: &Call<'_>, out: &mut Out) -> Result<(), Stop> {
    let problem = problem_of(call.alloc, call.text())?;
    put_undercover(out, &problem)
}

fn put_undercover(out: &mut Out, problem: &Problem) -> Result<(), Stop>
    requires sound { IsSound problem.now }
{
    let normal = normal_of(out.alloc, problem)?;
    put_undercover_rows(out, &normal);
    Ok(())
}

fn put_undercover_rows(out: &mut Out, normal: &Normal)
    requires sound { IsSoundNormal normal.now }
{
    for (i, formula) in normal.formulas.as_slice().iter().enumerate() {
        out.begin();
        out.name(&formula.name);
        put_undercover_at(out, normal, i);
        out.end();
    }
}

fn put_undercover_at(out: &mut Out, normal: &Normal, formula: usize)
    requires sound { IsSoundNormal normal.now }
{
    let count = binders_at(normal, formula);
    out.put(if count > 0 { b":" } else { b": -" });
    for binder in 0..count {
        put_flag(out, is_undercover(normal, formula, binder));
    }
}

// the first naked place of the normal problem
fn first_naked_place(call: &Call<'_>, out: &mut Out) -> Result<(), Stop> {
    let problem = problem_of(call.alloc, call.text())?;
    put_first_naked(out, &problem)
}

fn put_first_naked(out: &mut Out, problem: &Problem) -> Result<(), Stop>
    requires sound { IsSound problem.now }
{
    let normal = normal_of(out.alloc, problem)?;
    match first_naked(&normal) {
        Some(place) => put_place(out, &place),
        None => out.line(b"none"),
    }
    Ok(())
}

fn put_place(out: &mut Out, place: &Place) {
    out.begin();
    out.put(b"formula ");
    out.show(&place.formula);
    out.put(b" equation ");
    out.show(&place.equation);
    out.put(b" side ");
    out.show(&place.side);
    out.end();
}
