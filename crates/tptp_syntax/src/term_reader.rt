//! The reader of terms, atoms and equations.
#![tactic(auto, unfolding(tptp_phrases::specs::Readers::seq, tptp_phrases::specs::Readers::choose, tptp_phrases::specs::Readers::give, tptp_phrases::specs::Readers::refuse_stray, crate::specs::Descent::term_at))]

ghost use Rattle.std.specs.Prelude.{◌≡◌, ◌<◌, codes};
ghost use Rattle.tptp_words.specs.Words.{mark};
ghost use Rattle.tptp_phrases.specs.Readers.{goes_on, many_at, behind, limit_cause, seen};
ghost use Rattle.tptp_syntax.specs.declared.term.RawTerm.TheVariants as t;
ghost use Rattle.tptp_syntax.specs.Strays.{stray_term};
ghost use Rattle.tptp_syntax.specs.Descent as descent;
ghost use Rattle.tptp_syntax.specs.Ahead.{Gives, cause};

use crate::fault::Fault;
use crate::fixed::Fixed;
use crate::formula::RawFormula;
use crate::reader::Reader;
use crate::term::RawTerm;
use enc_base::{List, Name};
use std::alloc::Global;

/// Why no term may stand where the levels are used up.
fn term_limit(reader: &Reader<'_>) -> Fault
    ensures { cause result ≡ limit_cause descent.opens_term stray_term (seen reader.now) }
{
    if reader.sees_variable() || reader.sees_name() || reader.sees(Fixed::Individuals) {
        Fault::TooDeep
    } else {
        reader.stray_term()
    }
}

/// A term, where so many levels are left.
#[cycle(terms)]
fn term(alloc: Global, reader: &mut Reader<'_>, left: usize) -> Result<RawTerm, Fault>
    ensures { Gives (descent.term_at left reader.old) result reader.new }
{
    if reader.sees_variable() {
        let name = reader.variable(alloc)?;
        return Ok(RawTerm::Variable(name));
    }
    if reader.sees_name() {
        return applied_term(alloc, reader, left);
    }
    if reader.sees(Fixed::Individuals) {
        reader.expect(Fixed::Individuals)?;
        return Ok(RawTerm::Individuals);
    }
    Err(reader.stray_term())
}

/// A term so many levels deeper, where `left` levels are left.
#[cycle(terms)]
fn term_inside(
    alloc: Global,
    reader: &mut Reader<'_>,
    left: usize,
    levels: usize,
) -> Result<RawTerm, Fault>
    requires { 0 < levels }
    ensures { Gives (descent.term_inside left levels reader.old) result reader.new }
{
    if left < levels {
        Err(term_limit(reader))
    } else {
        term(alloc, reader, left - levels)
    }
}

#[cycle(terms)]
fn applied_term(alloc: Global, reader: &mut Reader<'_>, left: usize) -> Result<RawTerm, Fault>
    ensures { Gives (descent.application_at t.Apply (descent.term_inside left 1) reader.old) result reader.new }
{
    let name = reader.name(alloc)?;
    if reader.sees(Fixed::Open) {
        let terms = arguments(alloc, reader, left)?;
        Ok(RawTerm::Apply(name, terms))
    } else {
        Ok(RawTerm::Apply(name, List::new(alloc)))
    }
}

#[cycle(terms)]
fn arguments(alloc: Global, reader: &mut Reader<'_>, left: usize) -> Result<List<RawTerm>, Fault>
    ensures { Gives (descent.arguments_at (descent.term_inside left 1) reader.old) result reader.new }
{
    reader.expect(Fixed::Open)?;
    let terms = listed(alloc, reader, left)?;
    reader.expect(Fixed::Close)?;
    Ok(terms)
}

#[cycle(terms)]
fn listed(alloc: Global, reader: &mut Reader<'_>, left: usize) -> Result<List<RawTerm>, Fault>
    ensures { Gives (descent.listed_at (descent.term_inside left 1) reader.old) result reader.new }
{
    let first = term_inside(alloc, reader, left, 1)?;
    let mut found = List::new(alloc);
    found.push(first)?;
    more(alloc, reader, left, found)
}

#[cycle(terms)]
fn next(alloc: Global, reader: &mut Reader<'_>, left: usize) -> Result<RawTerm, Fault>
    ensures { Gives (behind (mark (codes ",")) (descent.term_inside left 1) reader.old) result reader.new }
{
    reader.expect(Fixed::Comma)?;
    term_inside(alloc, reader, left, 1)
}

#[cycle(terms)]
fn more(
    alloc: Global,
    reader: &mut Reader<'_>,
    left: usize,
    mut found: List<RawTerm>,
) -> Result<List<RawTerm>, Fault>
    ensures { Gives (many_at (descent.sees (codes ",")) (behind (mark (codes ",")) (descent.term_inside left 1)) found reader.old) result reader.new }
{
    'items: while reader.sees(Fixed::Comma) {
        let item = next(alloc, reader, left)?;
        found.push(item)?;
    }
    Ok(found)
}

/// A name and its arguments.
fn applied(
    alloc: Global,
    reader: &mut Reader<'_>,
    left: usize,
) -> Result<(Name, List<RawTerm>), Fault>
    ensures { Gives (descent.applied_at left reader.old) result reader.new }
{
    let name = reader.name(alloc)?;
    if reader.sees(Fixed::Open) {
        let terms = arguments(alloc, reader, left)?;
        Ok((name, terms))
    } else {
        Ok((name, List::new(alloc)))
    }
}

/// A term that is no application.
fn other_term(alloc: Global, reader: &mut Reader<'_>) -> Result<RawTerm, Fault>
    ensures { Gives (descent.other_term_at reader.old) result reader.new }
{
    if reader.sees_variable() {
        let name = reader.variable(alloc)?;
        return Ok(RawTerm::Variable(name));
    }
    if reader.sees(Fixed::Individuals) {
        reader.expect(Fixed::Individuals)?;
        return Ok(RawTerm::Individuals);
    }
    Err(reader.stray_term())
}

/// The equation that begins with this term.
fn equation(
    alloc: Global,
    reader: &mut Reader<'_>,
    left: usize,
    first: RawTerm,
) -> Result<RawFormula, Fault>
    ensures { Gives (descent.equation_at left first reader.old) result reader.new }
{
    if reader.sees(Fixed::Equal) {
        reader.expect(Fixed::Equal)?;
        let second = term(alloc, reader, left)?;
        return Ok(RawFormula::Equal(first, second));
    }
    reader.expect(Fixed::Unequal)?;
    let second = term(alloc, reader, left)?;
    Ok(RawFormula::Unequal(first, second))
}

/// Whether a sign of an equation stands next.
fn equates(reader: &Reader<'_>) -> bool
    ensures { result ≡ goes_on descent.equates (seen reader.now) }
{
    reader.sees(Fixed::Equal) || reader.sees(Fixed::Unequal)
}

/// An atom or an equation, where so many levels are left.
pub fn literal(alloc: Global, reader: &mut Reader<'_>, left: usize) -> Result<RawFormula, Fault>
    ensures { Gives (descent.literal_at left reader.old) result reader.new }
{
    if reader.sees_name() {
        let (name, terms) = applied(alloc, reader, left)?;
        if equates(reader) {
            return equation(alloc, reader, left, RawTerm::Apply(name, terms));
        }
        return Ok(RawFormula::Atom(name, terms));
    }
    let first = other_term(alloc, reader)?;
    equation(alloc, reader, left, first)
}
