//! The reader of types.
#![tactic(auto, unfolding(tptp_phrases::specs::Readers::seq, tptp_phrases::specs::Readers::choose, tptp_phrases::specs::Readers::give, tptp_phrases::specs::Readers::refuse_stray, crate::specs::Descent::type_at))]

ghost use Rattle.std.specs.Prelude.{◌≡◌, ◌<◌, [], ◌∷◌, length, IfOk, codes};
ghost use Rattle.tptp_words.specs.Words.{mark};
ghost use Rattle.tptp_phrases.specs.Readers.{many_at, behind, limit_cause, seen};
ghost use Rattle.tptp_syntax.specs.declared.types.TypeExpr.TheVariants as y;
ghost use Rattle.tptp_syntax.specs.Strays.{stray_type};
ghost use Rattle.tptp_syntax.specs.Descent as descent;
ghost use Rattle.tptp_syntax.specs.Ahead.{Gives, cause};

use crate::fault::Fault;
use crate::fixed::Fixed;
use crate::reader::Reader;
use crate::types::{Bound, TypeExpr};
use enc_base::{Boxed, List};
use std::alloc::Global;

/// The type variable with its `$tType`.
fn type_variable(alloc: Global, reader: &mut Reader<'_>) -> Result<Bound, Fault>
    ensures { Gives (descent.type_variable_at reader.old) result reader.new }
{
    let name = reader.variable(alloc)?;
    reader.expect(Fixed::Colon)?;
    reader.expect(Fixed::Types)?;
    Ok(Bound {
        name,
        kind: Some(TypeExpr::Types),
    })
}

fn next_variable(alloc: Global, reader: &mut Reader<'_>) -> Result<Bound, Fault>
    ensures { Gives (behind (mark (codes ",")) descent.type_variable_at reader.old) result reader.new }
{
    reader.expect(Fixed::Comma)?;
    type_variable(alloc, reader)
}

/// One or more type variables.
fn type_variables(alloc: Global, reader: &mut Reader<'_>) -> Result<List<Bound>, Fault>
    ensures found { Gives (descent.listed_at descent.type_variable_at reader.old) result reader.new }
    ensures some { IfOk result (λ it. 0 < length it) }
{
    let first = type_variable(alloc, reader)?;
    let mut found = List::new(alloc);
    found.push(first)?;
    'variables: while reader.sees(Fixed::Comma) {
        let variable = next_variable(alloc, reader)?;
        found.push(variable)?;
    }
    Ok(found)
}

/// Why no type may stand where the levels are used up.
fn type_limit(reader: &Reader<'_>) -> Fault
    ensures { cause result ≡ limit_cause descent.opens_type stray_type (seen reader.now) }
{
    if reader.sees(Fixed::TypeForAll)
        || reader.sees_variable()
        || reader.sees_name()
        || reader.sees(Fixed::Individuals)
        || reader.sees(Fixed::Truth)
        || reader.sees(Fixed::Types)
        || reader.sees(Fixed::Open)
    {
        Fault::TooDeep
    } else {
        reader.stray_type()
    }
}

/// A type, where so many levels are left.
#[cycle(types)]
pub fn type_expr(alloc: Global, reader: &mut Reader<'_>, left: usize) -> Result<TypeExpr, Fault>
    ensures { Gives (descent.type_at left reader.old) result reader.new }
{
    if reader.sees(Fixed::TypeForAll) {
        return quantified(alloc, reader, left);
    }
    let first = product(alloc, reader, left)?;
    if reader.sees(Fixed::Greater) {
        reader.expect(Fixed::Greater)?;
        let result = unit_type(alloc, reader, left)?;
        return Ok(TypeExpr::Map(Boxed::new(alloc, first)?, Boxed::new(alloc, result)?));
    }
    Ok(first)
}

#[cycle(types)]
fn quantified(alloc: Global, reader: &mut Reader<'_>, left: usize) -> Result<TypeExpr, Fault>
    ensures { Gives (descent.quantified_at (codes "!>") y.Quantified descent.type_variable_at (descent.type_inside left) reader.old) result reader.new }
{
    reader.expect(Fixed::TypeForAll)?;
    reader.expect(Fixed::OpenSquare)?;
    let variables = type_variables(alloc, reader)?;
    reader.expect(Fixed::CloseSquare)?;
    reader.expect(Fixed::Colon)?;
    let body = type_inside(alloc, reader, left, variables.as_slice().len())?;
    Ok(TypeExpr::Quantified(variables, Boxed::new(alloc, body)?))
}

/// A type so many levels deeper, where `left` levels are left.
#[cycle(types)]
fn type_inside(
    alloc: Global,
    reader: &mut Reader<'_>,
    left: usize,
    levels: usize,
) -> Result<TypeExpr, Fault>
    requires { 0 < levels }
    ensures { Gives (descent.type_inside left levels reader.old) result reader.new }
{
    if left < levels {
        Err(type_limit(reader))
    } else {
        type_expr(alloc, reader, left - levels)
    }
}

#[cycle(types)]
fn product(alloc: Global, reader: &mut Reader<'_>, left: usize) -> Result<TypeExpr, Fault>
    ensures { Gives (descent.product_at (descent.unit_type_at (descent.type_inside left 1)) reader.old) result reader.new }
{
    let first = unit_type(alloc, reader, left)?;
    if reader.sees(Fixed::Star) {
        let parts = parts(alloc, reader, left, first)?;
        return Ok(TypeExpr::Product(parts));
    }
    Ok(first)
}

/// The parts of a product with at least two, of which the first is read.
#[cycle(types)]
fn parts(
    alloc: Global,
    reader: &mut Reader<'_>,
    left: usize,
    first: TypeExpr,
) -> Result<List<TypeExpr>, Fault>
    ensures { Gives (descent.parts_at (mark (codes "*")) (descent.unit_type_at (descent.type_inside left 1)) first reader.old) result reader.new }
{
    reader.expect(Fixed::Star)?;
    let second = unit_type(alloc, reader, left)?;
    let mut found = List::new(alloc);
    found.push(first)?;
    found.push(second)?;
    more_parts(alloc, reader, left, found)
}

#[cycle(types)]
fn next_part(alloc: Global, reader: &mut Reader<'_>, left: usize) -> Result<TypeExpr, Fault>
    ensures { Gives (behind (mark (codes "*")) (descent.unit_type_at (descent.type_inside left 1)) reader.old) result reader.new }
{
    reader.expect(Fixed::Star)?;
    unit_type(alloc, reader, left)
}

#[cycle(types)]
fn more_parts(
    alloc: Global,
    reader: &mut Reader<'_>,
    left: usize,
    mut found: List<TypeExpr>,
) -> Result<List<TypeExpr>, Fault>
    ensures { Gives (many_at (descent.sees (codes "*")) (behind (mark (codes "*")) (descent.unit_type_at (descent.type_inside left 1))) found reader.old) result reader.new }
{
    'items: while reader.sees(Fixed::Star) {
        let item = next_part(alloc, reader, left)?;
        found.push(item)?;
    }
    Ok(found)
}

#[cycle(types)]
fn unit_type(alloc: Global, reader: &mut Reader<'_>, left: usize) -> Result<TypeExpr, Fault>
    ensures { Gives (descent.unit_type_at (descent.type_inside left 1) reader.old) result reader.new }
{
    if reader.sees_variable() {
        let name = reader.variable(alloc)?;
        return Ok(TypeExpr::Variable(name));
    }
    if reader.sees_name() {
        return applied(alloc, reader, left);
    }
    if reader.sees(Fixed::Individuals) {
        reader.expect(Fixed::Individuals)?;
        return Ok(TypeExpr::Individuals);
    }
    if reader.sees(Fixed::Truth) {
        reader.expect(Fixed::Truth)?;
        return Ok(TypeExpr::Truth);
    }
    if reader.sees(Fixed::Types) {
        reader.expect(Fixed::Types)?;
        return Ok(TypeExpr::Types);
    }
    if reader.sees(Fixed::Open) {
        return bracketed(alloc, reader, left);
    }
    Err(reader.stray_type())
}

#[cycle(types)]
fn bracketed(alloc: Global, reader: &mut Reader<'_>, left: usize) -> Result<TypeExpr, Fault>
    ensures { Gives (descent.bracketed_at (descent.type_inside left 1) reader.old) result reader.new }
{
    reader.expect(Fixed::Open)?;
    let inner = type_inside(alloc, reader, left, 1)?;
    reader.expect(Fixed::Close)?;
    Ok(inner)
}

#[cycle(types)]
fn applied(alloc: Global, reader: &mut Reader<'_>, left: usize) -> Result<TypeExpr, Fault>
    ensures { Gives (descent.application_at y.Apply (descent.type_inside left 1) reader.old) result reader.new }
{
    let name = reader.name(alloc)?;
    if reader.sees(Fixed::Open) {
        let types = arguments(alloc, reader, left)?;
        Ok(TypeExpr::Apply(name, types))
    } else {
        Ok(TypeExpr::Apply(name, List::new(alloc)))
    }
}

#[cycle(types)]
fn arguments(alloc: Global, reader: &mut Reader<'_>, left: usize) -> Result<List<TypeExpr>, Fault>
    ensures { Gives (descent.arguments_at (descent.type_inside left 1) reader.old) result reader.new }
{
    reader.expect(Fixed::Open)?;
    let types = listed(alloc, reader, left)?;
    reader.expect(Fixed::Close)?;
    Ok(types)
}

#[cycle(types)]
fn listed(alloc: Global, reader: &mut Reader<'_>, left: usize) -> Result<List<TypeExpr>, Fault>
    ensures { Gives (descent.listed_at (descent.type_inside left 1) reader.old) result reader.new }
{
    let first = type_inside(alloc, reader, left, 1)?;
    let mut found = List::new(alloc);
    found.push(first)?;
    more(alloc, reader, left, found)
}

#[cycle(types)]
fn next(alloc: Global, reader: &mut Reader<'_>, left: usize) -> Result<TypeExpr, Fault>
    ensures { Gives (behind (mark (codes ",")) (descent.type_inside left 1) reader.old) result reader.new }
{
    reader.expect(Fixed::Comma)?;
    type_inside(alloc, reader, left, 1)
}

#[cycle(types)]
fn more(
    alloc: Global,
    reader: &mut Reader<'_>,
    left: usize,
    mut found: List<TypeExpr>,
) -> Result<List<TypeExpr>, Fault>
    ensures { Gives (many_at (descent.sees (codes ",")) (behind (mark (codes ",")) (descent.type_inside left 1)) found reader.old) result reader.new }
{
    'items: while reader.sees(Fixed::Comma) {
        let item = next(alloc, reader, left)?;
        found.push(item)?;
    }
    Ok(found)
}
