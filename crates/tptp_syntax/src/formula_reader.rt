//! The reader of formulas.
#![tactic(auto, unfolding(tptp_phrases::specs::Readers::seq, tptp_phrases::specs::Readers::choose, tptp_phrases::specs::Readers::give, tptp_phrases::specs::Readers::refuse_stray, crate::specs::Descent::unit_at))]

ghost use Rattle.std.specs.Prelude.{◌≡◌, ◌<◌, length, IfOk, codes};
ghost use Rattle.tptp_words.specs.Words.{mark};
ghost use Rattle.tptp_phrases.specs.Readers.{goes_on, takes, many_at, behind, limit_cause, seen};
ghost use Rattle.tptp_syntax.specs.declared.formula.RawFormula.TheVariants as f;
ghost use Rattle.tptp_syntax.specs.Strays.{stray_term};
ghost use Rattle.tptp_syntax.specs.Grammar.{joined};
ghost use Rattle.tptp_syntax.specs.Descent as descent;
ghost use Rattle.tptp_syntax.specs.Ahead as spec;
ghost use Rattle.tptp_syntax.specs.Ahead.{Gives, cause};

use crate::fault::Fault;
use crate::fixed::Fixed;
use crate::formula::RawFormula;
use crate::language::{Connective, Language};
use crate::reader::Reader;
use crate::term_reader::literal;
use crate::type_reader::type_expr;
use crate::types::Bound;
use enc_base::{Boxed, List, NoMemory};
use std::alloc::Global;

/// A bound variable; in `tff` maybe with its type.
fn bound(
    alloc: Global,
    reader: &mut Reader<'_>,
    language: Language,
    left: usize,
) -> Result<Bound, Fault>
    ensures { Gives (descent.bound_at language left reader.old) result reader.new }
{
    match language {
        Language::Fof => untyped(alloc, reader),
        Language::Tff => typed(alloc, reader, left),
    }
}

fn untyped(alloc: Global, reader: &mut Reader<'_>) -> Result<Bound, Fault>
    ensures { Gives (descent.untyped_at reader.old) result reader.new }
{
    let name = reader.variable(alloc)?;
    Ok(Bound { name, kind: None })
}

fn typed(alloc: Global, reader: &mut Reader<'_>, left: usize) -> Result<Bound, Fault>
    ensures { Gives (descent.typed_at left reader.old) result reader.new }
{
    let name = reader.variable(alloc)?;
    if reader.sees(Fixed::Colon) {
        reader.expect(Fixed::Colon)?;
        let kind = type_expr(alloc, reader, left)?;
        return Ok(Bound {
            name,
            kind: Some(kind),
        });
    }
    Ok(Bound { name, kind: None })
}

fn next_bound(
    alloc: Global,
    reader: &mut Reader<'_>,
    language: Language,
    left: usize,
) -> Result<Bound, Fault>
    ensures { Gives (behind (mark (codes ",")) (descent.bound_at language left) reader.old) result reader.new }
{
    reader.expect(Fixed::Comma)?;
    bound(alloc, reader, language, left)
}

/// One or more bound variables.
fn variables(
    alloc: Global,
    reader: &mut Reader<'_>,
    language: Language,
    left: usize,
) -> Result<List<Bound>, Fault>
    ensures found { Gives (descent.listed_at (descent.bound_at language left) reader.old) result reader.new }
    ensures some { IfOk result (λ it. 0 < length it) }
{
    let first = bound(alloc, reader, language, left)?;
    let mut found = List::new(alloc);
    found.push(first)?;
    'variables: while reader.sees(Fixed::Comma) {
        let variable = next_bound(alloc, reader, language, left)?;
        found.push(variable)?;
    }
    Ok(found)
}

/// Whether a word stands next that begins an atom or an equation.
fn opens_literal(reader: &Reader<'_>) -> bool
    ensures { result ≡ goes_on descent.opens_literal (seen reader.now) }
{
    reader.sees_name() || reader.sees_variable() || reader.sees(Fixed::Individuals)
}

/// Why no unit may stand where the levels are used up.
fn unit_limit(reader: &Reader<'_>) -> Fault
    ensures { cause result ≡ limit_cause descent.opens_unit stray_term (seen reader.now) }
{
    if reader.sees(Fixed::ForAll)
        || reader.sees(Fixed::Exists)
        || reader.sees(Fixed::Not)
        || reader.sees(Fixed::True)
        || reader.sees(Fixed::False)
        || reader.sees(Fixed::Open)
        || opens_literal(reader)
    {
        Fault::TooDeep
    } else {
        reader.stray_term()
    }
}

/// Whether a connective stands next.
fn joins(reader: &Reader<'_>) -> bool
    ensures { result ≡ goes_on descent.joins (seen reader.now) }
{
    reader.sees(Fixed::And) || reader.sees(Fixed::Or) || reader.sees_connective()
}

/// The two formulas, joined.
fn join(
    alloc: Global,
    connective: Connective,
    first: RawFormula,
    second: RawFormula,
) -> Result<RawFormula, NoMemory>
    ensures { IfOk result (λ it. it ≡ joined connective first second) }
{
    let first = Boxed::new(alloc, first)?;
    let second = Boxed::new(alloc, second)?;
    Ok(match connective {
        Connective::Implies => RawFormula::Implies(first, second),
        Connective::If => RawFormula::If(first, second),
        Connective::Iff => RawFormula::Iff(first, second),
        Connective::Xor => RawFormula::Xor(first, second),
        Connective::Nand => RawFormula::Nand(first, second),
        Connective::Nor => RawFormula::Nor(first, second),
    })
}

/// A unit, where so many levels are left.
#[cycle(formulas)]
fn unit(
    alloc: Global,
    reader: &mut Reader<'_>,
    language: Language,
    left: usize,
) -> Result<RawFormula, Fault>
    ensures { Gives (descent.unit_at language left reader.old) result reader.new }
{
    if reader.sees(Fixed::ForAll) {
        return universal(alloc, reader, language, left);
    }
    if reader.sees(Fixed::Exists) {
        return existential(alloc, reader, language, left);
    }
    if reader.sees(Fixed::Not) {
        reader.expect(Fixed::Not)?;
        let body = unit_inside(alloc, reader, language, left, 1)?;
        return Ok(RawFormula::Not(Boxed::new(alloc, body)?));
    }
    if reader.sees(Fixed::True) {
        reader.expect(Fixed::True)?;
        return Ok(RawFormula::True);
    }
    if reader.sees(Fixed::False) {
        reader.expect(Fixed::False)?;
        return Ok(RawFormula::False);
    }
    if reader.sees(Fixed::Open) {
        return bracketed(alloc, reader, language, left);
    }
    literal(alloc, reader, left)
}

#[cycle(formulas)]
fn bracketed(
    alloc: Global,
    reader: &mut Reader<'_>,
    language: Language,
    left: usize,
) -> Result<RawFormula, Fault>
    ensures { Gives (descent.bracketed_at (descent.formula_at_of (descent.unit_inside language left 1)) reader.old) result reader.new }
{
    reader.expect(Fixed::Open)?;
    let inner = formula_inside(alloc, reader, language, left)?;
    reader.expect(Fixed::Close)?;
    Ok(inner)
}

#[cycle(formulas)]
fn universal(
    alloc: Global,
    reader: &mut Reader<'_>,
    language: Language,
    left: usize,
) -> Result<RawFormula, Fault>
    ensures { Gives (descent.quantified_at (codes "!") f.ForAll (descent.bound_at language left) (descent.unit_inside language left) reader.old) result reader.new }
{
    reader.expect(Fixed::ForAll)?;
    reader.expect(Fixed::OpenSquare)?;
    let variables = variables(alloc, reader, language, left)?;
    reader.expect(Fixed::CloseSquare)?;
    reader.expect(Fixed::Colon)?;
    let body = unit_inside(alloc, reader, language, left, variables.as_slice().len())?;
    Ok(RawFormula::ForAll(variables, Boxed::new(alloc, body)?))
}

#[cycle(formulas)]
fn existential(
    alloc: Global,
    reader: &mut Reader<'_>,
    language: Language,
    left: usize,
) -> Result<RawFormula, Fault>
    ensures { Gives (descent.quantified_at (codes "?") f.Exists (descent.bound_at language left) (descent.unit_inside language left) reader.old) result reader.new }
{
    reader.expect(Fixed::Exists)?;
    reader.expect(Fixed::OpenSquare)?;
    let variables = variables(alloc, reader, language, left)?;
    reader.expect(Fixed::CloseSquare)?;
    reader.expect(Fixed::Colon)?;
    let body = unit_inside(alloc, reader, language, left, variables.as_slice().len())?;
    Ok(RawFormula::Exists(variables, Boxed::new(alloc, body)?))
}

/// A unit so many levels deeper, where `left` levels are left.
#[cycle(formulas)]
fn unit_inside(
    alloc: Global,
    reader: &mut Reader<'_>,
    language: Language,
    left: usize,
    levels: usize,
) -> Result<RawFormula, Fault>
    requires { 0 < levels }
    ensures { Gives (descent.unit_inside language left levels reader.old) result reader.new }
{
    if left < levels {
        Err(unit_limit(reader))
    } else {
        unit(alloc, reader, language, left - levels)
    }
}

/// A formula one level deeper, where `left` levels are left.
#[cycle(formulas)]
pub fn formula_inside(
    alloc: Global,
    reader: &mut Reader<'_>,
    language: Language,
    left: usize,
) -> Result<RawFormula, Fault>
    ensures { Gives (descent.formula_at_of (descent.unit_inside language left 1) reader.old) result reader.new }
{
    let first = unit_inside(alloc, reader, language, left, 1)?;
    if joins(reader) {
        return joined_formula(alloc, reader, language, left, first);
    }
    Ok(first)
}

/// What stands behind the first unit of a formula that a connective follows.
#[cycle(formulas)]
fn joined_formula(
    alloc: Global,
    reader: &mut Reader<'_>,
    language: Language,
    left: usize,
    first: RawFormula,
) -> Result<RawFormula, Fault>
    ensures { Gives (descent.tail_at (descent.unit_inside language left 1) first reader.old) result reader.new }
{
    if reader.sees(Fixed::And) {
        let units = parts(alloc, reader, language, left, Fixed::And, first)?;
        return Ok(RawFormula::And(units));
    }
    if reader.sees(Fixed::Or) {
        let units = parts(alloc, reader, language, left, Fixed::Or, first)?;
        return Ok(RawFormula::Or(units));
    }
    let connective = reader.connective()?;
    let second = unit_inside(alloc, reader, language, left, 1)?;
    Ok(join(alloc, connective, first, second)?)
}

/// A chain of units behind its first, with at least two units.
#[cycle(formulas)]
fn parts(
    alloc: Global,
    reader: &mut Reader<'_>,
    language: Language,
    left: usize,
    word: Fixed,
    first: RawFormula,
) -> Result<List<RawFormula>, Fault>
    requires { spec.IsJoining word }
    ensures { Gives (descent.parts_at (spec.fixed word) (descent.unit_inside language left 1) first reader.old) result reader.new }
{
    reader.expect(word)?;
    let second = unit_inside(alloc, reader, language, left, 1)?;
    let mut found = List::new(alloc);
    found.push(first)?;
    found.push(second)?;
    more(alloc, reader, language, left, word, found)
}

#[cycle(formulas)]
fn next(
    alloc: Global,
    reader: &mut Reader<'_>,
    language: Language,
    left: usize,
    word: Fixed,
) -> Result<RawFormula, Fault>
    ensures { Gives (behind (spec.fixed word) (descent.unit_inside language left 1) reader.old) result reader.new }
{
    reader.expect(word)?;
    unit_inside(alloc, reader, language, left, 1)
}

#[cycle(formulas)]
fn more(
    alloc: Global,
    reader: &mut Reader<'_>,
    language: Language,
    left: usize,
    word: Fixed,
    mut found: List<RawFormula>,
) -> Result<List<RawFormula>, Fault>
    requires { spec.IsJoining word }
    ensures { Gives (many_at (takes (spec.fixed word)) (behind (spec.fixed word) (descent.unit_inside language left 1)) found reader.old) result reader.new }
{
    'items: while reader.sees(word) {
        let item = next(alloc, reader, language, left, word)?;
        found.push(item)?;
    }
    Ok(found)
}
