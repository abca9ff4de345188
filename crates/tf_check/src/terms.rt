//! Terms and atoms.

ghost use Rattle.std.specs.Prelude.{◌≡◌, ◌+◌, [], ◌∷◌, length, map, drop, IfOk, OnOk};
ghost use Rattle.tf_types.specs.Numbers.{IsNumber, AreNumbers, type_at};
ghost use Rattle.tf_check.specs.declared.error.TypeError.TheVariants.{NotATerm, NotAFormula, Mismatch};
ghost use Rattle.tf_check.specs.Answers.{Answers, IsFirst, map_ok};
ghost use Rattle.tf_check.specs.Bound.{IsReady, IsSymbolAt, Keeps, typed_at, IsGiven, arguments_given};
ghost use Rattle.tf_check.specs.Context.{term_in};
ghost use Rattle.tf_check.specs.Scope.{meaning};
ghost use Rattle.tf_check.specs.Signature.{symbol_named};
ghost use Rattle.tf_check.specs.Table.{named_profile};
ghost use Rattle.tf_check.specs.Terms.{expect_number as number_visit, number_of, term_variable, term_applied, arguments_of as arguments_visit, type_readings, term_readings, terms_in_places as places_visit, term_in_place as place_visit, atom_of as atom_visit};
ghost use Rattle.tf_check.specs.Visited.{good, in_turn};

use crate::context::Context;
use crate::error::TypeError;
use crate::numbers::{arguments_at, numbers_of};
use crate::scope::{Meaning, Scope};
use crate::table::{MOST_SYMBOLS, Profile, Table};
use crate::types::{constructor_place, individuals, type_variable};
use enc_base::{List, Name};
use tf_core::{Formula, Term, Ty};
use tf_types::TypeId;
use tptp_syntax::RawTerm;

/// A term and the number of its type.
pub(crate) type Typed = (Term, TypeId);

/// What a symbol is applied to: types for its parameters, then terms.
#[derive(Drop)]
pub(crate) struct Arguments {
    pub(crate) types: List<Ty>,
    pub(crate) terms: List<Term>,
}

/// What a symbol is applied to, and the numbers of the types for its parameters.
#[derive(Drop)]
pub(crate) struct Given {
    arguments: Arguments,
    numbers: List<TypeId>,
}

/// The number of the symbol at the place is allowed.
pub(crate) fn expect_number(table: &Table, place: usize) -> Result<(), TypeError>
    ensures { Answers (number_visit (number_of table.now place)) result }
{
    if table.allows(place) {
        Ok(())
    } else {
        Err(TypeError::TooManySymbols {
            count: MOST_SYMBOLS + 1,
        })
    }
}

/// The refusal of a name in the place of a term.
fn not_a_term(context: &Context, name: &[u8]) -> TypeError
    ensures { IsFirst (NotATerm context.now.entry name.now ∷ []) result }
{
    match Name::from_slice(context.alloc, name) {
        Ok(name) => TypeError::NotATerm {
            entry: context.entry,
            name,
        },
        Err(_) => TypeError::Memory,
    }
}

/// The refusal of a name in the place of an atom.
fn not_a_formula(context: &Context, name: &[u8]) -> TypeError
    ensures { IsFirst (NotAFormula context.now.entry name.now ∷ []) result }
{
    match Name::from_slice(context.alloc, name) {
        Ok(name) => TypeError::NotAFormula {
            entry: context.entry,
            name,
        },
        Err(_) => TypeError::Memory,
    }
}

/// The refusal of a term that has another type than its place.
pub(crate) fn mismatch(
    context: &Context,
    scope: &Scope,
    expected: TypeId,
    found: TypeId,
) -> TypeError
    requires expected { IsNumber scope.now.types expected }
    requires found { IsNumber scope.now.types found }
    ensures { IsFirst (Mismatch context.now.entry (type_at scope.now.types expected)
        (type_at scope.now.types found) ∷ []) result }
{
    match (scope.tree_of(expected), scope.tree_of(found)) {
        (Ok(expected), Ok(found)) => TypeError::Mismatch {
            entry: context.entry,
            expected,
            found,
        },
        _ => TypeError::Memory,
    }
}

/// A type that is written as a term.
#[cycle(type_argument)]
fn type_argument(context: &Context, raw: &RawTerm, scope: &Scope) -> Result<Ty, TypeError>
    ensures { Answers ((term_in context.now raw.now).as_type scope.now.names) result }
{
    match raw {
        RawTerm::Variable(name) => type_variable(context, name, scope),
        RawTerm::Apply(name, parts) => {
            let place = constructor_place(context, name, parts.as_slice().len())?;
            let types = type_arguments(context, parts.as_slice(), scope)?;
            Ok(Ty::Apply(place, types))
        }
        RawTerm::Individuals => Ok(individuals(context)),
    }
}

/// Types that are written as terms.
#[cycle(type_argument)]
fn type_arguments(
    context: &Context,
    parts: &[RawTerm],
    scope: &Scope,
) -> Result<List<Ty>, TypeError>
    ensures { Answers (in_turn (type_readings (map (term_in context.now) parts.now) scope.now.names)) result }
{
    let mut types = List::new(context.alloc);
    for part in parts {
        types.push(type_argument(context, part, scope)?)?;
    }
    Ok(types)
}

/// A variable in the place of a term.
fn variable(context: &Context, name: &Name, scope: &Scope) -> Result<Typed, TypeError>
    ensures exact { Answers
        (term_variable context.now.entry name.now (meaning scope.now.names name.now))
        (map_ok (typed_at scope.now.types) result) }
    ensures number { IfOk result (λ typed. IsNumber scope.now.types typed.1) }
{
    match scope.meaning(name.as_slice()) {
        Meaning::Unbound => Err(TypeError::FreeVariable {
            entry: context.entry,
            name: name.copy(context.alloc)?,
        }),
        Meaning::OfType(_) => Err(not_a_term(context, name.as_slice())),
        Meaning::OfTerm(i, ty) => Ok((Term::Var(i), ty)),
    }
}

/// A term, with its type.
#[cycle(term_of)]
pub(crate) fn term_of(
    context: &Context,
    raw: &RawTerm,
    scope: &mut Scope,
) -> Result<Typed, TypeError>
    requires { IsReady context.now scope.old }
    ensures exact { Answers ((term_in context.now raw.now).as_term scope.old.names)
        (map_ok (typed_at scope.new.types) result) }
    ensures number { IfOk result (λ typed. IsNumber scope.new.types typed.1) }
    ensures kept { OnOk result (Keeps scope.old scope.new) }
{
    match raw {
        RawTerm::Variable(name) => variable(context, name, scope),
        RawTerm::Apply(name, parts) => applied_term(context, name, parts.as_slice(), scope),
        RawTerm::Individuals => Err(not_a_term(context, b"$i")),
    }
}

/// A name with its arguments in the place of a term.
#[cycle(term_of)]
fn applied_term(
    context: &Context,
    name: &Name,
    parts: &[RawTerm],
    scope: &mut Scope,
) -> Result<Typed, TypeError>
    requires { IsReady context.now scope.old }
    ensures exact { Answers
        (term_applied context.now.entry context.now.table.now name.now
        (symbol_named name.now context.now.table.now) (map (term_in context.now) parts.now)
        scope.old.names)
        (map_ok (typed_at scope.new.types) result) }
    ensures number { IfOk result (λ typed. IsNumber scope.new.types typed.1) }
    ensures kept { OnOk result (Keeps scope.old scope.new) }
{
    match context.table.symbol(name.as_slice()) {
        None => Err(not_a_term(context, name.as_slice())),
        Some((place, profile)) => {
            expect_number(context.table, place)?;
            match scope.symbol(place).result {
                None => Err(not_a_term(context, name.as_slice())),
                Some(result) => {
                    let given = arguments_of(context, name, place, profile, parts, scope)?;
                    let ty = scope.instance(result, given.numbers.as_slice())?;
                    let Arguments { types, terms } = given.arguments;
                    Ok((Term::Apply(place as u32, types, terms), ty))
                }
            }
        }
    }
}

/// The arguments of a symbol: first their number, then the types, then each term and its type.
#[cycle(term_of)]
fn arguments_of(
    context: &Context,
    name: &Name,
    place: usize,
    profile: &Profile,
    parts: &[RawTerm],
    scope: &mut Scope,
) -> Result<Given, TypeError>
    requires ready { IsReady context.now scope.old }
    requires at { IsSymbolAt scope.old place profile.now }
    ensures exact { Answers
        (arguments_visit context.now.entry (named_profile name.now profile.now)
        (map (term_in context.now) parts.now) scope.old.names)
        (map_ok arguments_given result) }
    ensures numbers { IfOk result (IsGiven scope.new) }
    ensures kept { OnOk result (Keeps scope.old scope.new) }
{
    let parameters = profile.parameters as usize;
    let expected = parameters + profile.arguments.as_slice().len();
    if expected != parts.len() {
        return Err(TypeError::Arity {
            entry: context.entry,
            name: name.copy(context.alloc)?,
            expected,
            found: parts.len(),
        });
    }
    let types = type_arguments(context, &parts[..parameters], scope)?;
    let numbers = numbers_of(context.alloc, scope, types.as_slice())?;
    let places = arguments_at(context.alloc, scope, place, numbers.as_slice())?;
    let terms = terms_in_places(context, parts, parameters, places.as_slice(), scope)?;
    Ok(Given {
        arguments: Arguments { types, terms },
        numbers,
    })
}

/// Terms in places of the types. The terms are the parts from the first on.
#[cycle(term_of)]
fn terms_in_places(
    context: &Context,
    parts: &[RawTerm],
    first: usize,
    places: &[TypeId],
    scope: &mut Scope,
) -> Result<List<Term>, TypeError>
    requires ready { IsReady context.now scope.old }
    requires count { first + length places.now ≡ length parts.now }
    requires numbers { AreNumbers scope.old.types places.now }
    ensures exact { Answers
        (places_visit context.now.entry (map (type_at scope.old.types) places.now)
        (term_readings (map (term_in context.now) (drop first parts.now)) scope.old.names))
        result }
    ensures kept { OnOk result (Keeps scope.old scope.new) }
{
    let mut terms = List::new(context.alloc);
    for (i, place) in places.iter().enumerate() {
        let given = term_of(context, &parts[first + i], scope)?;
        terms.push(term_in_place(context, *place, given, scope)?)?;
    }
    Ok(terms)
}

/// A term in a place of the type.
fn term_in_place(
    context: &Context,
    place: TypeId,
    given: Typed,
    scope: &Scope,
) -> Result<Term, TypeError>
    requires place { IsNumber scope.now.types place }
    requires given { IsNumber scope.now.types given.1 }
    ensures { Answers
        (place_visit context.now.entry (type_at scope.now.types place)
        (good (typed_at scope.now.types given)))
        result }
{
    let (term, ty) = given;
    if scope.same(place, ty) {
        Ok(term)
    } else {
        Err(mismatch(context, scope, place, ty))
    }
}

/// An atom: a name with its arguments.
pub(crate) fn atom_of(
    context: &Context,
    name: &Name,
    parts: &[RawTerm],
    scope: &mut Scope,
) -> Result<Formula, TypeError>
    requires { IsReady context.now scope.old }
    ensures exact { Answers
        (atom_visit context.now.entry context.now.table.now name.now parts.now scope.old.names)
        result }
    ensures kept { OnOk result (Keeps scope.old scope.new) }
{
    match context.table.symbol(name.as_slice()) {
        None => Err(not_a_formula(context, name.as_slice())),
        Some((place, profile)) => {
            expect_number(context.table, place)?;
            match &profile.result {
                Some(_) => Err(not_a_formula(context, name.as_slice())),
                None => {
                    let given = arguments_of(context, name, place, profile, parts, scope)?;
                    let Arguments { types, terms } = given.arguments;
                    Ok(Formula::Atom(place as u32, types, terms))
                }
            }
        }
    }
}
