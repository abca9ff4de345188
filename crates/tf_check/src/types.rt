//! Type expressions, in each place in which one may stand.

ghost use Rattle.std.specs.Prelude.{◌≡◌, ℕ, ◌+◌, ◌≤◌, List as Seq, length, map};
ghost use Rattle.tf_check.specs.Answers.{Answers, with_value, map_ok, appended};
ghost use Rattle.tf_check.specs.Table.{named_profile};
ghost use Rattle.tf_check.specs.Context.{type_in};
ghost use Rattle.tptp_syntax.specs.FileSizes.{type_nodes, bound_nodes};
ghost use Rattle.tf_check.specs.Limits.{most_nodes};
ghost use Rattle.tf_check.specs.Scope.{meaning};
ghost use Rattle.tf_check.specs.Types.{individuals as just_individuals, type_variable as variable_visit, constructor_named, constructor_place as place_visit, types_of_all, arguments_of_all as arguments_visit, bind_parameters as parameters_visit, bound_reading};
ghost use Rattle.tf_check.specs.Visited.{in_turn};

use crate::context::Context;
use crate::error::TypeError;
use crate::kinds::{binds_type, is_types};
use crate::scope::{Meaning, Scope};
use crate::table::Profile;
use enc_base::{List, Name};
use tf_core::Ty;
use tptp_syntax::{Bound, TypeExpr};

/// The type `$i`.
pub(crate) fn individuals(context: &Context) -> Ty
    ensures { result ≡ just_individuals }
{
    Ty::Apply(0, List::new(context.alloc))
}

/// A variable in the place of a type.
pub(crate) fn type_variable(context: &Context, name: &Name, scope: &Scope) -> Result<Ty, TypeError>
    ensures { Answers
        (variable_visit context.now.entry name.now (meaning scope.now.names name.now))
        result }
{
    match scope.meaning(name.as_slice()) {
        Meaning::OfType(i) => Ok(Ty::Var(i)),
        _ => Err(TypeError::UnknownType {
            entry: context.entry,
            name: name.copy(context.alloc)?,
        }),
    }
}

/// The place of the constructor with the name, which takes so many arguments.
pub(crate) fn constructor_place(
    context: &Context,
    name: &Name,
    arguments: usize,
) -> Result<u32, TypeError>
    ensures { Answers
        (place_visit context.now.entry name.now arguments
        (constructor_named name.now context.now.table.now.constructors))
        result }
{
    match context.table.constructor(name.as_slice()) {
        None => Err(TypeError::UnknownType {
            entry: context.entry,
            name: name.copy(context.alloc)?,
        }),
        Some((place, arity)) => {
            if arity as usize == arguments {
                Ok(place as u32)
            } else {
                Err(TypeError::Arity {
                    entry: context.entry,
                    name: name.copy(context.alloc)?,
                    expected: arity as usize,
                    found: arguments,
                })
            }
        }
    }
}

/// A type of terms.
#[cycle(type_of)]
pub(crate) fn type_of(
    context: &Context,
    expression: &TypeExpr,
    scope: &Scope,
) -> Result<Ty, TypeError>
    ensures { Answers ((type_in context.now expression.now).as_type scope.now.names) result }
{
    match expression {
        TypeExpr::Variable(name) => type_variable(context, name, scope),
        TypeExpr::Apply(name, parts) => {
            let place = constructor_place(context, name, parts.as_slice().len())?;
            let types = types_of(context, parts.as_slice(), scope)?;
            Ok(Ty::Apply(place, types))
        }
        TypeExpr::Individuals => Ok(individuals(context)),
        _ => Err(TypeError::BadDeclaration {
            entry: context.entry,
        }),
    }
}

/// Types of terms.
#[cycle(type_of)]
fn types_of(context: &Context, parts: &[TypeExpr], scope: &Scope) -> Result<List<Ty>, TypeError>
    ensures { Answers
        (in_turn (types_of_all (map (type_in context.now) parts.now) scope.now.names))
        result }
{
    let mut types = List::new(context.alloc);
    for part in parts {
        types.push(type_of(context, part, scope)?)?;
    }
    Ok(types)
}

/// A result: `$o`, of predicates, or a type of terms.
fn result_of(
    context: &Context,
    expression: &TypeExpr,
    scope: &Scope,
) -> Result<Option<Ty>, TypeError>
    ensures { Answers ((type_in context.now expression.now).as_result scope.now.names) result }
{
    match expression {
        TypeExpr::Truth => Ok(None),
        _ => Ok(Some(type_of(context, expression, scope)?)),
    }
}

/// The types of arguments, products flattened, which are appended to `types`.
#[cycle(arguments_of)]
fn arguments_of(
    context: &Context,
    expression: &TypeExpr,
    scope: &Scope,
    types: &mut List<Ty>,
) -> Result<(), TypeError>
    ensures { Answers
        (appended types.old ((type_in context.now expression.now).as_arguments scope.now.names))
        (with_value result types.new) }
{
    match expression {
        TypeExpr::Product(parts) => arguments_of_all(context, parts.as_slice(), scope, types),
        _ => {
            types.push(type_of(context, expression, scope)?)?;
            Ok(())
        }
    }
}

/// The same of each part in turn.
#[cycle(arguments_of)]
fn arguments_of_all(
    context: &Context,
    parts: &[TypeExpr],
    scope: &Scope,
    types: &mut List<Ty>,
) -> Result<(), TypeError>
    ensures { Answers
        (appended types.old (arguments_visit (map (type_in context.now) parts.now) scope.now.names))
        (with_value result types.new) }
{
    for part in parts {
        arguments_of(context, part, scope, types)?;
    }
    Ok(())
}

/// Binds the parameters of a symbol, each of its own.
fn bind_parameters<'a>(
    context: &Context,
    bounds: &'a [Bound],
    scope: &mut Scope<'a>,
) -> Result<(), TypeError>
    requires { length scope.old.names + length bounds.now ≤ most_nodes }
    ensures { Answers
        (parameters_visit context.now.entry
        (map (bound_reading context.now.entry context.now.table.now.constructors) bounds.now)
        scope.old.names)
        (with_value result scope.new.names) }
{
    for bound in bounds {
        if !binds_type(bound) {
            return Err(TypeError::BadDeclaration {
                entry: context.entry,
            });
        }
        scope.bind_type(bound.name.as_slice())?;
    }
    Ok(())
}

/// The type of a symbol, by the body of its declaration.
pub(crate) fn profile_of<'a>(
    context: &Context,
    body: &'a TypeExpr,
    scope: &mut Scope<'a>,
) -> Result<Profile, TypeError>
    requires { length scope.old.names + type_nodes body.now ≤ most_nodes }
    ensures { (name : Seq ℕ) → Answers ((type_in context.now body.now).as_symbol name scope.old.names)
        (map_ok (named_profile name) result) }
{
    match body {
        TypeExpr::Quantified(bounds, inner) => {
            bind_parameters(context, bounds.as_slice(), scope)?;
            profile_of(context, inner.get(), scope)
        }
        TypeExpr::Map(left, right) => {
            let mut arguments = List::new(context.alloc);
            arguments_of(context, left.get(), scope, &mut arguments)?;
            let result = result_of(context, right.get(), scope)?;
            Ok(Profile {
                parameters: scope.type_variables(),
                arguments,
                result,
            })
        }
        _ => Ok(Profile {
            parameters: scope.type_variables(),
            arguments: List::new(context.alloc),
            result: result_of(context, body, scope)?,
        }),
    }
}
