//! Whether terms, atoms and equations are well typed.

ghost use Rattle.std.specs.Prelude.{◌≡◌, ◌&&◌, map};
ghost use Rattle.tf_core.specs.Types.{instantiate, pass_in_order};
ghost use Rattle.tf_core.specs.TypingTests.{takes_types, has_type, gives, is_atom_test, is_equation_test};

use crate::context::Context;
use crate::instance::{is_instance, same_instance};
use crate::scope::Scope;
use crate::signature::Symbol;
use crate::term::Term;
use crate::ty::Ty;
use crate::typing::{are_formed, is_formed};

// Whether a term has the declared type, seen at the types for its variables.
#[cycle(typed)]
fn has_type(
    scope: &Scope<'_>,
    context: &Context<'_>,
    term: &Term,
    declared: &Ty,
    types: &[Ty],
) -> bool
    ensures { result ≡ has_type scope.now.signature.now scope.now.variables context.now term.now (instantiate types.now declared.now) }
{
    match term {
        Term::Var(i) => match context.type_at(*i) {
            Some(ty) => is_instance(declared, types, ty),
            None => false,
        },
        Term::Apply(f, arguments, terms) => match scope.symbol_at(*f) {
            Some(symbol) => {
                offers(scope, symbol, arguments.as_slice(), declared, types)
                    && have_types(
                        scope,
                        context,
                        terms.as_slice(),
                        symbol.arguments.as_slice(),
                        arguments.as_slice(),
                    )
            }
            None => false,
        },
    }
}

// Whether a symbol takes these types for its parameters.
fn takes_types(scope: &Scope<'_>, symbol: &Symbol, types: &[Ty]) -> bool
    ensures { result ≡ takes_types scope.now.signature.now scope.now.variables symbol.now types.now }
{
    types.len() == symbol.parameters as usize && are_formed(scope.signature, scope.variables, types)
}

// Whether a symbol takes these types for its parameters, and then gives the declared type, seen at
// its own.
fn offers(scope: &Scope<'_>, symbol: &Symbol, arguments: &[Ty], declared: &Ty, types: &[Ty]) -> bool
    ensures { result ≡ (takes_types scope.now.signature.now scope.now.variables symbol.now arguments.now && gives symbol.now.result arguments.now (instantiate types.now declared.now)) }
{
    takes_types(scope, symbol, arguments) && gives(&symbol.result, arguments, declared, types)
}

// Whether each term has the declared type in its place, and there are as many terms as types.
#[cycle(typed)]
fn have_types(
    scope: &Scope<'_>,
    context: &Context<'_>,
    terms: &[Term],
    declared: &[Ty],
    types: &[Ty],
) -> bool
    ensures { result ≡ pass_in_order (map (has_type scope.now.signature.now scope.now.variables context.now) terms.now) (map (instantiate types.now) declared.now) }
{
    if terms.len() != declared.len() {
        return false;
    }
    for (i, term) in terms.iter().enumerate() {
        if !has_type(scope, context, term, &declared[i], types) {
            return false;
        }
    }
    true
}

// Whether a symbol's result, seen at types for its parameters, is the declared type at its own.
fn gives(given: &Option<Ty>, arguments: &[Ty], declared: &Ty, types: &[Ty]) -> bool
    ensures { result ≡ gives given.now arguments.now (instantiate types.now declared.now) }
{
    match given {
        Some(ty) => same_instance(ty, arguments, declared, types),
        None => false,
    }
}

/// Whether the f-th symbol is a predicate that takes these types and terms.
pub(crate) fn is_atom(
    scope: &Scope<'_>,
    context: &Context<'_>,
    f: u32,
    types: &[Ty],
    terms: &[Term],
) -> bool
    ensures { result ≡ is_atom_test scope.now.signature.now scope.now.variables context.now f types.now terms.now }
{
    match scope.symbol_at(f) {
        Some(symbol) => {
            takes_types(scope, symbol, types)
                && have_types(scope, context, terms, symbol.arguments.as_slice(), types)
                && symbol.result.is_none()
        }
        None => false,
    }
}

/// Whether both terms have the type.
pub(crate) fn is_equation(
    scope: &Scope<'_>,
    context: &Context<'_>,
    ty: &Ty,
    left: &Term,
    right: &Term,
) -> bool
    ensures { result ≡ is_equation_test scope.now.signature.now scope.now.variables context.now ty.now left.now right.now }
{
    if !is_formed(scope.signature, scope.variables, ty) {
        return false;
    }
    has_type(scope, context, left, ty, &[]) && has_type(scope, context, right, ty, &[])
}
