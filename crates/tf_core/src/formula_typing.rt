//! Whether formulas are well typed.

ghost use Rattle.std.specs.Prelude.{◌≡◌, ◌&&◌, ◌∷◌, IfOk};
ghost use Rattle.std.specs.List.{list_all};
ghost use Rattle.tf_core.specs.TypingTests.{is_type, is_formula};

use crate::context::Context;
use crate::formula::Formula;
use crate::scope::Scope;
use crate::terms::{is_atom, is_equation};
use crate::ty::Ty;
use crate::typing::is_formed;
use enc_base::{Boxed, NoMemory};

/// Whether a formula is well typed, over so many type variables, in a context. It takes memory for
/// the types of its binders alone, and leaves the context as it was.
#[cycle(typed_formula)]
pub(crate) fn is_formula<'a>(
    formula: &'a Formula,
    scope: &Scope<'_>,
    context: &mut Context<'a>,
) -> Result<bool, NoMemory>
    ensures exact { IfOk result (λ typed. typed ≡ is_formula scope.now.signature.now scope.now.variables formula.now context.old) }
    ensures kept { context.new ≡ context.old }
{
    match formula {
        Formula::True => Ok(true),
        Formula::False => Ok(true),
        Formula::Atom(f, types, terms) => {
            Ok(is_atom(scope, context, *f, types.as_slice(), terms.as_slice()))
        }
        Formula::Equal(ty, left, right) => { Ok(is_equation(scope, context, ty, left, right)) }
        Formula::Not(a) => is_formula(a.get(), scope, context),
        Formula::And(parts) => all_typed(parts.as_slice(), scope, context),
        Formula::Or(parts) => all_typed(parts.as_slice(), scope, context),
        Formula::Implies(a, b) => also_typed(
            b,
            is_formula(a.get(), scope, context)?,
            scope,
            context,
        ),
        Formula::If(a, b) => also_typed(b, is_formula(a.get(), scope, context)?, scope, context),
        Formula::Iff(a, b) => also_typed(b, is_formula(a.get(), scope, context)?, scope, context),
        Formula::Xor(a, b) => also_typed(b, is_formula(a.get(), scope, context)?, scope, context),
        Formula::Nand(a, b) => also_typed(b, is_formula(a.get(), scope, context)?, scope, context),
        Formula::Nor(a, b) => also_typed(b, is_formula(a.get(), scope, context)?, scope, context),
        Formula::ForAll(ty, body) => binds_typed(body, ty, scope, context),
        Formula::Exists(ty, body) => binds_typed(body, ty, scope, context),
    }
}

// whether each part is well typed
#[cycle(typed_formula)]
fn all_typed<'a>(
    parts: &'a [Formula],
    scope: &Scope<'_>,
    context: &mut Context<'a>,
) -> Result<bool, NoMemory>
    ensures exact { IfOk result (λ typed. typed ≡ list_all (λ part. is_formula scope.now.signature.now scope.now.variables part context.old) parts.now) }
    ensures kept { context.new ≡ context.old }
{
    for part in parts {
        if !is_formula(part, scope, context)? {
            return Ok(false);
        }
    }
    Ok(true)
}

// whether the first of two formulas was well typed and the second is
#[cycle(typed_formula)]
fn also_typed<'a>(
    second: &'a Boxed<Formula>,
    first: bool,
    scope: &Scope<'_>,
    context: &mut Context<'a>,
) -> Result<bool, NoMemory>
    ensures exact { IfOk result (λ typed. typed ≡ (first && is_formula scope.now.signature.now scope.now.variables second.now context.old)) }
    ensures kept { context.new ≡ context.old }
{
    if !first {
        return Ok(false);
    }
    is_formula(second.get(), scope, context)
}

// whether a binder's type is formed and its body well typed behind it
#[cycle(typed_formula)]
fn binds_typed<'a>(
    body: &'a Boxed<Formula>,
    ty: &'a Ty,
    scope: &Scope<'_>,
    context: &mut Context<'a>,
) -> Result<bool, NoMemory>
    ensures exact { IfOk result (λ typed. typed ≡ (is_type scope.now.signature.now scope.now.variables ty.now && is_formula scope.now.signature.now scope.now.variables body.now (ty.now ∷ context.old))) }
    ensures kept { context.new ≡ context.old }
{
    if !is_formed(scope.signature, scope.variables, ty) {
        return Ok(false);
    }
    context.bind(ty)?;
    let typed = is_formula(body.get(), scope, context);
    context.unbind();
    typed
}
