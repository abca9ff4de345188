//! Whether formulas in negation normal form are well typed.

ghost use Rattle.std.specs.Prelude.{◌≡◌, ◌&&◌, ◌∷◌, IfOk};
ghost use Rattle.std.specs.List.{list_all};
ghost use Rattle.tf_core.specs.TypingTests.{is_type, is_nnf};

use crate::context::Context;
use crate::nnf::Nnf;
use crate::scope::Scope;
use crate::terms::{is_atom, is_equation};
use crate::ty::Ty;
use crate::typing::is_formed;
use enc_base::{Boxed, NoMemory};

/// Whether a formula is well typed, over so many type variables, in a context. It takes memory for
/// the types of its binders alone, and leaves the context as it was.
#[cycle(typed_nnf)]
pub(crate) fn is_nnf<'a>(
    formula: &'a Nnf,
    scope: &Scope<'_>,
    context: &mut Context<'a>,
) -> Result<bool, NoMemory>
    ensures exact { IfOk result (λ typed. typed ≡ is_nnf scope.now.signature.now scope.now.variables formula.now context.old) }
    ensures kept { context.new ≡ context.old }
{
    match formula {
        Nnf::True => Ok(true),
        Nnf::False => Ok(true),
        Nnf::Atom(_, f, types, terms) => {
            Ok(is_atom(scope, context, *f, types.as_slice(), terms.as_slice()))
        }
        Nnf::Equation(_, ty, left, right) => { Ok(is_equation(scope, context, ty, left, right)) }
        Nnf::And(parts) => all_typed(parts.as_slice(), scope, context),
        Nnf::Or(parts) => all_typed(parts.as_slice(), scope, context),
        Nnf::ForAll(ty, body) => binds_typed(body, ty, scope, context),
        Nnf::Exists(ty, body) => binds_typed(body, ty, scope, context),
    }
}

// whether each part is well typed
#[cycle(typed_nnf)]
fn all_typed<'a>(
    parts: &'a [Nnf],
    scope: &Scope<'_>,
    context: &mut Context<'a>,
) -> Result<bool, NoMemory>
    ensures exact { IfOk result (λ typed. typed ≡ list_all (λ part. is_nnf scope.now.signature.now scope.now.variables part context.old) parts.now) }
    ensures kept { context.new ≡ context.old }
{
    for part in parts {
        if !is_nnf(part, scope, context)? {
            return Ok(false);
        }
    }
    Ok(true)
}

// whether a binder's type is formed and its body well typed behind it
#[cycle(typed_nnf)]
fn binds_typed<'a>(
    body: &'a Boxed<Nnf>,
    ty: &'a Ty,
    scope: &Scope<'_>,
    context: &mut Context<'a>,
) -> Result<bool, NoMemory>
    ensures exact { IfOk result (λ typed. typed ≡ (is_type scope.now.signature.now scope.now.variables ty.now && is_nnf scope.now.signature.now scope.now.variables body.now (ty.now ∷ context.old))) }
    ensures kept { context.new ≡ context.old }
{
    if !is_formed(scope.signature, scope.variables, ty) {
        return Ok(false);
    }
    context.bind(ty)?;
    let typed = is_nnf(body.get(), scope, context);
    context.unbind();
    typed
}
