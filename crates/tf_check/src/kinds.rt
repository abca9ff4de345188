//! Kinds: the type expressions that declare constructors.

ghost use Rattle.std.specs.Prelude.{◌≡◌, ◌≤◌, IfSome, map, sum};
ghost use Rattle.tf_check.specs.Kinds.{kind, is_type_kind, types_of_all};
ghost use Rattle.tptp_syntax.specs.FileSizes.{type_nodes};
ghost use Rattle.tf_check.specs.Limits.{most_nodes};

use tptp_syntax::{Bound, TypeExpr};

/// Whether the expression is `$tType`.
pub(crate) fn is_types(expression: &TypeExpr) -> bool
    ensures { result ≡ (kind expression.now).is_types }
{
    match expression {
        TypeExpr::Types => true,
        _ => false,
    }
}

/// Whether the variable is bound with `$tType`.
pub(crate) fn binds_type(bound: &Bound) -> bool
    ensures { result ≡ is_type_kind bound.now.kind }
{
    match &bound.kind {
        None => false,
        Some(expression) => is_types(expression),
    }
}

/// How many `$tType` the expression joins by `*`, if nothing else stands in it.
#[cycle(types)]
fn types(expression: &TypeExpr) -> Option<u32>
    requires { type_nodes expression.now ≤ most_nodes }
    ensures exact { result ≡ (kind expression.now).types }
    ensures within { IfSome result (λ count. count ≤ type_nodes expression.now) }
{
    match expression {
        TypeExpr::Types => Some(1),
        TypeExpr::Product(parts) => types_of_all(parts.as_slice()),
        _ => None,
    }
}

/// How many `$tType` the parts join together.
#[cycle(types)]
fn types_of_all(parts: &[TypeExpr]) -> Option<u32>
    requires { sum (map type_nodes parts.now) ≤ most_nodes }
    ensures exact { result ≡ types_of_all (map kind parts.now) }
    ensures within { IfSome result (λ count. count ≤ sum (map type_nodes parts.now)) }
{
    let mut count = 0;
    for part in parts {
        count += types(part)?;
    }
    Some(count)
}

/// Whether the expression declares a constructor: it is `$tType`, or a map to `$tType`.
pub(crate) fn is_kind(expression: &TypeExpr) -> bool
    ensures { result ≡ (kind expression.now).is_kind }
{
    match expression {
        TypeExpr::Types => true,
        TypeExpr::Map(_, right) => is_types(right.get()),
        _ => false,
    }
}

/// The number of arguments of the constructor that the expression declares.
pub(crate) fn arity(expression: &TypeExpr) -> Option<u32>
    requires { type_nodes expression.now ≤ most_nodes }
    ensures { result ≡ (kind expression.now).arity }
{
    match expression {
        TypeExpr::Types => Some(0),
        TypeExpr::Map(left, _) => types(left.get()),
        _ => None,
    }
}
