//! Formulas.

ghost use Rattle.std.specs.Prelude.{◌≡◌, ◌+◌, ◌≤◌, false, length, map, sum, OnOk};
ghost use Rattle.tf_check.specs.Answers.{Answers, map_ok};
ghost use Rattle.tf_check.specs.Bound.{IsReady, Grows, Keeps};
ghost use Rattle.tf_check.specs.Context.{formula_in};
ghost use Rattle.tf_check.specs.Core.{maker, joiner, binders_of};
ghost use Rattle.tf_check.specs.Formulas.{variable_type as type_visit, binders as binders_visit, quantified as quantified_by, equation as equation_visit, inside_each, two as two_visit, quantifier as quantifier_visit, prefix_types as prefix_count, types_bound as bound_count};
ghost use Rattle.tptp_syntax.specs.FileSizes.{formula_nodes};
ghost use Rattle.tf_check.specs.Limits.{most_nodes};
ghost use Rattle.tf_check.specs.Visited.{good, in_turn};

use crate::context::Context;
use crate::error::TypeError;
use crate::kinds::binds_type;
use crate::scope::Scope;
use crate::terms::{atom_of, mismatch, term_of};
use crate::types::{individuals, type_of};
use enc_base::{Boxed, List};
use std::alloc::Global;
use tf_core::{Formula, Ty};
use tptp_syntax::{Bound, RawFormula, RawTerm, TypeExpr};

/// The quantifiers.
#[derive(Clone, Copy)]
enum Quantifier {
    ForAll,
    Exists,
}

/// The connectives of two parts.
#[derive(Clone, Copy)]
enum Connective {
    Implies,
    If,
    Iff,
    Xor,
    Nand,
    Nor,
}

/// The type of a term variable. One without a type has `$i`.
fn variable_type(context: &Context, kind: &Option<TypeExpr>, scope: &Scope) -> Result<Ty, TypeError>
    ensures { Answers
        (type_visit context.now.entry context.now.table.now kind.now scope.now.names)
        result }
{
    match kind {
        None => Ok(individuals(context)),
        Some(expression) => type_of(context, expression, scope),
    }
}

/// Binds the variables of a list from left to right, each under those before it, and gives the types
/// of the term variables. Type variables are allowed in the leading prefix alone.
fn binders<'a>(
    context: &Context,
    leading: bool,
    bounds: &'a [Bound],
    scope: &mut Scope<'a>,
) -> Result<List<Ty>, TypeError>
    requires { length scope.old.names + length bounds.now ≤ most_nodes }
    ensures exact { Answers
        (binders_visit context.now.entry context.now.table.now leading bounds.now scope.old.names)
        (map_ok (binders_of scope.new.names) result) }
    ensures grows { OnOk result (Grows scope.old scope.new) }
{
    let mut types = List::new(context.alloc);
    for bound in bounds {
        if binds_type(bound) {
            if !leading {
                return Err(TypeError::TypeQuantifier {
                    entry: context.entry,
                });
            }
            scope.bind_type(bound.name.as_slice())?;
        } else {
            let ty = variable_type(context, &bound.kind, scope)?;
            scope.bind_term(bound.name.as_slice(), &ty)?;
            types.push(ty)?;
        }
    }
    Ok(types)
}

/// One quantifier for each type, the first outermost.
fn quantified(
    alloc: Global,
    quantifier: Quantifier,
    types: List<Ty>,
    body: Formula,
) -> Result<Formula, TypeError>
    ensures { Answers (good (quantified_by (maker quantifier) types body)) result }
{
    let mut types = types.into_vec();
    let mut formula = body;
    while let Some(ty) = types.pop() {
        let inner = Boxed::new(alloc, formula)?;
        formula = match quantifier {
            Quantifier::ForAll => Formula::ForAll(ty, inner),
            Quantifier::Exists => Formula::Exists(ty, inner),
        };
    }
    Ok(formula)
}

/// An equation: its left side, its right side, and then their types.
fn equation(
    context: &Context,
    left: &RawTerm,
    right: &RawTerm,
    scope: &mut Scope,
) -> Result<Formula, TypeError>
    requires { IsReady context.now scope.old }
    ensures exact { Answers
        (equation_visit context.now.entry context.now.table.now (λ body. body) left.now right.now
        scope.old.names)
        result }
    ensures kept { OnOk result (Keeps scope.old scope.new) }
{
    let (a, expected) = term_of(context, left, scope)?;
    let (b, found) = term_of(context, right, scope)?;
    if scope.same(expected, found) {
        Ok(Formula::Equal(scope.tree_of(expected)?, a, b))
    } else {
        Err(mismatch(context, scope, expected, found))
    }
}

/// The formula of two parts.
fn joined(connective: Connective, left: Boxed<Formula>, right: Boxed<Formula>) -> Formula
    ensures { result ≡ joiner connective left right }
{
    match connective {
        Connective::Implies => Formula::Implies(left, right),
        Connective::If => Formula::If(left, right),
        Connective::Iff => Formula::Iff(left, right),
        Connective::Xor => Formula::Xor(left, right),
        Connective::Nand => Formula::Nand(left, right),
        Connective::Nor => Formula::Nor(left, right),
    }
}

/// A formula, in the leading prefix or elsewhere.
#[cycle(formula_of)]
pub(crate) fn formula_of<'a>(
    context: &Context,
    raw: &'a RawFormula,
    leading: bool,
    scope: &mut Scope<'a>,
) -> Result<Formula, TypeError>
    requires ready { IsReady context.now scope.old }
    requires size { length scope.old.names + formula_nodes raw.now ≤ most_nodes }
    ensures exact { Answers (formula_in context.now raw.now leading scope.old.names) result }
    ensures kept { OnOk result (Keeps scope.old scope.new) }
{
    match raw {
        RawFormula::True => Ok(Formula::True),
        RawFormula::False => Ok(Formula::False),
        RawFormula::Atom(name, parts) => atom_of(context, name, parts.as_slice(), scope),
        RawFormula::Equal(left, right) => equation(context, left, right, scope),
        RawFormula::Unequal(left, right) => {
            let equal = equation(context, left, right, scope)?;
            Ok(Formula::Not(Boxed::new(context.alloc, equal)?))
        }
        RawFormula::Not(part) => Ok(Formula::Not(part_of(context, part.get(), scope)?)),
        RawFormula::And(parts) => Ok(Formula::And(parts_of(context, parts.as_slice(), scope)?)),
        RawFormula::Or(parts) => Ok(Formula::Or(parts_of(context, parts.as_slice(), scope)?)),
        RawFormula::Implies(a, b) => two(context, Connective::Implies, a.get(), b.get(), scope),
        RawFormula::If(a, b) => two(context, Connective::If, a.get(), b.get(), scope),
        RawFormula::Iff(a, b) => two(context, Connective::Iff, a.get(), b.get(), scope),
        RawFormula::Xor(a, b) => two(context, Connective::Xor, a.get(), b.get(), scope),
        RawFormula::Nand(a, b) => two(context, Connective::Nand, a.get(), b.get(), scope),
        RawFormula::Nor(a, b) => two(context, Connective::Nor, a.get(), b.get(), scope),
        RawFormula::ForAll(bounds, body) => {
            quantifier_of(
                context,
                Quantifier::ForAll,
                leading,
                bounds.as_slice(),
                body.get(),
                scope,
            )
        }
        RawFormula::Exists(bounds, body) => {
            quantifier_of(
                context,
                Quantifier::Exists,
                false,
                bounds.as_slice(),
                body.get(),
                scope,
            )
        }
    }
}

/// A part of a formula, in its box.
#[cycle(formula_of)]
fn part_of<'a>(
    context: &Context,
    raw: &'a RawFormula,
    scope: &mut Scope<'a>,
) -> Result<Boxed<Formula>, TypeError>
    requires ready { IsReady context.now scope.old }
    requires size { length scope.old.names + formula_nodes raw.now ≤ most_nodes }
    ensures exact { Answers (formula_in context.now raw.now false scope.old.names) result }
    ensures kept { OnOk result (Keeps scope.old scope.new) }
{
    let part = formula_of(context, raw, false, scope)?;
    Ok(Boxed::new(context.alloc, part)?)
}

/// The parts of a chain.
#[cycle(formula_of)]
fn parts_of<'a>(
    context: &Context,
    raws: &'a [RawFormula],
    scope: &mut Scope<'a>,
) -> Result<List<Formula>, TypeError>
    requires ready { IsReady context.now scope.old }
    requires size { length scope.old.names + sum (map formula_nodes raws.now) ≤ most_nodes }
    ensures exact { Answers
        (in_turn (inside_each (map (formula_in context.now) raws.now) scope.old.names))
        result }
    ensures kept { OnOk result (Keeps scope.old scope.new) }
{
    let mut parts = List::new(context.alloc);
    for raw in raws {
        parts.push(formula_of(context, raw, false, scope)?)?;
    }
    Ok(parts)
}

/// A formula of two parts.
#[cycle(formula_of)]
fn two<'a>(
    context: &Context,
    connective: Connective,
    left: &'a RawFormula,
    right: &'a RawFormula,
    scope: &mut Scope<'a>,
) -> Result<Formula, TypeError>
    requires ready { IsReady context.now scope.old }
    requires size { length scope.old.names + (formula_nodes left.now + formula_nodes right.now) ≤ most_nodes }
    ensures exact { Answers
        (two_visit context.now.entry context.now.table.now (joiner connective)
        (formula_in context.now left.now) (formula_in context.now right.now) scope.old.names)
        result }
    ensures kept { OnOk result (Keeps scope.old scope.new) }
{
    let a = part_of(context, left, scope)?;
    let b = part_of(context, right, scope)?;
    Ok(joined(connective, a, b))
}

/// A quantified formula.
#[cycle(formula_of)]
fn quantifier_of<'a>(
    context: &Context,
    quantifier: Quantifier,
    leading: bool,
    bounds: &'a [Bound],
    body: &'a RawFormula,
    scope: &mut Scope<'a>,
) -> Result<Formula, TypeError>
    requires ready { IsReady context.now scope.old }
    requires size { length scope.old.names + (length bounds.now + formula_nodes body.now) ≤ most_nodes }
    ensures exact { Answers
        (quantifier_visit context.now.entry context.now.table.now (maker quantifier) leading
        bounds.now (formula_in context.now body.now) scope.old.names)
        result }
    ensures kept { OnOk result (Keeps scope.old scope.new) }
{
    let outer = scope.len();
    let types = binders(context, leading, bounds, scope)?;
    let formula = formula_of(context, body, leading, scope)?;
    scope.cut(outer);
    quantified(context.alloc, quantifier, types, formula)
}

/// How many type variables the leading prefix binds.
pub(crate) fn prefix_types(raw: &RawFormula) -> u32
    requires { formula_nodes raw.now ≤ most_nodes }
    ensures exact { result ≡ prefix_count raw.now }
    ensures within { result ≤ formula_nodes raw.now }
{
    match raw {
        RawFormula::ForAll(bounds, body) => types_bound(bounds.as_slice())
            + prefix_types(body.get()),
        _ => 0,
    }
}

/// How many of the variables are type variables.
fn types_bound(bounds: &[Bound]) -> u32
    requires { length bounds.now ≤ most_nodes }
    ensures exact { result ≡ bound_count bounds.now }
    ensures within { result ≤ length bounds.now }
{
    let mut count = 0;
    for bound in bounds {
        if binds_type(bound) {
            count += 1;
        }
    }
    count
}
