//! Types and bound variables as they are written.

ghost use Rattle.std.specs.Prelude.{◌≡◌, ◌↔◌, IsTrue, IfOk};

use enc_base::{Boxed, List, Name, NoMemory};
use std::alloc::Global;

/// A type, as `thf_type` and `tff_top_level_type` of the TPTP language's grammar, in this profile.
#[cycle(types)]
#[derive(Debug, Drop)]
pub enum TypeExpr {
    /// A type variable, as `A`.
    Variable(Name),
    /// A constructor with its arguments, as `list(A)`.
    Apply(Name, List<TypeExpr>),
    /// `$i`.
    Individuals,
    /// `$o`.
    Truth,
    /// `$tType`.
    Types,
    /// `a * b * c`, with at least two parts.
    Product(List<TypeExpr>),
    /// `a > b`.
    Map(Boxed<TypeExpr>, Boxed<TypeExpr>),
    /// `!>[A: $tType, ..]: a`.
    Quantified(List<Bound>, Boxed<TypeExpr>),
}

/// A bound variable, with its type where one is written.
#[cycle(types)]
#[derive(Debug, Drop)]
pub struct Bound {
    pub name: Name,
    pub kind: Option<TypeExpr>,
}

impl TypeExpr {
    /// An equal type.
    #[cycle(copy_type)]
    pub fn copy(&self, alloc: Global) -> Result<TypeExpr, NoMemory>
        ensures { IfOk result (λ copied. copied ≡ self.now) }
    {
        match self {
            TypeExpr::Variable(name) => Ok(TypeExpr::Variable(name.copy(alloc)?)),
            TypeExpr::Apply(name, types) => {
                let name = name.copy(alloc)?;
                Ok(TypeExpr::Apply(name, copy_types(alloc, types.as_slice())?))
            }
            TypeExpr::Individuals => Ok(TypeExpr::Individuals),
            TypeExpr::Truth => Ok(TypeExpr::Truth),
            TypeExpr::Types => Ok(TypeExpr::Types),
            TypeExpr::Product(types) => {
                Ok(TypeExpr::Product(copy_types(alloc, types.as_slice())?))
            }
            TypeExpr::Map(left, right) => {
                let left = copy_boxed_type(alloc, left)?;
                Ok(TypeExpr::Map(left, copy_boxed_type(alloc, right)?))
            }
            TypeExpr::Quantified(bounds, body) => {
                let bounds = copy_bounds(alloc, bounds.as_slice())?;
                Ok(TypeExpr::Quantified(bounds, copy_boxed_type(alloc, body)?))
            }
        }
    }

    /// Whether the two are equal.
    #[cycle(same_type)]
    pub fn same(&self, other: &TypeExpr) -> bool
        ensures { IsTrue result ↔ (self.now ≡ other.now) }
    {
        match (self, other) {
            (TypeExpr::Variable(name), TypeExpr::Variable(other)) => name.same(other),
            (TypeExpr::Apply(name, types), TypeExpr::Apply(other, others)) => {
                name.same(other) && same_types(types.as_slice(), others.as_slice())
            }
            (TypeExpr::Individuals, TypeExpr::Individuals) => true,
            (TypeExpr::Truth, TypeExpr::Truth) => true,
            (TypeExpr::Types, TypeExpr::Types) => true,
            (TypeExpr::Product(types), TypeExpr::Product(others)) => {
                same_types(types.as_slice(), others.as_slice())
            }
            (TypeExpr::Map(a, b), TypeExpr::Map(c, d)) => {
                a.get().same(c.get()) && b.get().same(d.get())
            }
            (TypeExpr::Quantified(bounds, body), TypeExpr::Quantified(others, other)) => {
                same_bounds(bounds.as_slice(), others.as_slice()) && body.get().same(other.get())
            }
            _ => false,
        }
    }
}

impl Bound {
    /// An equal bound variable.
    #[cycle(copy_type)]
    pub fn copy(&self, alloc: Global) -> Result<Bound, NoMemory>
        ensures { IfOk result (λ copied. copied ≡ self.now) }
    {
        let name = self.name.copy(alloc)?;
        let kind = copy_kind(alloc, &self.kind)?;
        Ok(Bound { name, kind })
    }

    /// Whether the two are equal.
    #[cycle(same_type)]
    pub fn same(&self, other: &Bound) -> bool
        ensures { IsTrue result ↔ (self.now ≡ other.now) }
    {
        self.name.same(&other.name) && same_kind(&self.kind, &other.kind)
    }
}

// an equal type in a box of its own
#[cycle(copy_type)]
fn copy_boxed_type(alloc: Global, ty: &Boxed<TypeExpr>) -> Result<Boxed<TypeExpr>, NoMemory>
    ensures { IfOk result (λ copied. copied ≡ ty.now) }
{
    Boxed::new(alloc, ty.get().copy(alloc)?)
}

// an equal type where there is one
#[cycle(copy_type)]
fn copy_kind(alloc: Global, kind: &Option<TypeExpr>) -> Result<Option<TypeExpr>, NoMemory>
    ensures { IfOk result (λ copied. copied ≡ kind.now) }
{
    match kind {
        Some(ty) => Ok(Some(ty.copy(alloc)?)),
        None => Ok(None),
    }
}

// whether the two have equal types, or none
#[cycle(same_type)]
fn same_kind(kind: &Option<TypeExpr>, other: &Option<TypeExpr>) -> bool
    ensures { IsTrue result ↔ (kind.now ≡ other.now) }
{
    match (kind, other) {
        (Some(ty), Some(other)) => ty.same(other),
        (None, None) => true,
        _ => false,
    }
}

/// Equal types.
#[cycle(copy_type)]
pub fn copy_types(alloc: Global, types: &[TypeExpr]) -> Result<List<TypeExpr>, NoMemory>
    ensures { IfOk result (λ copied. copied ≡ types.now) }
{
    let mut copied = List::new(alloc);
    for ty in types {
        copied.push(ty.copy(alloc)?)?;
    }
    Ok(copied)
}

/// Whether the two lists are equal.
#[cycle(same_type)]
pub fn same_types(types: &[TypeExpr], others: &[TypeExpr]) -> bool
    ensures { IsTrue result ↔ (types.now ≡ others.now) }
{
    if types.len() != others.len() {
        return false;
    }
    for (i, ty) in types.iter().enumerate() {
        if !ty.same(&others[i]) {
            return false;
        }
    }
    true
}

/// Equal type bounds.
#[cycle(copy_type)]
pub fn copy_bounds(alloc: Global, bounds: &[Bound]) -> Result<List<Bound>, NoMemory>
    ensures { IfOk result (λ copied. copied ≡ bounds.now) }
{
    let mut copied = List::new(alloc);
    for bound in bounds {
        copied.push(bound.copy(alloc)?)?;
    }
    Ok(copied)
}

/// Whether the two lists are equal.
#[cycle(same_type)]
pub fn same_bounds(bounds: &[Bound], others: &[Bound]) -> bool
    ensures { IsTrue result ↔ (bounds.now ≡ others.now) }
{
    if bounds.len() != others.len() {
        return false;
    }
    for (i, bound) in bounds.iter().enumerate() {
        if !bound.same(&others[i]) {
            return false;
        }
    }
    true
}
