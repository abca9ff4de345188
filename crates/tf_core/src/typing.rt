ghost use Rattle.std.specs.Prelude.{◌≡◌, ◌↔◌, [], IsTrue, IfOk, slice_get};
ghost use Rattle.std.specs.List.{list_all};
ghost use Rattle.tf_core.specs.Typing.{IsSignature, IsProblem, IsNormal};
ghost use Rattle.tf_core.specs.TypingTests.{takes, is_type, are_types, is_result, is_symbol, is_formula, is_nnf};

use crate::context::Context;
use crate::formula_typing::is_formula;
use crate::nnf_typing::is_nnf;
use crate::normal::{Normal, NormalFormula};
use crate::problem::{Problem, Stated};
use crate::scope::Scope;
use crate::signature::{Signature, Symbol};
use crate::ty::Ty;
use enc_base::NoMemory;
use std::alloc::Global;

impl Signature {
    /// Whether every type of the signature is formed from its constructors at their numbers of
    /// arguments and from its symbol's own parameters. It takes no memory.
    pub fn check(&self) -> bool
        ensures exact { IsTrue result ↔ IsSignature self.now }
    {
        are_symbols(self, self.symbols.as_slice())
    }

    // whether a constructor is there, with so many arguments
    fn takes(&self, c: u32, count: usize) -> bool
        ensures { result ≡ takes (slice_get self.now.constructors c) count }
    {
        match self.constructors.as_slice().get(c as usize) {
            Some(constructor) => count == constructor.arity as usize,
            None => false,
        }
    }
}

impl Problem {
    /// Whether the problem is well typed. It takes memory for the types of nested binders alone.
    pub fn check(&self, alloc: Global) -> Result<bool, NoMemory>
        ensures exact { IfOk result (λ typed. IsTrue typed ↔ IsProblem self.now) }
    {
        if !self.signature.check() {
            return Ok(false);
        }
        are_stated(alloc, &self.signature, self.formulas.as_slice())
    }
}

impl Normal {
    /// Whether the problem is well typed. It takes memory for the types of nested binders alone.
    pub fn check(&self, alloc: Global) -> Result<bool, NoMemory>
        ensures exact { IfOk result (λ typed. IsTrue typed ↔ IsNormal self.now) }
    {
        if !self.signature.check() {
            return Ok(false);
        }
        are_normal(alloc, &self.signature, self.formulas.as_slice())
    }
}

// whether each stated formula is well typed
fn are_stated(alloc: Global, signature: &Signature, formulas: &[Stated]) -> Result<bool, NoMemory>
    ensures exact { IfOk result (λ typed. typed ≡ list_all (λ formula. is_formula signature.now formula.type_variables formula.body []) formulas.now) }
{
    let mut context = Context::new(alloc);
    for formula in formulas {
        let scope = Scope {
            signature,
            variables: formula.type_variables,
        };
        if !is_formula(&formula.body, &scope, &mut context)? {
            return Ok(false);
        }
    }
    Ok(true)
}

// whether each formula of a normal problem is well typed
fn are_normal(
    alloc: Global,
    signature: &Signature,
    formulas: &[NormalFormula],
) -> Result<bool, NoMemory>
    ensures exact { IfOk result (λ typed. typed ≡ list_all (λ formula. is_nnf signature.now formula.type_variables formula.body []) formulas.now) }
{
    let mut context = Context::new(alloc);
    for formula in formulas {
        let scope = Scope {
            signature,
            variables: formula.type_variables,
        };
        if !is_nnf(&formula.body, &scope, &mut context)? {
            return Ok(false);
        }
    }
    Ok(true)
}

// whether each symbol's types are formed
fn are_symbols(signature: &Signature, symbols: &[Symbol]) -> bool
    ensures { result ≡ list_all (is_symbol signature.now) symbols.now }
{
    for symbol in symbols {
        if !has_formed_types(signature, symbol) {
            return false;
        }
    }
    true
}

// whether a symbol's types are formed
fn has_formed_types(signature: &Signature, symbol: &Symbol) -> bool
    ensures { result ≡ is_symbol signature.now symbol.now }
{
    are_formed(signature, symbol.parameters, symbol.arguments.as_slice())
        && is_formed_result(signature, symbol.parameters, &symbol.result)
}

// whether a result's type is formed, where there is one
fn is_formed_result(signature: &Signature, parameters: u32, given: &Option<Ty>) -> bool
    ensures { result ≡ is_result signature.now parameters given.now }
{
    match given {
        None => true,
        Some(ty) => is_formed(signature, parameters, ty),
    }
}

// whether a type is formed from so many variables
#[cycle(formed)]
pub(crate) fn is_formed(signature: &Signature, variables: u32, ty: &Ty) -> bool
    ensures { result ≡ is_type signature.now variables ty.now }
{
    match ty {
        Ty::Var(i) => *i < variables,
        Ty::Apply(c, types) => {
            signature.takes(*c, types.as_slice().len())
                && are_formed(signature, variables, types.as_slice())
        }
    }
}

// whether each type is formed
#[cycle(formed)]
pub(crate) fn are_formed(signature: &Signature, variables: u32, types: &[Ty]) -> bool
    ensures { result ≡ are_types signature.now variables types.now }
{
    for ty in types {
        if !is_formed(signature, variables, ty) {
            return false;
        }
    }
    true
}
