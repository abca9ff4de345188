//! For which name a scheme is refused that asks for a problem without type variables.

ghost use Rattle.std.specs.Prelude.{◌≡◌, MatchOption, Some, None, IfOk, slice_get, filter, not, eqb};
ghost use Rattle.enc_marks.specs.Applies.{first_polymorphic};

use enc_base::{Name, NoMemory};
use std::alloc::Global;
use tf_core::{Normal, NormalFormula, Symbol};

/// The name of the first symbol with a parameter, else of the first formula with a type variable,
/// where the problem has one or the other.
pub fn first_polymorphic(alloc: Global, normal: &Normal) -> Result<Option<Name>, NoMemory>
    ensures exact { IfOk result (λ name. name ≡ first_polymorphic normal.now) }
{
    if let Some(symbol) = first_with_parameter(normal.signature.symbols.as_slice()) {
        return Ok(Some(symbol.name.copy(alloc)?));
    }
    match first_with_variable(normal.formulas.as_slice()) {
        Some(formula) => Ok(Some(formula.name.copy(alloc)?)),
        None => Ok(None),
    }
}

fn first_with_parameter(symbols: &[Symbol]) -> Option<&Symbol>
    ensures { MatchOption result
        (slice_get (filter (λ symbol. not (eqb symbol.parameters 0)) symbols.now) 0 ≡ None)
        (λ symbol. slice_get (filter (λ symbol. not (eqb symbol.parameters 0)) symbols.now) 0
        ≡ Some symbol.now) }
{
    for symbol in symbols {
        if symbol.parameters != 0 {
            return Some(symbol);
        }
    }
    None
}

fn first_with_variable(formulas: &[NormalFormula]) -> Option<&NormalFormula>
    ensures { MatchOption result
        (slice_get (filter (λ formula. not (eqb formula.type_variables 0)) formulas.now) 0 ≡ None)
        (λ formula. slice_get (filter (λ formula. not (eqb formula.type_variables 0)) formulas.now)
        0 ≡ Some formula.now) }
{
    for formula in formulas {
        if formula.type_variables != 0 {
            return Some(formula);
        }
    }
    None
}
