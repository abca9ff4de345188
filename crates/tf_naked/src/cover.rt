ghost use Rattle.std.specs.Prelude.{◌≡◌, ◌<◌, ◌^◌, true, false, length, map, replicate, IfOk};
ghost use Rattle.tf_core.specs.Typing.{IsSignature};
ghost use Rattle.tf_naked.specs.Covers.{parameter_of, is_parameter, cover_of, kept_parameters, covers, IsOwn, HasOwnParameters};
ghost use Rattle.tf_naked.specs.Calls.Flags.{is_unseen, flagged};

use enc_base::{List, NoMemory};
use std::alloc::Global;
use tf_core::{Signature, Symbol, Ty};

/// The cover of a parameter: the first argument place whose declared type is that parameter itself.
/// It takes no memory.
pub fn cover_of(symbol: &Symbol, parameter: u32) -> Option<u32>
    requires few { length symbol.now.arguments < 2 ^ 28 }
    ensures exact { result ≡ cover_of symbol.now parameter }
{
    for (i, ty) in symbol.arguments.as_slice().iter().enumerate() {
        if is_that_parameter(ty, parameter) {
            return Some(i as u32);
        }
    }
    None
}

// whether a type is the parameter itself
fn is_that_parameter(ty: &Ty, parameter: u32) -> bool
    ensures { result ≡ is_parameter parameter (parameter_of ty.now) }
{
    match ty {
        Ty::Var(i) => parameter == *i,
        Ty::Apply(_, _) => false,
    }
}

/// For each argument place of each symbol of a signature, whether it is the cover of a parameter.
pub fn covers_of_symbols(alloc: Global, signature: &Signature) -> Result<List<List<bool>>, NoMemory>
    requires typed { IsSignature signature.now }
    ensures exact { IfOk result (λ rows. rows ≡ map covers signature.now.symbols) }
{
    let mut rows = List::new(alloc);
    for symbol in signature.symbols.as_slice() {
        rows.push(covers_of_symbol(alloc, symbol)?)?;
    }
    Ok(rows)
}

/// For each argument place of a symbol, whether it is the cover of a parameter. It takes time in
/// proportion to the symbol's arguments and parameters.
pub fn covers_of_symbol(alloc: Global, symbol: &Symbol) -> Result<List<bool>, NoMemory>
    requires own { HasOwnParameters symbol.now }
    ensures exact { IfOk result (λ found. found ≡ covers symbol.now) }
{
    let mut seen = flags(alloc, false, symbol.parameters)?;
    let mut found = List::new(alloc);
    for ty in symbol.arguments.as_slice() {
        found.push(is_first(&mut seen, ty))?;
    }
    Ok(found)
}

/// For each parameter of a symbol, whether it is kept: whether it has no cover. It takes time in
/// proportion to the symbol's arguments and parameters.
pub fn kept_of_symbol(alloc: Global, symbol: &Symbol) -> Result<List<bool>, NoMemory>
    ensures exact { IfOk result (λ kept. kept ≡ kept_parameters symbol.now) }
{
    let mut kept = flags(alloc, true, symbol.parameters)?;
    for ty in symbol.arguments.as_slice() {
        drop_parameter(&mut kept, ty);
    }
    Ok(List::from_vec(kept))
}

// a flag, so many times
fn flags(alloc: Global, flag: bool, count: u32) -> Result<Vec<bool>, NoMemory>
    ensures { IfOk result (λ flags. flags.items ≡ replicate count flag) }
{
    match vec![in alloc; flag; count as usize] {
        Ok(flags) => Ok(flags),
        Err(_) => Err(NoMemory),
    }
}

// whether a type is a parameter that wasn't seen before; now it is
fn is_first(seen: &mut Vec<bool>, ty: &Ty) -> bool
    requires own { IsOwn (length seen.old.items) (parameter_of ty.now) }
    ensures exact { result ≡ is_unseen seen.old.items (parameter_of ty.now) }
    ensures seen { seen.new.items ≡ flagged true seen.old.items (parameter_of ty.now) }
{
    match ty {
        Ty::Var(i) => {
            let place = *i as usize;
            let first = !seen[place];
            seen[place] = true;
            first
        }
        Ty::Apply(_, _) => false,
    }
}

// keeps the parameter no longer that a type is
fn drop_parameter(kept: &mut Vec<bool>, ty: &Ty)
    ensures { kept.new.items ≡ flagged false kept.old.items (parameter_of ty.now) }
{
    match ty {
        Ty::Var(i) => {
            let place = *i as usize;
            if place < kept.len() {
                kept[place] = false;
            }
        }
        Ty::Apply(_, _) => {}
    }
}
