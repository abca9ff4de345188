ghost use Rattle.std.specs.Prelude.{◌≡◌, map, count_by, replicate, true, IfOk};
ghost use Rattle.enc_marks.specs.Choices.{kept_types};

use crate::choices::TypeArguments;
use enc_base::{List, NoMemory};
use std::alloc::Global;
use tf_core::Symbol;
use tf_naked::kept_of_symbol;

// so many flags that are up
fn raised(alloc: Global, count: u32) -> Result<List<bool>, NoMemory>
    ensures { IfOk result (λ flags. flags ≡ replicate count true) }
{
    match vec![in alloc; true; count as usize] {
        Ok(flags) => Ok(List::from_vec(flags)),
        Err(_) => Err(NoMemory),
    }
}

// the type arguments of a symbol that are written
fn kept_of(alloc: Global, keeps: TypeArguments, symbol: &Symbol) -> Result<List<bool>, NoMemory>
    ensures { IfOk result (λ kept. kept ≡ kept_types keeps symbol.now) }
{
    match keeps {
        TypeArguments::All => raised(alloc, symbol.parameters),
        TypeArguments::Uncovered => kept_of_symbol(alloc, symbol),
        TypeArguments::Nothing => Ok(List::new(alloc)),
    }
}

/// Of each symbol, the type arguments that are written.
pub fn kept_of_symbols(
    alloc: Global,
    keeps: TypeArguments,
    symbols: &[Symbol],
) -> Result<List<List<bool>>, NoMemory>
    ensures { IfOk result (λ kept. kept ≡ map (kept_types keeps) symbols.now) }
{
    let mut kept = List::new(alloc);
    for symbol in symbols {
        kept.push(kept_of(alloc, keeps, symbol)?)?;
    }
    Ok(kept)
}

/// How many flags are up.
pub fn count_raised(flags: &[bool]) -> usize
    ensures { result ≡ count_by (λ flag. flag) flags.now }
{
    let mut count = 0;
    for flag in flags {
        if *flag {
            count += 1;
        }
    }
    count
}
