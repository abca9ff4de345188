//! Which type arguments of a symbol its translation keeps.

ghost use Rattle.std.specs.Prelude.{◌≡◌, map, count_by, replicate, true, IfOk};
ghost use Rattle.enc_marks.specs.Choices.{kept_types};

use enc_base::{List, NoMemory};
use enc_marks::TypeArguments;
use std::alloc::Global;
use tf_core::Symbol;
use tf_naked::kept_of_symbol;

/// Of each symbol, which of its type arguments are kept. It takes time in proportion to the
/// symbols' arguments and parameters.
pub(crate) fn kept_of_symbols(
    alloc: Global,
    keeps: TypeArguments,
    symbols: &[Symbol],
) -> Result<List<List<bool>>, NoMemory>
    ensures { IfOk result (λ kept. kept ≡ map (kept_types keeps) symbols.now) }
{
    let mut kept = List::new(alloc);
    for symbol in symbols {
        kept.push(kept_of(alloc, keeps, symbol)?)?;
    }
    Ok(kept)
}

/// Which type arguments of a symbol are kept.
pub(crate) fn kept_of(
    alloc: Global,
    keeps: TypeArguments,
    symbol: &Symbol,
) -> Result<List<bool>, NoMemory>
    ensures { IfOk result (λ kept. kept ≡ kept_types keeps symbol.now) }
{
    match keeps {
        TypeArguments::All => all_kept(alloc, symbol.parameters),
        TypeArguments::Uncovered => kept_of_symbol(alloc, symbol),
        TypeArguments::Nothing => Ok(List::new(alloc)),
    }
}

// so many type arguments, all of them kept
fn all_kept(alloc: Global, count: u32) -> Result<List<bool>, NoMemory>
    ensures { IfOk result (λ kept. kept ≡ replicate count true) }
{
    match vec![in alloc; true; count as usize] {
        Ok(kept) => Ok(List::from_vec(kept)),
        Err(_) => Err(NoMemory),
    }
}

/// How many type arguments are kept.
pub(crate) fn count_kept(kept: &[bool]) -> usize
    ensures { result ≡ count_by (λ kept. kept) kept.now }
{
    let mut count = 0;
    for is_kept in kept {
        if *is_kept {
            count += 1;
        }
    }
    count
}
