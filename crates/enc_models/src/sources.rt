//! Which arguments of a symbol's translation tell the members for its parameters.

ghost use Rattle.std.specs.Prelude.{◌≡◌, ◌<◌, ◌≤◌, ℕ, map, length, cond, get_or, IfOk};
ghost use Rattle.tf_naked.specs.Covers.{argument_parameters, is_parameter, parameter_of};
ghost use Rattle.enc_marks.specs.Choices.{kept_types};
ghost use Rattle.enc_models.specs.Calls.Sources.{cover_from, sources};

use crate::kept::{count_kept, kept_of};
use enc_base::{List, NoMemory};
use enc_marks::TypeArguments;
use std::alloc::Global;
use tf_core::{Symbol, Ty};

/// The sources of each symbol's parameters. It takes time in proportion to the symbols' arguments
/// and parameters.
pub(crate) fn sources_of_symbols(
    alloc: Global,
    keeps: TypeArguments,
    symbols: &[Symbol],
) -> Result<List<List<usize>>, NoMemory>
    ensures { IfOk result (λ all. all
        ≡ map (λ symbol. sources (kept_types keeps symbol) symbol) symbols.now) }
{
    let mut all = List::new(alloc);
    for symbol in symbols {
        let kept = kept_of(alloc, keeps, symbol)?;
        all.push(sources_of_symbol(alloc, kept.as_slice(), symbol)?)?;
    }
    Ok(all)
}

// For each parameter of a symbol, of which these are kept, the place of the argument that tells its
// member: of its type argument, or of the argument at its cover.
fn sources_of_symbol(alloc: Global, kept: &[bool], symbol: &Symbol) -> Result<List<usize>, NoMemory>
    ensures { IfOk result (λ found. found ≡ sources kept.now symbol.now) }
{
    let covers = covers_of_symbol(alloc, symbol, kept.len(), count_kept(kept))?;
    let mut sources = List::new(alloc);
    let mut next = 0usize;
    for (parameter, is_kept) in kept.iter().enumerate() {
        if *is_kept {
            sources.push(next)?;
            next += 1;
        } else {
            sources.push(covers[parameter])?;
        }
    }
    Ok(sources)
}

// Of so many parameters, the place of the argument at each one's cover, where the arguments begin
// here. Those of a parameter are met from the last to the first, which stays.
fn covers_of_symbol(
    alloc: Global,
    symbol: &Symbol,
    count: usize,
    first: usize,
) -> Result<Vec<usize>, NoMemory>
    requires few { first ≤ count }
    ensures long { IfOk result (λ covers. length covers.items ≡ count) }
    ensures each { IfOk result (λ covers. (parameter : ℕ) → parameter < count →
        get_or covers.items parameter 0
        ≡ cover_from parameter first (argument_parameters symbol.now)) }
{
    let mut covers = vec![in alloc; 0usize; count]?;
    let arguments = symbol.arguments.as_slice();
    let mut left = arguments.len();
    while left > 0 {
        left -= 1;
        note_cover(&mut covers, &arguments[left], first + left);
    }
    Ok(covers)
}

// notes the place of an argument at the parameter that its type is
fn note_cover(covers: &mut Vec<usize>, ty: &Ty, place: usize)
    ensures long { length covers.new.items ≡ length covers.old.items }
    ensures each { (parameter : ℕ) → parameter < length covers.old.items →
        get_or covers.new.items parameter 0
        ≡ cond (is_parameter parameter (parameter_of ty.now)) place
        (get_or covers.old.items parameter 0) }
{
    match ty {
        Ty::Var(i) => {
            let parameter = *i as usize;
            if parameter < covers.len() {
                covers[parameter] = place;
            }
        }
        Ty::Apply(_, _) => {}
    }
}
