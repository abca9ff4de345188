//! The symbol instances of formulas, as types.

ghost use Rattle.std.specs.Prelude.{◌≡◌, ◌++◌, ◌∷◌, [], OnOk, map};
ghost use Rattle.tf_core.specs.declared.ty.Ty.TheVariants.{Apply};
ghost use Rattle.tf_core.specs.Sorts.{joined};
ghost use Rattle.enc_mono.specs.Instances.{term_instances, symbol_instances};
ghost use Rattle.enc_mono.specs.Calls.Numbered.{as_type, Lists};

use enc_base::{List, NoMemory};
use std::alloc::Global;
use tf_core::{Nnf, Term, Ty, copy_types};

/// Lists the symbol instances of a formula, each as a type with its symbol in the place of a
/// constructor, in reading order.
#[cycle(list_instances)]
pub(crate) fn list_instances(
    alloc: Global,
    formula: &Nnf,
    listed: &mut List<Ty>,
) -> Result<(), NoMemory>
    ensures { OnOk result (Lists (symbol_instances formula.now) listed.old listed.new) }
{
    match formula {
        Nnf::True => Ok(()),
        Nnf::False => Ok(()),
        Nnf::Atom(_, f, types, terms) => {
            list_instance(alloc, *f, types.as_slice(), listed)?;
            list_in_terms(alloc, terms.as_slice(), listed)
        }
        Nnf::Equation(_, _, left, right) => {
            list_in_term(alloc, left, listed)?;
            list_in_term(alloc, right, listed)
        }
        Nnf::And(parts) => list_in_parts(alloc, parts.as_slice(), listed),
        Nnf::Or(parts) => list_in_parts(alloc, parts.as_slice(), listed),
        Nnf::ForAll(_, body) => list_instances(alloc, body.get(), listed),
        Nnf::Exists(_, body) => list_instances(alloc, body.get(), listed),
    }
}

// lists those of parts, one after another
#[cycle(list_instances)]
fn list_in_parts(alloc: Global, parts: &[Nnf], listed: &mut List<Ty>) -> Result<(), NoMemory>
    ensures { OnOk result (Lists (joined (map symbol_instances parts.now)) listed.old listed.new) }
{
    for part in parts {
        list_instances(alloc, part, listed)?;
    }
    Ok(())
}

// lists those of a term
#[cycle(list_in_term)]
fn list_in_term(alloc: Global, term: &Term, listed: &mut List<Ty>) -> Result<(), NoMemory>
    ensures { OnOk result (Lists (term_instances term.now) listed.old listed.new) }
{
    match term {
        Term::Var(_) => Ok(()),
        Term::Apply(f, types, terms) => {
            list_instance(alloc, *f, types.as_slice(), listed)?;
            list_in_terms(alloc, terms.as_slice(), listed)
        }
    }
}

// lists those of terms, one after another
#[cycle(list_in_term)]
fn list_in_terms(alloc: Global, terms: &[Term], listed: &mut List<Ty>) -> Result<(), NoMemory>
    ensures { OnOk result (Lists (joined (map term_instances terms.now)) listed.old listed.new) }
{
    for term in terms {
        list_in_term(alloc, term, listed)?;
    }
    Ok(())
}

// lists a symbol with its types
fn list_instance(
    alloc: Global,
    symbol: u32,
    types: &[Ty],
    listed: &mut List<Ty>,
) -> Result<(), NoMemory>
    ensures { OnOk result (Lists (record { symbol = symbol; types = types.now } ∷ []) listed.old listed.new) }
{
    listed.push(Ty::Apply(symbol, copy_types(alloc, types)?))
}
