ghost use Rattle.std.specs.Prelude.{◌≡◌, ◌+◌, [], ◌∷◌, ◌++◌, map, IfOk, OnOk};
ghost use Rattle.tf_core.specs.Sorts.{joined};
ghost use Rattle.tf_naked.specs.Covers.{covers};
ghost use Rattle.tf_naked.specs.Binders.{binder_of, universal_binders};
ghost use Rattle.tf_naked.specs.Calls.Noted.{noted, uses_in, uses_in_parts};

use crate::around::{Around, unused};
use crate::binder::Binder;
use crate::notes::{note_application, note_term};
use crate::position::Position;
use crate::scope::Scope;
use enc_base::{Boxed, List, NoMemory};
use std::alloc::Global;
use tf_core::{Nnf, Signature};

/// Of each universal binder of a formula, in reading order, whether its variable is undercover and
/// whether it is naked: one walk through the formula. `rows` has the covers of each symbol, as
/// `covers_of_symbols` gives them.
pub fn universal_binders(
    alloc: Global,
    signature: &Signature,
    rows: &[List<bool>],
    body: &Nnf,
) -> Result<List<Binder>, NoMemory>
    requires rows { rows.now ≡ map covers signature.now.symbols }
    ensures exact { IfOk result (λ found. found ≡ universal_binders signature.now body.now) }
{
    let scope = Scope { signature, rows };
    let mut around = Around::new(alloc);
    let mut found = Vec::new(alloc);
    find(body, &scope, &mut around, &mut found)?;
    Ok(List::from_vec(found))
}

// appends the universal binders of a formula, and notes how the open variables stand in it
#[cycle(find)]
fn find(
    formula: &Nnf,
    scope: &Scope<'_>,
    around: &mut Around,
    found: &mut Vec<Binder>,
) -> Result<(), NoMemory>
    ensures found { OnOk result (found.new.items ≡ found.old.items
        ++ universal_binders scope.now.signature.now formula.now) }
    ensures noted { OnOk result (around.new
        ≡ noted (uses_in scope.now.signature.now formula.now) around.old) }
{
    match formula {
        Nnf::True => Ok(()),
        Nnf::False => Ok(()),
        Nnf::Atom(_, f, _, terms) => {
            note_application(scope, *f, terms.as_slice(), around);
            Ok(())
        }
        Nnf::Equation(positive, _, left, right) => {
            note_term(scope, left, Position::Side(*positive), around);
            note_term(scope, right, Position::Side(*positive), around);
            Ok(())
        }
        Nnf::And(parts) => find_in_parts(parts.as_slice(), scope, around, found),
        Nnf::Or(parts) => find_in_parts(parts.as_slice(), scope, around, found),
        Nnf::ForAll(_, body) => find_universal(body, scope, around, found),
        Nnf::Exists(_, body) => find_existential(body, scope, around, found),
    }
}

// the same for formulas, one after another
#[cycle(find)]
fn find_in_parts(
    parts: &[Nnf],
    scope: &Scope<'_>,
    around: &mut Around,
    found: &mut Vec<Binder>,
) -> Result<(), NoMemory>
    ensures found { OnOk result (found.new.items ≡ found.old.items
        ++ joined (map (universal_binders scope.now.signature.now) parts.now)) }
    ensures noted { OnOk result (around.new
        ≡ noted (uses_in_parts scope.now.signature.now parts.now) around.old) }
{
    for part in parts {
        find(part, scope, around, found)?;
    }
    Ok(())
}

// the same for a universal binder round a formula
#[cycle(find)]
fn find_universal(
    body: &Boxed<Nnf>,
    scope: &Scope<'_>,
    around: &mut Around,
    found: &mut Vec<Binder>,
) -> Result<(), NoMemory>
    ensures found { OnOk result (found.new.items ≡ found.old.items
        ++ binder_of scope.now.signature.now body.now
        ∷ universal_binders scope.now.signature.now body.now) }
    ensures noted { OnOk result (around.new
        ≡ noted (λ i. uses_in scope.now.signature.now body.now (i + 1)) around.old) }
{
    // its own place, before the binders of its body
    let place = found.len();
    push(found, unused())?;
    found[place] = find_behind(body, scope, around, found)?;
    Ok(())
}

// the same for an existential binder round a formula
#[cycle(find)]
fn find_existential(
    body: &Boxed<Nnf>,
    scope: &Scope<'_>,
    around: &mut Around,
    found: &mut Vec<Binder>,
) -> Result<(), NoMemory>
    ensures found { OnOk result (found.new.items ≡ found.old.items
        ++ universal_binders scope.now.signature.now body.now) }
    ensures noted { OnOk result (around.new
        ≡ noted (λ i. uses_in scope.now.signature.now body.now (i + 1)) around.old) }
{
    find_behind(body, scope, around, found)?;
    Ok(())
}

// the same for a formula behind a binder, and how that binder's variable stands
#[cycle(find)]
fn find_behind(
    body: &Boxed<Nnf>,
    scope: &Scope<'_>,
    around: &mut Around,
    found: &mut Vec<Binder>,
) -> Result<Binder, NoMemory>
    ensures exact { IfOk result (λ binder. binder ≡ binder_of scope.now.signature.now body.now) }
    ensures found { OnOk result (found.new.items ≡ found.old.items
        ++ universal_binders scope.now.signature.now body.now) }
    ensures noted { OnOk result (around.new
        ≡ noted (λ i. uses_in scope.now.signature.now body.now (i + 1)) around.old) }
{
    around.bind()?;
    find(body.get(), scope, around, found)?;
    Ok(around.unbind())
}

// appends a binder
fn push(found: &mut Vec<Binder>, binder: Binder) -> Result<(), NoMemory>
    ensures { OnOk result (found.new.items ≡ found.old.items ++ binder ∷ []) }
{
    match found.push(binder) {
        Ok(()) => Ok(()),
        Err(_) => Err(NoMemory),
    }
}
