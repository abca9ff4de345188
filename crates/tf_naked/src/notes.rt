//! Which open variables stand where in terms.

ghost use Rattle.std.specs.Prelude.{◌≡◌};
ghost use Rattle.tf_naked.specs.Calls.Noted.{noted, uses_at, uses_in_arguments, uses_in_application};

use crate::around::Around;
use crate::position::Position;
use crate::scope::Scope;
use tf_core::Term;

// notes how the open variables stand in a term in its position
#[cycle(note)]
pub(crate) fn note_term(scope: &Scope<'_>, term: &Term, position: Position, around: &mut Around)
    ensures { around.new ≡ noted (uses_at scope.now.signature.now position term.now) around.old }
{
    match term {
        Term::Var(i) => around.note(*i, position),
        Term::Apply(f, _, terms) => note_application(scope, *f, terms.as_slice(), around),
    }
}

// notes how they stand in the terms to which a symbol is applied
#[cycle(note)]
pub(crate) fn note_application(scope: &Scope<'_>, f: u32, terms: &[Term], around: &mut Around)
    ensures { around.new ≡ noted (uses_in_application scope.now.signature.now f terms.now)
        around.old }
{
    note_arguments(scope, scope.covers_of(f), terms, around);
}

// notes how they stand in terms at argument places, covers or not
#[cycle(note)]
fn note_arguments(scope: &Scope<'_>, covers: &[bool], terms: &[Term], around: &mut Around)
    ensures { around.new ≡ noted (uses_in_arguments scope.now.signature.now covers.now terms.now)
        around.old }
{
    for (i, term) in terms.iter().enumerate() {
        if i >= covers.len() {
            return;
        }
        note_term(scope, term, Position::Argument(covers[i]), around);
    }
}
