//! The kinds of the binders that are open at a place of a formula, kept without memory.

ghost use Rattle.std.specs.Prelude.{◌≡◌, drop, get_or};
ghost use Rattle.tf_naked.specs.Calls.Frames.{kinds_of};
ghost use Rattle.tf_naked.specs.Standing.{kind_of};
ghost use Rattle.tf_naked.specs.declared.position.Kind.TheVariants.{Universal};

use crate::position::Kind;
use tf_core::Term;

/// The open binders, the nearest first: each frame stands on the stack and borrows the next one.
#[derive(Clone, Copy)]
pub(crate) enum Frames<'f> {
    Outside,
    Inside(Kind, &'f Frames<'f>),
}

/// What a term is under these binders.
pub(crate) fn kind_of<'f>(frames: &'f Frames<'f>, term: &Term) -> Kind
    ensures { result ≡ kind_of (kinds_of frames.now) term.now }
{
    match term {
        Term::Var(i) => kind_at(frames, *i),
        Term::Apply(_, _, _) => Kind::Applied,
    }
}

// the kind of the i-th binder; a variable without a binder counts as universal
fn kind_at<'f>(frames: &'f Frames<'f>, i: u32) -> Kind
    ensures { result ≡ get_or (kinds_of frames.now) i Universal }
{
    let mut nearest = frames;
    for _ in 0..i {
        nearest = behind(nearest);
    }
    first(nearest)
}

// the binders behind the nearest
fn behind<'f>(frames: &'f Frames<'f>) -> &'f Frames<'f>
    ensures { kinds_of result.now ≡ drop 1 (kinds_of frames.now) }
{
    match frames {
        Frames::Outside => frames,
        Frames::Inside(_, outer) => outer,
    }
}

// the kind of the nearest binder
fn first<'f>(frames: &'f Frames<'f>) -> Kind
    ensures { result ≡ get_or (kinds_of frames.now) 0 Universal }
{
    match frames {
        Frames::Outside => Kind::Universal,
        Frames::Inside(kind, _) => *kind,
    }
}
