//! The first naked place of a normal problem.

ghost use Rattle.std.specs.Prelude.{◌≡◌, ◌+◌, ◌^◌, ◌<◌, map, length};
ghost use Rattle.tf_core.specs.Sorts.{joined};
ghost use Rattle.tf_core.specs.Sound.{IsSoundNormal};
ghost use Rattle.tf_naked.specs.Naked.{first_naked, equations_of};
ghost use Rattle.tf_naked.specs.Standing.{kind_of, is_universal};
ghost use Rattle.tf_naked.specs.Calls.Frames.{kinds_of};
ghost use Rattle.tf_naked.specs.Calls.Walked.{walked, walked_side, first_side};

use crate::kinds::{Frames, kind_of};
use crate::place::Place;
use crate::position::Kind;
use tf_core::{Nnf, Normal, Term};

/// How a walk through equations ends.
#[derive(Debug, Drop)]
pub(crate) enum Walk {
    /// At the first naked place.
    Found(Place),
    /// Without one: this is the number of the next equation.
    Passed(usize),
}

/// The first naked place of a problem, where it has one: one walk through its formulas, which takes
/// no memory. Each variable at a side of a positive equation costs as many steps as there are
/// binders between it and its own.
pub fn first_naked(normal: &Normal) -> Option<Place>
    requires sound { IsSoundNormal normal.now }
    ensures exact { result ≡ first_naked normal.now }
{
    for (i, formula) in normal.formulas.as_slice().iter().enumerate() {
        if let Walk::Found(place) = first_place(&formula.body, i, 0, &Frames::Outside) {
            return Some(place);
        }
    }
    None
}

// through the equations of a part of the formula with this number, itself numbered from here on
#[cycle(first_place)]
fn first_place<'f>(part: &Nnf, formula: usize, number: usize, frames: &'f Frames<'f>) -> Walk
    requires few { number + length (equations_of part.now (kinds_of frames.now)) < 2 ^ 63 }
    ensures { result ≡ walked formula number (equations_of part.now (kinds_of frames.now)) }
{
    match part {
        Nnf::True => Walk::Passed(number),
        Nnf::False => Walk::Passed(number),
        Nnf::Atom(_, _, _, _) => Walk::Passed(number),
        Nnf::Equation(positive, _, left, right) => {
            place_of_side(formula, number, first_side(*positive, left, right, frames))
        }
        Nnf::And(parts) => first_in_parts(parts.as_slice(), formula, number, frames),
        Nnf::Or(parts) => first_in_parts(parts.as_slice(), formula, number, frames),
        Nnf::ForAll(_, body) => {
            first_place(
                body.get(),
                formula,
                number,
                &Frames::Inside(Kind::Universal, frames),
            )
        }
        Nnf::Exists(_, body) => {
            first_place(
                body.get(),
                formula,
                number,
                &Frames::Inside(Kind::Existential, frames),
            )
        }
    }
}

// through the equations of parts, one after another
#[cycle(first_place)]
fn first_in_parts<'f>(parts: &[Nnf], formula: usize, number: usize, frames: &'f Frames<'f>) -> Walk
    requires few { number
        + length (joined (map (λ part. equations_of part (kinds_of frames.now)) parts.now))
        < 2 ^ 63 }
    ensures { result ≡ walked formula number
        (joined (map (λ part. equations_of part (kinds_of frames.now)) parts.now)) }
{
    let mut next = number;
    for part in parts {
        match first_place(part, formula, next, frames) {
            Walk::Found(place) => return Walk::Found(place),
            Walk::Passed(number) => next = number,
        }
    }
    Walk::Passed(next)
}

// through an equation with this first naked side
fn place_of_side(formula: usize, number: usize, side: Option<u32>) -> Walk
    requires few { number < 2 ^ 63 }
    ensures { result ≡ walked_side formula number side }
{
    match side {
        Some(side) => Walk::Found(Place {
            formula,
            equation: number,
            side,
        }),
        None => Walk::Passed(number + 1),
    }
}

/// The first side of an equation that is naked.
pub(crate) fn first_side<'f>(
    positive: bool,
    left: &Term,
    right: &Term,
    frames: &'f Frames<'f>,
) -> Option<u32>
    ensures { result ≡ first_side positive (kind_of (kinds_of frames.now) left.now)
        (kind_of (kinds_of frames.now) right.now) }
{
    if !positive {
        return None;
    }
    if is_universal(kind_of(frames, left)) {
        return Some(0);
    }
    if is_universal(kind_of(frames, right)) {
        return Some(1);
    }
    None
}

// whether a term of this kind is a variable of a universal binder
fn is_universal(kind: Kind) -> bool
    ensures { result ≡ is_universal kind }
{
    match kind {
        Kind::Universal => true,
        Kind::Existential => false,
        Kind::Applied => false,
    }
}
