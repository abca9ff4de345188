ghost use Rattle.std.specs.Prelude.{refl};
ghost use Rattle.enc_marks.specs.Schemes.{erase};
ghost use Rattle.enc_marks.proofs.Alike.{alike_by_sort};

use enc_marks::{Binding, Choices, Domain, Elements, Marking, TypeArguments};
use tf_core::Ty;
use tf_naked::{Kind, Position};

/// The choices of `erase`: nothing at all.
#[derive(Debug, Clone, Copy)]
pub struct Erase;

impl Choices for Erase {
    ghost choices = { λ it. erase };

    fn keeps(&self) -> TypeArguments {
        TypeArguments::Nothing
    }

    fn tagged(&self, _position: Position, _kind: Kind, _ty: &Ty) -> bool {
        false
    }

    fn universal(&self, _undercover: bool, _naked: bool, _ty: &Ty) -> bool {
        false
    }

    fn existential(&self, _ty: &Ty) -> bool {
        false
    }

    fn typing(&self, _ty: &Ty) -> bool {
        false
    }

    fn premise(&self, _cover: bool, _ty: &Ty) -> bool {
        false
    }

    fn last(&self, _ty: &Ty) -> bool {
        false
    }

    fn marking(&self) -> Marking {
        Marking::BySort
    }

    fn binding(&self) -> Binding {
        Binding::ByGuard
    }

    fn domain(&self) -> Domain {
        Domain::Collapsed
    }

    fn elements(&self) -> Elements {
        Elements::All
    }

    ghost alike = { λ it. alike_by_sort erase refl };
}
