ghost use Rattle.std.specs.Prelude.{refl};
ghost use Rattle.enc_marks.specs.Schemes.{args};

use enc_marks::{Binding, Choices, Domain, Elements, Marking, TypeArguments};
use tf_core::Ty;
use tf_naked::{Kind, Position};

/// The choices of `args`: all type arguments, and nothing else.
#[derive(Debug, Clone, Copy)]
pub struct Args;

impl Choices for Args {
    ghost choices = { λ it. args };

    fn keeps(&self) -> TypeArguments {
        TypeArguments::All
    }

    fn tagged(&self, _position: Position, _kind: Kind, _ty: &Ty) -> bool {
        false
    }

    fn universal(&self, _undercover: bool, _naked: bool, _ty: &Ty) -> bool {
        false
    }

    fn existential(&self, _ty: &Ty) -> bool {
        false
    }

    fn typing(&self, _ty: &Ty) -> bool {
        false
    }

    fn premise(&self, _cover: bool, _ty: &Ty) -> bool {
        false
    }

    fn last(&self, _ty: &Ty) -> bool {
        false
    }

    fn marking(&self) -> Marking {
        Marking::ByType
    }

    fn binding(&self) -> Binding {
        Binding::ByGuard
    }

    fn domain(&self) -> Domain {
        Domain::Collapsed
    }

    fn elements(&self) -> Elements {
        Elements::All
    }

    ghost alike = { λ it by_type position kind ty other. refl };
}
