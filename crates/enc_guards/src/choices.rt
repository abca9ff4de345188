ghost use Rattle.std.specs.Prelude.{refl};
ghost use Rattle.enc_marks.specs.Schemes.{guards};

use enc_marks::{Binding, Choices, Domain, Elements, Marking, TypeArguments};
use tf_core::Ty;
use tf_naked::{Kind, Position};

/// The choices of the scheme: a guard at each binder, and a typing axiom for each function.
#[derive(Debug, Clone, Copy)]
pub struct Guards;

impl Choices for Guards {
    ghost choices = { λ it. guards };

    fn keeps(&self) -> TypeArguments {
        TypeArguments::All
    }

    fn tagged(&self, _position: Position, _kind: Kind, _ty: &Ty) -> bool {
        false
    }

    fn universal(&self, _undercover: bool, _naked: bool, _ty: &Ty) -> bool {
        true
    }

    fn existential(&self, _ty: &Ty) -> bool {
        true
    }

    fn typing(&self, _ty: &Ty) -> bool {
        true
    }

    fn premise(&self, _cover: bool, _ty: &Ty) -> bool {
        true
    }

    fn last(&self, _ty: &Ty) -> bool {
        true
    }

    fn marking(&self) -> Marking {
        Marking::ByType
    }

    fn binding(&self) -> Binding {
        Binding::ByGuard
    }

    fn domain(&self) -> Domain {
        Domain::Merged
    }

    fn elements(&self) -> Elements {
        Elements::Guarded
    }

    ghost alike = { λ it by_type position kind ty other. refl };
}
