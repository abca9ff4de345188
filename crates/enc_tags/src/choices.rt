ghost use Rattle.std.specs.Prelude.{refl};
ghost use Rattle.enc_marks.specs.Schemes.{tags};

use enc_marks::{Binding, Choices, Domain, Elements, Marking, TypeArguments};
use tf_core::Ty;
use tf_naked::{Kind, Position};

/// The choices of the scheme: a tag at each term, and no axiom.
#[derive(Debug, Clone, Copy)]
pub struct Tags;

impl Choices for Tags {
    ghost choices = { λ it. tags };

    fn keeps(&self) -> TypeArguments {
        TypeArguments::All
    }

    fn tagged(&self, _position: Position, _kind: Kind, _ty: &Ty) -> bool {
        true
    }

    fn universal(&self, _undercover: bool, _naked: bool, _ty: &Ty) -> bool {
        false
    }

    fn existential(&self, _ty: &Ty) -> bool {
        false
    }

    fn typing(&self, _ty: &Ty) -> bool {
        false
    }

    fn premise(&self, _cover: bool, _ty: &Ty) -> bool {
        false
    }

    fn last(&self, _ty: &Ty) -> bool {
        false
    }

    fn marking(&self) -> Marking {
        Marking::ByType
    }

    fn binding(&self) -> Binding {
        Binding::ByTag
    }

    fn domain(&self) -> Domain {
        Domain::Merged
    }

    fn elements(&self) -> Elements {
        Elements::Image
    }

    ghost alike = { λ it by_type position kind ty other. refl };
}
