ghost use Rattle.std.specs.Prelude.{◌≡◌, refl};
ghost use Rattle.enc_marks.specs.Schemes.{guards_cover, tags_cover};
ghost use Rattle.tf_naked.specs.Standing.{is_covering, is_variable};

use enc_marks::{Binding, Choices, Domain, Elements, Marking, TypeArguments};
use tf_core::Ty;
use tf_naked::{Kind, Position};

/// The choices of `guards_cover`: a guard at undercover universal variables and at existential
/// ones, and a premise of a typing axiom for each cover.
#[derive(Debug, Clone, Copy)]
pub struct GuardsCover;

impl Choices for GuardsCover {
    ghost choices = { λ it. guards_cover };

    fn keeps(&self) -> TypeArguments {
        TypeArguments::Uncovered
    }

    fn tagged(&self, _position: Position, _kind: Kind, _ty: &Ty) -> bool {
        false
    }

    fn universal(&self, undercover: bool, _naked: bool, _ty: &Ty) -> bool {
        undercover
    }

    fn existential(&self, _ty: &Ty) -> bool {
        true
    }

    fn typing(&self, _ty: &Ty) -> bool {
        true
    }

    fn premise(&self, cover: bool, _ty: &Ty) -> bool {
        cover
    }

    fn last(&self, _ty: &Ty) -> bool {
        true
    }

    fn marking(&self) -> Marking {
        Marking::ByType
    }

    fn binding(&self) -> Binding {
        Binding::ByGuard
    }

    fn domain(&self) -> Domain {
        Domain::Merged
    }

    fn elements(&self) -> Elements {
        Elements::Guarded
    }

    ghost alike = { λ it by_type position kind ty other. refl };
}

/// The choices of `tags_cover`: a tag at variables at covers and on sides of positive equations.
#[derive(Debug, Clone, Copy)]
pub struct TagsCover;

impl Choices for TagsCover {
    ghost choices = { λ it. tags_cover };

    fn keeps(&self) -> TypeArguments {
        TypeArguments::Uncovered
    }

    fn tagged(&self, position: Position, kind: Kind, _ty: &Ty) -> bool {
        is_covering(position) && is_variable(kind)
    }

    fn universal(&self, _undercover: bool, _naked: bool, _ty: &Ty) -> bool {
        false
    }

    fn existential(&self, _ty: &Ty) -> bool {
        true
    }

    fn typing(&self, _ty: &Ty) -> bool {
        true
    }

    fn premise(&self, _cover: bool, _ty: &Ty) -> bool {
        false
    }

    fn last(&self, _ty: &Ty) -> bool {
        true
    }

    fn marking(&self) -> Marking {
        Marking::ByType
    }

    fn binding(&self) -> Binding {
        Binding::ByTag
    }

    fn domain(&self) -> Domain {
        Domain::Merged
    }

    fn elements(&self) -> Elements {
        Elements::Fixed
    }

    ghost alike = { λ it by_type position kind ty other. refl };
}

// whether a term may be tagged here: at a cover, or on a side of a positive equation
fn is_covering(position: Position) -> bool
    ensures { result ≡ is_covering position }
{
    match position {
        Position::Argument(cover) => cover,
        Position::Side(positive) => positive,
    }
}

// whether a term is a variable, however bound
fn is_variable(kind: Kind) -> bool
    ensures { result ≡ is_variable kind }
{
    match kind {
        Kind::Universal => true,
        Kind::Existential => true,
        Kind::Applied => false,
    }
}
