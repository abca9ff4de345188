ghost use Rattle.std.specs.Prelude.{◌≡◌, refl};
ghost use Rattle.tf_naked.specs.Standing.{is_positive_side, is_universal};
ghost use Rattle.enc_marks.specs.FreeByTable.{is_free_by};
ghost use Rattle.enc_marks.specs.Schemes.{tags_feather};
ghost use Rattle.enc_marks.proofs.Alike.{alike_by_sort};

use enc_marks::{Binding, Choices, Domain, Elements, FreeSorts, Marking, TypeArguments};
use tf_core::Ty;
use tf_naked::{Kind, Position};

/// The choices of `tags_feather`: a tag at naked places of sorts that aren't free, and existential
/// variables of these are left as they are by their tags.
#[derive(Clone, Copy)]
pub struct TagsFeather<'a> {
    pub free: &'a FreeSorts,
}

impl<'a> Choices for TagsFeather<'a> {
    ghost choices = { λ it. tags_feather (is_free_by it.free.now) };

    fn keeps(&self) -> TypeArguments {
        TypeArguments::Nothing
    }

    fn tagged(&self, position: Position, kind: Kind, ty: &Ty) -> bool {
        is_positive_side(position) && is_universal(kind) && !self.free.is_free(ty)
    }

    fn universal(&self, _undercover: bool, _naked: bool, _ty: &Ty) -> bool {
        false
    }

    fn existential(&self, ty: &Ty) -> bool {
        !self.free.is_free(ty)
    }

    fn typing(&self, ty: &Ty) -> bool {
        !self.free.is_free(ty)
    }

    fn premise(&self, _cover: bool, _ty: &Ty) -> bool {
        false
    }

    fn last(&self, ty: &Ty) -> bool {
        !self.free.is_free(ty)
    }

    fn marking(&self) -> Marking {
        Marking::BySort
    }

    fn binding(&self) -> Binding {
        Binding::ByTag
    }

    fn domain(&self) -> Domain {
        Domain::Collapsed
    }

    fn elements(&self) -> Elements {
        Elements::Fixed
    }

    ghost alike = { λ it. alike_by_sort (tags_feather (is_free_by it.free.now)) refl };
}

// whether a place is a side of a positive equation
fn is_positive_side(position: Position) -> bool
    ensures { result ≡ is_positive_side position }
{
    match position {
        Position::Argument(_) => false,
        Position::Side(positive) => positive,
    }
}

// whether a term is a universal variable
fn is_universal(kind: Kind) -> bool
    ensures { result ≡ is_universal kind }
{
    match kind {
        Kind::Universal => true,
        Kind::Existential => false,
        Kind::Applied => false,
    }
}
