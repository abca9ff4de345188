ghost use Rattle.std.specs.Prelude.{refl};
ghost use Rattle.enc_marks.specs.FreeByTable.{is_free_by};
ghost use Rattle.enc_marks.specs.Schemes.{tags_light};
ghost use Rattle.enc_marks.proofs.Alike.{alike_by_sort};

use enc_marks::{Binding, Choices, Domain, Elements, FreeSorts, Marking, TypeArguments};
use tf_core::Ty;
use tf_naked::{Kind, Position};

/// The choices of `tags_light`: a tag at each term of a sort that isn't free.
#[derive(Clone, Copy)]
pub struct TagsLight<'a> {
    pub free: &'a FreeSorts,
}

impl<'a> Choices for TagsLight<'a> {
    ghost choices = { λ it. tags_light (is_free_by it.free.now) };

    fn keeps(&self) -> TypeArguments {
        TypeArguments::Nothing
    }

    fn tagged(&self, _position: Position, _kind: Kind, ty: &Ty) -> bool {
        !self.free.is_free(ty)
    }

    fn universal(&self, _undercover: bool, _naked: bool, _ty: &Ty) -> bool {
        false
    }

    fn existential(&self, _ty: &Ty) -> bool {
        false
    }

    fn typing(&self, _ty: &Ty) -> bool {
        false
    }

    fn premise(&self, _cover: bool, _ty: &Ty) -> bool {
        false
    }

    fn last(&self, _ty: &Ty) -> bool {
        false
    }

    fn marking(&self) -> Marking {
        Marking::BySort
    }

    fn binding(&self) -> Binding {
        Binding::ByTag
    }

    fn domain(&self) -> Domain {
        Domain::Collapsed
    }

    fn elements(&self) -> Elements {
        Elements::Image
    }

    ghost alike = { λ it. alike_by_sort (tags_light (is_free_by it.free.now)) refl };
}
