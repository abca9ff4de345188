ghost use Rattle.std.specs.Prelude.{refl};
ghost use Rattle.enc_marks.specs.FreeByTable.{is_free_by};
ghost use Rattle.enc_marks.specs.Schemes.{guards_feather};
ghost use Rattle.enc_marks.proofs.Alike.{alike_by_sort};

use enc_marks::{Binding, Choices, Domain, Elements, FreeSorts, Marking, TypeArguments};
use tf_core::Ty;
use tf_naked::{Kind, Position};

/// The choices of `guards_feather`: a guard at naked universal variables and at existential
/// ones of sorts that aren't free, and typing axioms without premises.
#[derive(Clone, Copy)]
pub struct GuardsFeather<'a> {
    pub free: &'a FreeSorts,
}

impl<'a> Choices for GuardsFeather<'a> {
    ghost choices = { λ it. guards_feather (is_free_by it.free.now) };

    fn keeps(&self) -> TypeArguments {
        TypeArguments::Nothing
    }

    fn tagged(&self, _position: Position, _kind: Kind, _ty: &Ty) -> bool {
        false
    }

    fn universal(&self, _undercover: bool, naked: bool, ty: &Ty) -> bool {
        naked && !self.free.is_free(ty)
    }

    fn existential(&self, ty: &Ty) -> bool {
        !self.free.is_free(ty)
    }

    fn typing(&self, ty: &Ty) -> bool {
        !self.free.is_free(ty)
    }

    fn premise(&self, _cover: bool, _ty: &Ty) -> bool {
        false
    }

    fn last(&self, ty: &Ty) -> bool {
        !self.free.is_free(ty)
    }

    fn marking(&self) -> Marking {
        Marking::BySort
    }

    fn binding(&self) -> Binding {
        Binding::ByGuard
    }

    fn domain(&self) -> Domain {
        Domain::Collapsed
    }

    fn elements(&self) -> Elements {
        Elements::Guarded
    }

    ghost alike = { λ it. alike_by_sort (guards_feather (is_free_by it.free.now)) refl };
}
