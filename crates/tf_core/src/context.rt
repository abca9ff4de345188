//! The types of the variables that are bound at a place.

ghost use Rattle.std.specs.Prelude.{◌≡◌, ◌<◌, [], ◌∷◌, length, drop, slice_get, OnOk, OnErr};
ghost use Rattle.tf_core.specs.Contexts.{lent};

use crate::ty::Ty;
use enc_base::NoMemory;
use std::alloc::Global;
use std::marker::Model;

/// A stack of borrowed types, the nearest binder's last. Contracts see the list of the types, the
/// nearest binder's first.
#[derive(Drop)]
pub(crate) struct Context<'a> {
    types: Vec<&'a Ty>,
}

impl<'a> Model for Context<'a> {
    ghost use Rattle.std.specs.Prelude.{List};
    ghost use Rattle.std.specs.Coded.{codes};
    ghost use Rattle.tf_core.specs.declared.ty.Ty.{Ty as Core};
    ghost use Rattle.tf_core.specs.contracts.ty.Ty as known;
    ghost use Rattle.tf_core.specs.Contexts.{context_of};

    ghost Value = { List Core };

    ghost coded = { Prim.hlevel (codes, known.the_row.coded) };

    ghost view = { λ context. context_of context.types.items };
}

impl<'a> Context<'a> {
    /// No variables.
    pub(crate) fn new(alloc: Global) -> Context<'a>
        ensures { result ≡ [] }
    {
        Context {
            types: Vec::new(alloc),
        }
    }

    /// Puts a variable of the type before the others.
    pub(crate) fn bind(&mut self, ty: &'a Ty) -> Result<(), NoMemory>
        ensures ok { OnOk result (self.new ≡ ty.now ∷ self.old) }
        ensures err { OnErr result (self.new ≡ self.old) }
    {
        match self.types.push(ty) {
            Ok(()) => Ok(()),
            Err(_) => Err(NoMemory),
        }
    }

    /// Takes the nearest variable away.
    pub(crate) fn unbind(&mut self)
        ensures { self.new ≡ drop 1 self.old }
    {
        self.types.pop();
    }

    /// The type of the i-th variable.
    pub(crate) fn type_at(&self, i: u32) -> Option<&'a Ty>
        ensures { lent result ≡ slice_get self.now i }
    {
        let i = i as usize;
        let count = self.types.len();
        if i < count {
            Some(self.types[count - 1 - i])
        } else {
            None
        }
    }
}
