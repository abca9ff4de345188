ghost use Rattle.std.specs.Prelude.{◌≡◌, [], ◌∷◌, drop, get_or, OnOk};
ghost use Rattle.tf_naked.specs.declared.position.Kind.TheVariants.{Applied, Universal};
ghost use Rattle.enc_marks.specs.Calls.Writing.{IsKind};

use enc_base::NoMemory;
use std::alloc::Global;
use std::marker::Model;
use tf_core::Term;
use tf_naked::Kind;

/// The kinds of the binders round a part of a formula. Contracts see the list of the kinds, the
/// nearest binder's first.
#[derive(Drop)]
pub struct Kinds {
    // the nearest binder's last
    kinds: Vec<Kind>,
}

impl Model for Kinds {
    ghost use Rattle.std.specs.Prelude.{List, reverse};
    ghost use Rattle.tf_naked.specs.declared.position.Kind.{Kind as Binder};

    ghost Value = { List Binder };

    ghost view = { λ it. reverse it.kinds.items };
}

impl Kinds {
    /// No binders.
    pub fn new(alloc: Global) -> Kinds
        ensures { result ≡ [] }
    {
        Kinds {
            kinds: Vec::new(alloc),
        }
    }

    /// Puts a binder before the others.
    pub fn bind(&mut self, kind: Kind) -> Result<(), NoMemory>
        ensures { OnOk result (self.new ≡ kind ∷ self.old) }
    {
        self.kinds.push(kind)?;
        Ok(())
    }

    /// Takes the nearest binder away.
    pub fn unbind(&mut self)
        ensures { self.new ≡ drop 1 self.old }
    {
        self.kinds.pop();
    }

    // the kind of the i-th binder
    fn kind_at(&self, i: usize) -> Kind
        ensures { result ≡ get_or self.now i Universal }
    {
        let count = self.kinds.len();
        if i < count {
            self.kinds[count - 1 - i]
        } else {
            Kind::Universal
        }
    }

    /// What a term is below these binders.
    pub fn kind_of(&self, term: &Term) -> Kind
        ensures { IsKind self.now term.now result }
    {
        match term {
            Term::Var(i) => self.kind_at(*i as usize),
            Term::Apply(_, _, _) => Kind::Applied,
        }
    }
}
