//! Which sorts of a problem are free, for the choices of schemes that leave out their marks.

ghost use Rattle.std.specs.Prelude.{◌≡◌, true, get_or, IfOk};
ghost use Rattle.tf_core.specs.Typing.{IsNormal};
ghost use Rattle.tf_naked.specs.Naked.{is_free};
ghost use Rattle.enc_marks.specs.FreeByTable.{is_free_by};

use enc_base::{List, NoMemory};
use std::alloc::Global;
use std::marker::Model;
use tf_core::{Normal, Ty};
use tf_naked::{SortTable, free_sorts, sorts};

/// The sorts of a problem, and for each whether it is free. Contracts see the sorts beside what is
/// told of them.
#[derive(Drop)]
pub struct FreeSorts {
    sorts: SortTable,
    free: List<bool>,
}

impl Model for FreeSorts {
    ghost use Rattle.std.specs.Prelude.{List, Bool};
    ghost use Rattle.tf_core.specs.declared.ty.Ty.{Ty};
    ghost use Rattle.tf_core.specs.contracts.ty.Ty as known;
    ghost use Rattle.std.specs.Coded.{codes};

    ghost Value = { List Ty × List Bool };

    ghost coded = { Prim.hlevel (codes, known.the_row.coded) };

    ghost view = { λ it. (it.sorts, it.free) };
}

impl FreeSorts {
    /// Those of a normal problem, in time proportional to it and to its sorts.
    pub fn new(alloc: Global, normal: &Normal) -> Result<FreeSorts, NoMemory>
        requires typed { IsNormal normal.now }
        ensures exact { IfOk result (λ made. is_free_by made ≡ is_free normal.now) }
    {
        let listed = sorts(alloc, normal)?;
        let free = free_sorts(alloc, normal, listed.as_slice())?;
        Ok(FreeSorts {
            sorts: SortTable::new(alloc, listed)?,
            free,
        })
    }

    /// Whether a type is free: whether no naked place has it, or it is the only sort. It takes time
    /// in proportion to the type.
    pub fn is_free(&self, ty: &Ty) -> bool
        ensures exact { result ≡ is_free_by self.now ty.now }
    {
        flag_at(self.free.as_slice(), self.sorts.place(ty))
    }
}

// what is told of the sort at a place; there is none past the last
fn flag_at(flags: &[bool], place: usize) -> bool
    ensures { result ≡ get_or flags.now place true }
{
    if place < flags.len() {
        flags[place]
    } else {
        true
    }
}
