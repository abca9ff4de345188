//! Sets of types.

ghost use Rattle.std.specs.Prelude.{◌≡◌, ◌≤◌, [], ◌∷◌, not, false, length, get_or, ℕ, List, IfOk, OnOk};
ghost use Rattle.std.specs.List.{list_any};
ghost use Rattle.tf_core.specs.declared.ty.Ty.{Ty};
ghost use Rattle.tf_core.specs.Types.{same_type};
ghost use Rattle.tf_naked.specs.Calls.Sets.{IsSetOf, Adds};

use enc_base::NoMemory;
use std::alloc::Global;
use tf_core::Ty;
use tf_types::TypeTable;

/// A set of types. Each type that was asked for has a number, and those in the set are marked at
/// their numbers: a question costs the nodes of its type.
#[derive(Drop)]
pub(crate) struct TypeSet {
    pub(crate) table: TypeTable,
    pub(crate) marks: Vec<bool>,
}

impl TypeSet {
    /// No types.
    pub(crate) fn new(alloc: Global) -> TypeSet
        ensures { IsSetOf result [] }
    {
        TypeSet {
            table: TypeTable::new(alloc),
            marks: Vec::new(alloc),
        }
    }

    /// Whether a type is in the set.
    pub(crate) fn contains(&mut self, ty: &Ty) -> Result<bool, NoMemory>
        ensures exact { IfOk result (λ there. (types : List Ty) → IsSetOf self.old types →
            there ≡ list_any (same_type ty.now) types) }
        ensures kept { OnOk result (Adds self.old self.new []) }
    {
        let id = self.table.number_of(ty)?;
        Ok(mark_at(self.marks.as_slice(), id.index))
    }

    /// Puts a type into the set, and says whether it wasn't there.
    pub(crate) fn insert(&mut self, ty: &Ty) -> Result<bool, NoMemory>
        ensures fresh { IfOk result (λ fresh. (types : List Ty) → IsSetOf self.old types →
            fresh ≡ not (list_any (same_type ty.now) types)) }
        ensures added { OnOk result (Adds self.old self.new (ty.now ∷ [])) }
    {
        let id = self.table.number_of(ty)?;
        reach(&mut self.marks, self.table.type_count())?;
        let fresh = !self.marks[id.index];
        self.marks[id.index] = true;
        Ok(fresh)
    }
}

// the mark of a number
fn mark_at(marks: &[bool], i: usize) -> bool
    ensures { result ≡ get_or marks.now i false }
{
    if i < marks.len() { marks[i] } else { false }
}

// has at least so many marks, the new ones not set
fn reach(marks: &mut Vec<bool>, count: usize) -> Result<(), NoMemory>
    ensures reached { OnOk result (count ≤ length marks.new.items) }
    ensures same { OnOk result ((i : ℕ) →
        get_or marks.new.items i false ≡ get_or marks.old.items i false) }
{
    if marks.len() >= count {
        return Ok(());
    }
    match marks.resize(count, false) {
        Ok(()) => Ok(()),
        Err(_) => Err(NoMemory),
    }
}
