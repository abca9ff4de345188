ghost use Rattle.std.specs.Prelude.{◌≡◌, ◌↔◌, IsTrue, IfOk};

use crate::mark::Mark;
use enc_base::{List, NoMemory};
use fof_models::FofProblem;
use std::alloc::Global;

/// An untyped problem with what each symbol of its signature stands for, in the signature's order.
#[derive(Debug, Drop)]
pub struct Encoded {
    pub problem: FofProblem,
    pub marks: List<Mark>,
}

impl Encoded {
    /// An equal value.
    pub fn copy(&self, alloc: Global) -> Result<Encoded, NoMemory>
        ensures { IfOk result (λ copied. copied ≡ self.now) }
    {
        Ok(Encoded {
            problem: self.problem.copy(alloc)?,
            marks: copy_marks(alloc, self.marks.as_slice())?,
        })
    }

    /// Whether the two are equal.
    pub fn same(&self, other: &Encoded) -> bool
        ensures { IsTrue result ↔ (self.now ≡ other.now) }
    {
        self.problem.same(&other.problem)
            && same_marks(self.marks.as_slice(), other.marks.as_slice())
    }
}

/// Equal marks.
pub fn copy_marks(alloc: Global, marks: &[Mark]) -> Result<List<Mark>, NoMemory>
    ensures { IfOk result (λ copied. copied ≡ marks.now) }
{
    let mut copied = List::new(alloc);
    for mark in marks {
        copied.push(mark.copy(alloc)?)?;
    }
    Ok(copied)
}

/// Whether the two lists are equal.
pub fn same_marks(marks: &[Mark], others: &[Mark]) -> bool
    ensures { IsTrue result ↔ (marks.now ≡ others.now) }
{
    if marks.len() != others.len() {
        return false;
    }
    for (i, mark) in marks.iter().enumerate() {
        if !mark.same(&others[i]) {
            return false;
        }
    }
    true
}
