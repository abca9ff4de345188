//! Files and their entries as they are written.

ghost use Rattle.std.specs.Prelude.{◌≡◌, ◌↔◌, IsTrue, IfOk};

use crate::formula::RawFormula;
use crate::types::TypeExpr;
use enc_base::{List, Name, NoMemory};
use std::alloc::Global;

/// A file, as `TPTP_file` of the TPTP language's grammar, in this profile.
#[derive(Debug, Drop)]
pub struct File {
    pub entries: List<Entry>,
}

/// An entry, as `fof_annotated` and `tff_annotated` of the TPTP language's grammar. Its name is
/// the label; notes are not kept.
#[derive(Debug, Drop)]
pub enum Entry {
    /// `tff(name,type,subject: body).`
    Declaration {
        name: Name,
        subject: Name,
        body: TypeExpr,
    },
    /// `fof(name,role,formula).` or `tff(name,role,formula).`
    Statement {
        name: Name,
        role: StatedRole,
        formula: RawFormula,
    },
}

/// What a statement is stated as. Every role but `conjecture` gives a hypothesis.
#[derive(Clone, Copy, Debug)]
pub enum StatedRole {
    Hypothesis,
    Conjecture,
}

impl StatedRole {
    /// An equal role. It takes no memory, and has an error because every type's copy has one.
    pub fn copy(&self, _alloc: Global) -> Result<StatedRole, NoMemory>
        ensures { IfOk result (λ copied. copied ≡ self.now) }
    {
        Ok(*self)
    }

    /// Whether the two are equal.
    pub fn same(&self, other: &StatedRole) -> bool
        ensures { IsTrue result ↔ (self.now ≡ other.now) }
    {
        match (self, other) {
            (StatedRole::Hypothesis, StatedRole::Hypothesis) => true,
            (StatedRole::Conjecture, StatedRole::Conjecture) => true,
            _ => false,
        }
    }
}

impl Entry {
    /// An equal entry.
    pub fn copy(&self, alloc: Global) -> Result<Entry, NoMemory>
        ensures { IfOk result (λ copied. copied ≡ self.now) }
    {
        match self {
            Entry::Declaration {
                name,
                subject,
                body,
            } => {
                let name = name.copy(alloc)?;
                let subject = subject.copy(alloc)?;
                let body = body.copy(alloc)?;
                Ok(Entry::Declaration {
                    name,
                    subject,
                    body,
                })
            }
            Entry::Statement {
                name,
                role,
                formula,
            } => {
                let name = name.copy(alloc)?;
                let role = role.copy(alloc)?;
                let formula = formula.copy(alloc)?;
                Ok(Entry::Statement {
                    name,
                    role,
                    formula,
                })
            }
        }
    }

    /// Whether the two are equal.
    pub fn same(&self, other: &Entry) -> bool
        ensures { IsTrue result ↔ (self.now ≡ other.now) }
    {
        match (self, other) {
            (
                Entry::Declaration {
                    name,
                    subject,
                    body,
                },
                Entry::Declaration {
                    name: n,
                    subject: s,
                    body: b,
                },
            ) => name.same(n) && subject.same(s) && body.same(b),
            (
                Entry::Statement {
                    name,
                    role,
                    formula,
                },
                Entry::Statement {
                    name: n,
                    role: r,
                    formula: f,
                },
            ) => name.same(n) && role.same(r) && formula.same(f),
            _ => false,
        }
    }
}

impl File {
    /// An equal file.
    pub fn copy(&self, alloc: Global) -> Result<File, NoMemory>
        ensures { IfOk result (λ copied. copied ≡ self.now) }
    {
        let entries = copy_entries(alloc, self.entries.as_slice())?;
        Ok(File { entries })
    }

    /// Whether the two are equal.
    pub fn same(&self, other: &File) -> bool
        ensures { IsTrue result ↔ (self.now ≡ other.now) }
    {
        same_entries(self.entries.as_slice(), other.entries.as_slice())
    }
}

/// Equal entries.
pub fn copy_entries(alloc: Global, entries: &[Entry]) -> Result<List<Entry>, NoMemory>
    ensures { IfOk result (λ copied. copied ≡ entries.now) }
{
    let mut copied = List::new(alloc);
    for entry in entries {
        copied.push(entry.copy(alloc)?)?;
    }
    Ok(copied)
}

/// Whether the two lists are equal.
pub fn same_entries(entries: &[Entry], others: &[Entry]) -> bool
    ensures { IsTrue result ↔ (entries.now ≡ others.now) }
{
    if entries.len() != others.len() {
        return false;
    }
    for (i, entry) in entries.iter().enumerate() {
        if !entry.same(&others[i]) {
            return false;
        }
    }
    true
}
