//! Problems.

ghost use Rattle.std.specs.Prelude.{◌≡◌, ◌<◌, ◌^◌, OnOk, OnErr};
ghost use Rattle.std.specs.List.{AllByRecursion};
ghost use Rattle.std.specs.Io.KnownBytes.{Appends};
ghost use Rattle.enc_base.specs.Counts.{Rose};
ghost use Rattle.enc_base.specs.Pending.{Puts};
ghost use Rattle.enc_base.specs.Sink.{AppendsPrefix};
ghost use Rattle.fof_models.specs.declared.problem.FofFormula.{FofFormula};
ghost use Rattle.tptp_words.specs.Layout.{written};
ghost use Rattle.fof_text.specs.Pieces.{part};
ghost use Rattle.fof_models.specs.Sound.{IsSound, binder_count};
ghost use Rattle.fof_text.specs.States.{AreNamed};
ghost use Rattle.fof_text.specs.Written as words;

use crate::Names;
use crate::formula::put_formula;
use crate::name::put_label;
use enc_base::{Name, Pending, Sink};
use fof_models::{FofFormula, FofProblem, FofRole};
use thiserror::Error;

/// Why a text wasn't written whole.
#[derive(Clone, Copy, Debug, PartialEq, Eq, Error)]
pub enum WriteFault {
    #[error("the write failed")]
    Failed,
}

fn role_name(role: &FofRole) -> &'static [u8]
    ensures { result.now ≡ words.role_name role.now }
{
    match role {
        FofRole::Axiom => b"axiom",
        FofRole::NegatedConjecture => b"negated_conjecture",
    }
}

/// Puts a formula with its name and role.
fn put_entry<O: Sink>(entry: &FofFormula, names: &[Name], pending: &mut Pending, out: &mut O)
    requires { binder_count entry.now.body < 2 ^ 32 }
    ensures { Puts O.bytes O.faults pending.old pending.new out.old out.new
        (part (words.entry_words names.now entry.now)) }
{
    pending.put(b"fof(", out);
    put_label(entry.name.as_slice(), pending, out);
    pending.put(b",", out);
    pending.put(role_name(&entry.role), out);
    pending.put(b",", out);
    put_formula(&entry.body, 0, names, pending, out);
    pending.put(b").\n", out);
}

/// Puts formulas, each on a line of its own.
fn put_entries<O: Sink>(entries: &[FofFormula], names: &[Name], pending: &mut Pending, out: &mut O)
    requires { AllByRecursion (λ (f : FofFormula). binder_count f.body < 2 ^ 32) entries.now }
    ensures { Puts O.bytes O.faults pending.old pending.new out.old out.new
        (written words.before words.after (words.problem_words names.now entries.now)) }
{
    for entry in entries {
        put_entry(entry, names, pending, out);
    }
}

/// Puts the text of a problem among the bytes that wait for a sink, one formula a line.
pub fn put_problem<O: Sink>(problem: &FofProblem, names: &Names, pending: &mut Pending, out: &mut O)
    requires { IsSound problem.now }
    ensures { Puts O.bytes O.faults pending.old pending.new out.old out.new
        (words.text_of names.now problem.now) }
{
    put_entries(problem.formulas.as_slice(), names.as_slice(), pending, out);
}

/// Writes the text of a problem, one formula a line, each line ended by a line feed.
///
/// The form is TPTP's `fof`, the variable of a binder being `X` followed by the number of
/// binders around it. Nothing is written after a write that failed. Takes no memory.
pub fn write_problem<O: Sink>(
    problem: &FofProblem,
    names: &Names,
    out: &mut O,
) -> Result<(), WriteFault>
    requires sound { IsSound problem.now }
    requires named { AreNamed names.now problem.now }
    ensures exact { OnOk result
        (Appends (O.bytes out.old) (O.bytes out.new) (words.text_of names.now problem.now)) }
    ensures kept_faults { OnOk result (O.faults out.new ≡ O.faults out.old) }
    ensures cause { OnErr result (Rose (O.faults out.old) (O.faults out.new)) }
    ensures within { OnErr result
        (AppendsPrefix (O.bytes out.old) (O.bytes out.new) (words.text_of names.now problem.now)) }
{
    let mut pending = Pending::new();
    put_problem(problem, names, &mut pending, out);
    match pending.finish(out) {
        Ok(()) => Ok(()),
        Err(_) => Err(WriteFault::Failed),
    }
}
