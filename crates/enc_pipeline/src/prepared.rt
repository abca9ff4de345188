ghost use Rattle.std.specs.Prelude.{◌≡◌, ◌≤◌, ◌↔◌, true, false, length, OnOk, OnErr, IfOk, IfErr};
ghost use Rattle.std.specs.Io.KnownBytes.{Appends};
ghost use Rattle.enc_base.specs.Counts.{Rose};
ghost use Rattle.enc_base.specs.Sink.{AppendsPrefix};
ghost use Rattle.tf_check.specs.Writable.{HasWritableNames};
ghost use Rattle.tf_core.specs.Sound.{IsSound};
ghost use Rattle.tf_core.specs.TypedTables.{HasFiniteModel};
ghost use Rattle.tf_nnf.specs.NormalForm.{normal_of};
ghost use Rattle.tf_nnf.specs.Refusal.{most_nodes};
ghost use Rattle.fof_text.specs.States.{TextHasFiniteModel};
ghost use Rattle.enc_marks.specs.Applies.{Applies};
ghost use Rattle.enc_pipeline.specs.Way.{Preparation, IsInRange, IsWithoutInstances};
ghost use Rattle.enc_pipeline.specs.Output as specs;
ghost use Rattle.enc_pipeline.specs.Causes.{nodes_of, IsUnprepared};
ghost use Rattle.enc_pipeline.specs.Carried as carried;
ghost use Rattle.enc_pipeline.specs.Distinct.{HasDistinctNames};
ghost use Rattle.enc_pipeline.specs.Ready.{IsPrepared};

use crate::output::write_output;
use crate::schemes::encode;
use crate::{Fault, How};
use enc_base::{Failed, Sink};
use enc_marks::{Encoded, Scheme};
use fof_text::Names;
use std::alloc::Global;
use std::marker::Model;
use tf_core::{Normal, Problem};
use tf_nnf::normalise;

/// A problem that is ready to be encoded, with all that was made of it.
#[derive(Debug, Drop)]
pub struct Prepared {
    problem: Problem,
    how: How,
    normal: Normal,
    encoded: Encoded,
    names: Names,
}

impl Model for Prepared {
    ghost use Rattle.enc_pipeline.specs.Way.{Preparation};
    ghost use Rattle.enc_pipeline.specs.Ready.{IsReady};
    ghost use Rattle.tf_core.specs.contracts.problem.Problem as known;
    ghost use Rattle.std.specs.Coded.{codes};

    ghost Value = { Preparation };

    ghost coded = { Prim.hlevel (codes, known.the_row.coded) };

    ghost view = { λ p. record { problem = p.problem; how = p.how } };

    ghost invariant = { λ p. IsReady p.problem p.how p.normal p.encoded p.names };
}

// the parts of a prepared problem, for those that carry its models
impl Prepared {
    /// The problem.
    pub(crate) fn problem(&self) -> &Problem
        ensures exact { result.now ≡ self.now.problem }
        ensures prepared { IsPrepared self.now }
    {
        &self.problem
    }

    /// The scheme by which it is encoded.
    pub(crate) fn scheme(&self) -> &Scheme
        ensures exact { result.now ≡ self.now.how.scheme }
        ensures prepared { IsPrepared self.now }
    {
        &self.how.scheme
    }

    /// The normal problem.
    pub(crate) fn normal(&self) -> &Normal
        ensures exact { result.now ≡ normal_of self.now.problem }
        ensures prepared { IsPrepared self.now }
    {
        &self.normal
    }

    /// The translation.
    pub(crate) fn encoded(&self) -> &Encoded
        ensures exact { result.now ≡ specs.translated self.now.how.scheme self.now.problem }
        ensures prepared { IsPrepared self.now }
    {
        &self.encoded
    }

    /// The names of the translation's symbols.
    pub(crate) fn names(&self) -> &Names
        ensures exact { result.now ≡ carried.names self.now }
        ensures prepared { IsPrepared self.now }
    {
        &self.names
    }
}

/// Makes all that encoding a problem in a way needs. The problem is taken, and dropped where it is
/// refused.
///
/// The problem is to be sound, and its names such as can be written and tell its symbols apart,
/// which holds of each problem that is read; the way is to be one without instances, and its numbers
/// those that the command line takes.
pub fn prepare(alloc: Global, problem: Problem, how: How) -> Result<Prepared, Fault>
    requires sound { IsSound problem }
    requires named { HasWritableNames problem }
    requires distinct { HasDistinctNames problem }
    requires range { IsInRange how }
    requires complete { IsWithoutInstances how }
    ensures exact { IfOk result (λ prepared. prepared ≡ record { problem = problem; how = how }) }
    ensures within { IfOk result (λ prepared. nodes_of problem ≤ most_nodes) }
    ensures applies { IfOk result (λ prepared. Applies how.scheme (normal_of problem)) }
    ensures refused { IfErr result (IsUnprepared problem how) }
{
    let normal = normalise(alloc, &problem)?;
    let encoded = encode(alloc, &how.scheme, &normal)?;
    let names = Names::choose(alloc, encoded.problem.signature.as_slice())?;
    Ok(Prepared {
        problem,
        how,
        normal,
        encoded,
        names,
    })
}

/// Structures over instances can't be carried back to the problem: the ways of `--mono` are
/// refused. Takes no memory.
pub fn lifts(prepared: &Prepared) -> Result<(), Fault>
    ensures taken { OnOk result (prepared.now.how.mono ≡ false) }
    ensures refused { IfErr result (λ fault.
        (fault ≡ Fault.Incomplete) × (prepared.now.how.mono ≡ true)) }
{
    if prepared.how.mono {
        Err(Fault::Incomplete)
    } else {
        Ok(())
    }
}

/// How many formulas the translation has.
pub fn written_formulas(prepared: &Prepared) -> usize
    ensures { result ≡ length (carried.translation prepared.now).formulas }
{
    prepared.encoded.problem.formulas.as_slice().len()
}

/// Writes the translation: a first line that names the scheme, and then the untyped problem.
pub fn encode_file<O: Sink>(prepared: &Prepared, out: &mut O) -> Result<(), Fault>
    ensures exact { OnOk result
        (Appends (O.bytes out.old) (O.bytes out.new) (specs.output prepared.now)) }
    ensures headline { TextHasFiniteModel (specs.output prepared.now)
        ↔ HasFiniteModel prepared.now.problem }
    ensures within { OnErr result
        (AppendsPrefix (O.bytes out.old) (O.bytes out.new) (specs.output prepared.now)) }
    ensures kept_faults { OnOk result (O.faults out.new ≡ O.faults out.old) }
    ensures cause { IfErr result (λ fault.
        (fault ≡ Fault.Write) × Rose (O.faults out.old) (O.faults out.new)) }
{
    match write_output(
        &prepared.how.scheme,
        &prepared.encoded.problem,
        &prepared.names,
        out,
    ) {
        Ok(()) => Ok(()),
        Err(Failed) => Err(Fault::Write),
    }
}
