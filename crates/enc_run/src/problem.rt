//! From a problem's text to what is written for it.

ghost use Rattle.std.specs.Prelude.{◌≡◌, Some, IfOk, IfErr};
ghost use Rattle.enc_pipeline.specs.Way.{plain_way};
ghost use Rattle.enc_run.specs.Calls.Parts.{EncodingEnds, HasPrepared, TextStops};
ghost use Rattle.enc_run.specs.Leads.{task_scheme};
ghost use Rattle.enc_run.specs.Work.{bytes_of, faults_of};
ghost use Rattle.enc_run.specs.declared.job.Task.{Task};

use crate::Stop;
use enc_base::Sink;
use enc_pipeline::{How, Prepared, encode_file, prepare, read_problem};
use std::alloc::Global;

/// The text's problem, prepared in the way.
pub fn prepared(alloc: Global, how: How, text: &[u8]) -> Result<Prepared, Stop>
    requires plain { how ≡ plain_way how.scheme }
    ensures exact { IfOk result (HasPrepared how text.now) }
    ensures cause { IfErr result (λ stop. (task : Task) → task_scheme task ≡ Some how.scheme
        → TextStops task text.now stop) }
{
    let problem = read_problem(alloc, text)?;
    Ok(prepare(alloc, problem, how)?)
}

/// Writes the encoding of the text's problem in the way.
pub fn encode_text<O: Sink>(alloc: Global, how: How, text: &[u8], out: &mut O) -> Result<(), Stop>
    requires plain { how ≡ plain_way how.scheme }
    ensures ends { EncodingEnds how text.now (bytes_of O.Sink out.old out.new)
        (faults_of O.Sink out.old out.new) result }
{
    let prepared = prepared(alloc, how, text)?;
    encode_file(&prepared, out)?;
    Ok(())
}
