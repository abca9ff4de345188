ghost use Rattle.std.specs.Prelude.{IfOk, IfErr};
ghost use Rattle.tf_check.specs.Writable.{HasWritableNames};
ghost use Rattle.tf_core.specs.Sound.{IsSound};
ghost use Rattle.enc_pipeline.specs.Distinct.{HasDistinctNames};
ghost use Rattle.enc_pipeline.specs.Reading.{HasProblem};
ghost use Rattle.enc_pipeline.specs.Causes.{IsUnreadable};

use crate::Fault;
use std::alloc::Global;
use tf_check::check;
use tf_core::Problem;
use tptp_syntax::read_file;

/// The typed problem that the text spells.
pub fn read_problem(alloc: Global, text: &[u8]) -> Result<Problem, Fault>
    ensures exact { IfOk result (HasProblem text.now) }
    ensures sound { IfOk result IsSound }
    ensures named { IfOk result HasWritableNames }
    ensures distinct { IfOk result HasDistinctNames }
    ensures refused { IfErr result (IsUnreadable text.now) }
{
    let file = read_file(alloc, text)?;
    let problem = check(alloc, &file)?;
    Ok(problem)
}
