//! From a problem's text and a table's to what is written for them.

ghost use Rattle.std.specs.Prelude.{◌≡◌};
ghost use Rattle.enc_pipeline.specs.Way.{plain_way};
ghost use Rattle.enc_run.specs.Calls.Ending.{CountsFaults};
ghost use Rattle.enc_run.specs.Calls.Parts.{TextEnds, ReadsTable};
ghost use Rattle.enc_run.specs.Work.{rest_of, GoesOn, read_faults_of, own_faults_of};
ghost use Rattle.enc_run.specs.declared.job.Task.TheVariants.{Check, Lower, Lift};

use crate::problem::prepared;
use crate::reading::read_text;
use crate::{Stop, Text};
use enc_base::{Library, Sink};
use enc_pipeline::{How, check_file, lift_file, lower_file, read_problem};
use std::alloc::Global;

/// Writes that the structure of the table is a model of the text's problem, where it is.
pub fn check_text<L: Library, O: Sink>(
    alloc: Global,
    text: &[u8],
    table: Text,
    files: &mut L,
    out: &mut O,
) -> Result<(), Stop>
    ensures ends { TextEnds (Check table) text.now
        (rest_of L.Library O.Sink files.old files.new out.old out.new) result }
    ensures reads { ReadsTable (Check table) text.now
        (rest_of L.Library O.Sink files.old files.new out.old out.new) }
    ensures counts { CountsFaults (read_faults_of L.Library files.old files.new)
        (own_faults_of L.Library files.old files.new) result }
    ensures goes { GoesOn
        (rest_of L.Library O.Sink files.old files.new out.old out.new)
        (L.held files.new) }
{
    let problem = read_problem(alloc, text)?;
    let table = read_text(alloc, table, files)?;
    check_file(alloc, &problem, &table, out)?;
    Ok(())
}

/// Writes the table of the model of the encoding that the model of the table gives.
pub fn lower_text<L: Library, O: Sink>(
    alloc: Global,
    how: How,
    text: &[u8],
    table: Text,
    files: &mut L,
    out: &mut O,
) -> Result<(), Stop>
    requires plain { how ≡ plain_way how.scheme }
    ensures ends { TextEnds (Lower table how) text.now
        (rest_of L.Library O.Sink files.old files.new out.old out.new) result }
    ensures reads { ReadsTable (Lower table how) text.now
        (rest_of L.Library O.Sink files.old files.new out.old out.new) }
    ensures counts { CountsFaults (read_faults_of L.Library files.old files.new)
        (own_faults_of L.Library files.old files.new) result }
    ensures goes { GoesOn
        (rest_of L.Library O.Sink files.old files.new out.old out.new)
        (L.held files.new) }
{
    let prepared = prepared(alloc, how, text)?;
    let table = read_text(alloc, table, files)?;
    lower_file(alloc, &prepared, &table, out)?;
    Ok(())
}

/// Writes the table of the model of the problem that the model of the table gives.
pub fn lift_text<L: Library, O: Sink>(
    alloc: Global,
    how: How,
    text: &[u8],
    table: Text,
    files: &mut L,
    out: &mut O,
) -> Result<(), Stop>
    requires plain { how ≡ plain_way how.scheme }
    ensures ends { TextEnds (Lift table how) text.now
        (rest_of L.Library O.Sink files.old files.new out.old out.new) result }
    ensures reads { ReadsTable (Lift table how) text.now
        (rest_of L.Library O.Sink files.old files.new out.old out.new) }
    ensures counts { CountsFaults (read_faults_of L.Library files.old files.new)
        (own_faults_of L.Library files.old files.new) result }
    ensures goes { GoesOn
        (rest_of L.Library O.Sink files.old files.new out.old out.new)
        (L.held files.new) }
{
    let prepared = prepared(alloc, how, text)?;
    let table = read_text(alloc, table, files)?;
    lift_file(alloc, &prepared, &table, out)?;
    Ok(())
}
