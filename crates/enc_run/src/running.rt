//! The top call.

ghost use Rattle.std.specs.Prelude.{◌≡◌, Some};
ghost use Rattle.enc_run.specs.Work.{GoesOn, bytes_of, faults_of, own_faults_of, read_faults_of, rest_of, run_of, seen_of};
ghost use Rattle.enc_run.specs.Texts.{ReadsAsNeeded};
ghost use Rattle.enc_run.specs.Calls.Ending.{CountsFaults, EndsBy, Ended, Noted, status_at};
ghost use Rattle.enc_run.specs.Calls.Parts.{IsPlainTask, TextEnds, ReadsTable};
ghost use Rattle.enc_run.specs.Promises.{Models, Translated, Complete, NotBuiltExactly, RefusedExactly, UnsuitedExactly, UnreadExactly, UnheldIsUnread, UnwrittenOnly, IsStatus, OutHolds, NotesHold};
ghost use Rattle.enc_run.specs.TablePromises.{Checks, Lowers, Lifts};

use crate::job::{Job, Task, read_words};
use crate::notes::write_note;
use crate::problem::encode_text;
use crate::reading::read_text;
use crate::stop::Stop;
use crate::tables::{check_text, lift_text, lower_text};
use enc_base::{Library, NoMemory, Sink};
use std::alloc::Global;

// Does the task on the problem's text.
fn perform<L: Library, O: Sink>(
    alloc: Global,
    task: Task,
    text: &[u8],
    files: &mut L,
    out: &mut O,
) -> Result<(), Stop>
    requires plain { IsPlainTask task }
    ensures ends { TextEnds task text.now
        (rest_of L.Library O.Sink files.old files.new out.old out.new) result }
    ensures reads { ReadsTable task text.now
        (rest_of L.Library O.Sink files.old files.new out.old out.new) }
    ensures counts { CountsFaults (read_faults_of L.Library files.old files.new)
        (own_faults_of L.Library files.old files.new) result }
    ensures goes { GoesOn
        (rest_of L.Library O.Sink files.old files.new out.old out.new)
        (L.held files.new) }
{
    match task {
        Task::Encode { how } => encode_text(alloc, how, text, out),
        Task::Check { table } => check_text(alloc, text, table, files, out),
        Task::Lower { table, how } => lower_text(alloc, how, text, table, files, out),
        Task::Lift { table, how } => lift_text(alloc, how, text, table, files, out),
    }
}

// Does the job.
fn finish<L: Library, O: Sink>(
    alloc: Global,
    job: Job,
    files: &mut L,
    out: &mut O,
) -> Result<(), Stop>
    requires plain { IsPlainTask job.task }
    ensures ends { EndsBy
        (seen_of L.Library O.Sink (Some job) files.old files.new out.old out.new) result }
    ensures reads { ReadsAsNeeded
        (seen_of L.Library O.Sink (Some job) files.old files.new out.old out.new) }
    ensures counts { CountsFaults (read_faults_of L.Library files.old files.new)
        (own_faults_of L.Library files.old files.new) result }
    ensures goes { GoesOn
        (seen_of L.Library O.Sink (Some job) files.old files.new out.old out.new)
        (L.held files.new) }
{
    let text = read_text(alloc, job.problem, files)?;
    perform(alloc, job.task, &text, files, out)
}

// Does what the words ask for, without a note.
fn work<L: Library, O: Sink>(
    alloc: Global,
    words: &[String],
    files: &mut L,
    out: &mut O,
) -> Result<(), Stop>
    ensures ends { EndsBy
        (run_of L.Library O.Sink words.now files.old files.new out.old out.new) result }
    ensures reads { ReadsAsNeeded
        (run_of L.Library O.Sink words.now files.old files.new out.old out.new) }
    ensures counts { CountsFaults (read_faults_of L.Library files.old files.new)
        (own_faults_of L.Library files.old files.new) result }
    ensures goes { GoesOn
        (run_of L.Library O.Sink words.now files.old files.new out.old out.new)
        (L.held files.new) }
{
    match read_words(alloc, words) {
        Ok(Some(job)) => finish(alloc, job, files, out),
        Ok(None) => Err(Stop::NotBuilt),
        Err(NoMemory) => Err(Stop::Memory),
    }
}

// Notes why a run stopped, and gives its status. No answer of the notes changes that.
fn close<E: Sink>(alloc: Global, end: &Result<(), Stop>, notes: &mut E) -> u8
    ensures status { result ≡ status_at end.now }
    ensures noted { Noted end.now (bytes_of E.Sink notes.old notes.new)
        (faults_of E.Sink notes.old notes.new) }
{
    match end {
        Ok(()) => 0,
        Err(stop) => {
            write_note(alloc, stop, notes);
            stop.status()
        }
    }
}

// Works, and then notes why where that stopped.
fn ended<L: Library, O: Sink, E: Sink>(
    alloc: Global,
    words: &[String],
    files: &mut L,
    out: &mut O,
    notes: &mut E,
) -> u8
    ensures ended { Ended
        (run_of L.Library O.Sink words.now files.old files.new out.old out.new)
        (bytes_of E.Sink notes.old notes.new) (faults_of E.Sink notes.old notes.new) result }
    ensures goes { GoesOn
        (run_of L.Library O.Sink words.now files.old files.new out.old out.new)
        (L.held files.new) }
{
    let end = work(alloc, words, files, out);
    close(alloc, &end, notes)
}

/// Does all that the program does, and gives its exit status.
///
/// `words` are those after the program's own name. Input is read from `files`, the output is
/// written to `out`, and where the status isn't 0 a line that says why to `notes`.
pub fn run<L: Library, O: Sink, E: Sink>(
    alloc: Global,
    words: &[String],
    files: &mut L,
    out: &mut O,
    notes: &mut E,
) -> u8
    // At status 0: what was written has a finite model exactly where the problem has one, and it is
    // the text of the problem's encoding by the scheme.
    ensures models { Models
        (run_of L.Library O.Sink words.now files.old files.new out.old out.new) result }
    ensures translated { Translated
        (run_of L.Library O.Sink words.now files.old files.new out.old out.new) result }

    // And what was written for a table is that of a model.
    ensures checks { Checks
        (run_of L.Library O.Sink words.now files.old files.new out.old out.new) result }
    ensures lowers { Lowers
        (run_of L.Library O.Sink words.now files.old files.new out.old out.new) result }
    ensures lifts { Lifts
        (run_of L.Library O.Sink words.now files.old files.new out.old out.new) result }

    // Where nothing refuses and nothing fails, the run is done.
    ensures complete { Complete
        (run_of L.Library O.Sink words.now files.old files.new out.old out.new) result }

    // Each other status comes for its cause.
    ensures refused { RefusedExactly
        (run_of L.Library O.Sink words.now files.old files.new out.old out.new) result }
    ensures unsuited { UnsuitedExactly
        (run_of L.Library O.Sink words.now files.old files.new out.old out.new) result }
    ensures not_built { NotBuiltExactly
        (run_of L.Library O.Sink words.now files.old files.new out.old out.new) result }
    ensures unread { UnreadExactly
        (run_of L.Library O.Sink words.now files.old files.new out.old out.new) result }
    ensures unheld { UnheldIsUnread
        (run_of L.Library O.Sink words.now files.old files.new out.old out.new) result }
    ensures unwritten { UnwrittenOnly
        (run_of L.Library O.Sink words.now files.old files.new out.old out.new) result }
    ensures statuses { IsStatus result }

    // What stands in the output and in the notes.
    ensures out { OutHolds
        (run_of L.Library O.Sink words.now files.old files.new out.old out.new) result }
    ensures notes { NotesHold
        (run_of L.Library O.Sink words.now files.old files.new out.old out.new)
        (bytes_of E.Sink notes.old notes.new) (faults_of E.Sink notes.old notes.new) result }

    // What is read, and what no read changes.
    ensures reads { ReadsAsNeeded
        (run_of L.Library O.Sink words.now files.old files.new out.old out.new) }
    ensures files { GoesOn
        (run_of L.Library O.Sink words.now files.old files.new out.old out.new)
        (L.held files.new) }
{
    ended(alloc, words, files, out, notes)
}
