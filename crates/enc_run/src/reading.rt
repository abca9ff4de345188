//! Files, by their names.

ghost use Rattle.std.specs.Prelude.{◌≡◌, ◌≤◌, ℕ, [], IfOk, IfErr, List};
ghost use Rattle.enc_base.specs.Counts.{Rose, one_more};
ghost use Rattle.enc_base.specs.Library.{IsHeld, Gives};
ghost use Rattle.enc_run.specs.Calls.Ending.{CountsFaults, IsUnread};
ghost use Rattle.enc_run.specs.Work.{read_faults_of, own_faults_of};

use crate::{Stop, Text};
use enc_base::{Library, ReadFault};
use std::alloc::Global;

/// The bytes of the named file.
pub fn read_text<L: Library>(alloc: Global, name: Text, files: &mut L) -> Result<Vec<u8>, Stop>
    ensures text { IfOk result (λ text. Gives (L.held files.old) name [] text.items) }
    ensures cause { IfErr result (IsUnread name (Rose (L.faults files.old) (L.faults files.new))
        (IsHeld (L.held files.old) name
        → Rose (L.own_faults files.old name) (L.own_faults files.new name))) }
    ensures counts { CountsFaults (read_faults_of L.Library files.old files.new)
        (own_faults_of L.Library files.old files.new) result }
    ensures counted { L.reads files.new ≡ one_more (L.reads files.old) }
    ensures same_files { L.held files.new ≡ L.held files.old }
    ensures later { L.faults files.old ≤ L.faults files.new }
    ensures own_later { (other : List ℕ) →
        L.own_faults files.old other ≤ L.own_faults files.new other }
{
    let mut text = Vec::new(alloc);
    match files.read(name.as_str(), &mut text) {
        Ok(()) => Ok(text),
        Err(ReadFault::Failed) => Err(Stop::Unread(name)),
        Err(ReadFault::Memory) => Err(Stop::Memory),
    }
}
