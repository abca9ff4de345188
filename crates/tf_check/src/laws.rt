//! The laws of typing, as calls that do nothing.

ghost use Rattle.tf_check.specs.Laws.{FileHasOneProblem, FaultsSayAll, TypedFilesAreSound};
ghost use Rattle.tf_check.specs.Writable.{TypedNamesAreWritable};

/// A file is well typed with one problem at most.
pub fn a_file_has_one_problem()
    ensures { FileHasOneProblem }
{}

/// A file is well typed with the problem that it stands for exactly where it has no faults.
pub fn faults_say_all()
    ensures { FaultsSayAll }
{}

/// The problem of a well typed file within the limits is sound.
pub fn typed_files_are_sound()
    ensures { TypedFilesAreSound }
{}

/// Each name of a typed problem has at least one byte and only bytes from 32 to 126, where this holds
/// of the names of its file.
pub fn typed_names_are_writable()
    ensures { TypedNamesAreWritable }
{}
