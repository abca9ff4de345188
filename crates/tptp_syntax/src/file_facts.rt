//! What holds of every file that a text spells, as a call that does nothing.

ghost use Rattle.tptp_syntax.specs.FileLaws.{NamesAreWritable, FilesAreNoLarger, ChainsHavePairs};

/// A text spells no file with more nodes and bound names than the text has bytes, since each of
/// them stands for a word of its own. Each name of the file has at least one byte and only bytes
/// from 32 to 126, and each chain of `&` or `|` has at least two parts.
pub fn a_file_is_no_larger_than_its_text()
    ensures within { FilesAreNoLarger }
    ensures names { NamesAreWritable }
    ensures pairs { ChainsHavePairs }
{}
