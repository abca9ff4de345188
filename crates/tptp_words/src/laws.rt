//! What the definitions of words and texts promise, as calls that do nothing.

ghost use Rattle.tptp_words.specs.Laws.{OneList, WrittenWordsAreRead, SpacedWordsAreRead};

/// A text has at most one list of words, with their places, and ends in at most one way: whole or
/// with one error at one place.
pub fn one_list()
    ensures exact { OneList }
{}

/// Words that are written with blanks before and after them, each the longest at its place in what
/// is written, are read back, each where it was written.
pub fn written_words_are_read()
    ensures exact { WrittenWordsAreRead }
{}

/// Spelled words are read back wherever at least one blank stands between neighbours.
pub fn spaced_words_are_read()
    ensures exact { SpacedWordsAreRead }
{}
