//! What the definitions of files promise, as calls that do nothing.

ghost use Rattle.tptp_syntax.specs.Files.{OneVerdict, OneFile, OneDerivation, FrontsBegin};
ghost use Rattle.tptp_syntax.specs.Nesting.{DerivingNests, BeginningNests, NextWordNests};
ghost use Rattle.tptp_syntax.specs.Nesting.{DeepWordsAreRefused};

/// A text has at most one verdict: at most one file is spelled within the limits, and a refusal has
/// one place and one number.
pub fn one_verdict()
    ensures exact { OneVerdict }
{}

/// A text spells at most one file, however deep it nests.
pub fn a_text_spells_one_file()
    ensures exact { OneFile }
{}

/// Words derive at most one file, however deep it nests.
pub fn words_derive_one_file()
    ensures exact { OneDerivation }
{}

/// Where words begin a file, so do the words before each of them.
pub fn fronts_begin_a_file()
    ensures exact { FrontsBegin }
{}

/// The depth within which words derive or begin a file is the nesting of its words, counted by
/// brackets, `~` and quantified variables. So a word is refused as too deep exactly where the words
/// up to and with it begin a file and it nests deeper than the limit.
pub fn depth_is_nesting()
    ensures derived { DerivingNests }
    ensures begun { BeginningNests }
    ensures next { NextWordNests }
    ensures refused { DeepWordsAreRefused }
{}
