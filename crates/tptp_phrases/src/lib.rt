//! Phrases of grammars over the words of a TPTP text, and the laws of their readers.
#![tactic(auto)]
