//! Grammars with values: which lists of tokens spell which value. It has no function of its own, but the
//! forms that a grammar is built of, a reader for each, and the proof that such a reader accepts exactly
//! the grammar, finds the one value that the tokens spell, and is stuck exactly where no word goes on.
#![tactic(auto)]
