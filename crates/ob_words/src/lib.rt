//! The words of the command line, and the settings that they say.
#![tactic(auto)]

mod words;

pub use words::{
    KeptWords, MeddleWords, SavedWords, Words, WordsErr, mark_place, read_kept_words,
    read_meddle_words, read_saved_words, read_words, store_name,
};
