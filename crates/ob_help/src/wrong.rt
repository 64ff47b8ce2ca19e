//! Words that are none.
ghost use Rattle.std.specs.Prelude.{◌≡◌, IfOk, string_bytes};

use crate::commands::{Program, command, says};
use crate::telling::text_of;
use clap::error::ErrorKind;
use clap::{ArgMatches, Error};
use ob_base::NoMemory;
use ob_words::{WordsErr, read_saved_words};
use std::alloc::Global;

/// A word that isn't taken, and why.
#[derive(Drop)]
pub struct WrongWord {
    pub word: String,
    pub reason: String,
}

/// How many ways there are in which a word may be wrong.
const WAYS: usize = 16;

// A word, those on which it hangs, two at most, and what it may be with them: first each by itself.
fn way<'a>(i: usize) -> ([&'a str; 3], &'a str) {
    match i {
        0 => (["buffer", "", ""], says("buffer")),
        1 => (["pack", "", ""], says("pack")),
        2 => (["depth", "", ""], says("depth")),
        3 => (["plan", "", ""], says("plan")),
        4 => (["pad", "", ""], says("pad")),
        5 => (["stash", "", ""], says("stash")),
        6 => (["batch", "", ""], says("batch")),
        7 => (["flight", "", ""], says("flight")),
        8 => (["max-input", "", ""], says("max-input")),
        9 => (["gen", "", ""], says("gen")),
        10 => (["buffer", "pack", ""], says("buffer")),
        11 => (
            ["pad", "plan", ""],
            "it doesn't go with --plan continuous or hash",
        ),
        12 => (["flight", "batch", ""], "it doesn't go with --batch"),
        13 => (
            ["flight", "plan", ""],
            "it doesn't go with --plan large, continuous or hash",
        ),
        14 => (["keep", "save", ""], "it doesn't go with --save"),
        _ => (
            ["mark", "save", "keep"],
            "it goes with --save or --keep alone",
        ),
    }
}

// Whether a word has no value.
fn is_flag(name: &str) -> bool {
    name == "save" || name == "keep"
}

// A word, and what isn't right with it.
fn wrong(alloc: Global, word: &str, reason: &str) -> Result<WrongWord, NoMemory>
    ensures word { IfOk result (λ it. string_bytes it.word ≡ word.now) }
    ensures reason { IfOk result (λ it. string_bytes it.reason ≡ reason.now) }
{
    let Ok(word) = String::from_str(alloc, word) else {
        return Err(NoMemory);
    };
    match String::from_str(alloc, reason) {
        Ok(reason) => Ok(WrongWord { word, reason }),
        Err(_) => Err(NoMemory),
    }
}

// The first line of an error, without the word that each begins with.
fn first_line(text: &str) -> &str {
    let line = match text.split_once('\n') {
        Some((line, _)) => line,
        None => text,
    };
    line.strip_prefix("error: ").unwrap_or(line)
}

// What stands first in quotes.
fn quoted(line: &str) -> Option<&str> {
    let (_, rest) = line.split_once('\'')?;
    let (word, _) = rest.split_once('\'')?;
    Some(word)
}

// The word that a command didn't take: its error names it in the first line.
fn refused(alloc: Global, error: &Error) -> Result<WrongWord, NoMemory> {
    let text = text_of(alloc, error)?;
    let line = first_line(text.as_str());
    match quoted(line) {
        None => wrong(alloc, "the words", line),
        Some("") => wrong(alloc, "an empty word", line),
        Some(word) => wrong(alloc, word, line),
    }
}

// A word that is given, as it stands on the command line.
fn spelt(alloc: Global, name: &str, value: &str) -> Result<String, NoMemory> {
    let spelt = if is_flag(name) {
        format!(in alloc; "--{}", name)
    } else {
        format!(in alloc; "--{}={}", name, value)
    };
    match spelt {
        Ok(word) => Ok(word),
        Err(_) => Err(NoMemory),
    }
}

// Those of these words that are given.
fn given(alloc: Global, matches: &ArgMatches, names: &[&str]) -> Result<Vec<String>, NoMemory> {
    let mut words = Vec::new(alloc);
    for name in names {
        if let Some(value) = matches.get_str(name) {
            if !is_flag(name) || value == "true" {
                let word = spelt(alloc, name, value)?;
                if words.push(word).is_err() {
                    return Err(NoMemory);
                }
            }
        }
    }
    Ok(words)
}

// Whether the program takes those of these words that are given, and no others.
fn are_taken(alloc: Global, matches: &ArgMatches, names: &[&str]) -> Result<bool, NoMemory> {
    let words = given(alloc, matches, names)?;
    match read_saved_words(alloc, &words) {
        Ok(_) => Ok(true),
        Err(WordsErr::Usage) => Ok(false),
        Err(WordsErr::NoMemory) => Err(NoMemory),
    }
}

// What isn't right with a word.
fn misfit(alloc: Global, name: &str, reason: &str) -> Result<WrongWord, NoMemory> {
    match format!(in alloc; "--{}", name) {
        Ok(word) => wrong(alloc, word.as_str(), reason),
        Err(_) => Err(NoMemory),
    }
}

// The first word that isn't what it may be.
fn misfits(alloc: Global, matches: &ArgMatches) -> Result<WrongWord, NoMemory> {
    for i in 0..WAYS {
        let (names, reason) = way(i);
        match are_taken(alloc, matches, &names) {
            Ok(true) => {}
            Ok(false) => return misfit(alloc, names[0], reason),
            Err(error) => return Err(error),
        }
    }
    wrong(alloc, "the words", "they don't go together")
}

/// Which word isn't right, of words that `oblidb` doesn't take, and why.
pub fn wrong_word(alloc: Global, words: &[String]) -> Result<WrongWord, NoMemory> {
    let Ok(command) = command(alloc, Program::Oblidb) else {
        return Err(NoMemory);
    };
    match command.try_get_matches_from(words) {
        Ok(matches) => misfits(alloc, &matches),
        Err(error) => match error.kind() {
            ErrorKind::OutOfMemory => Err(NoMemory),
            _ => refused(alloc, &error),
        },
    }
}
