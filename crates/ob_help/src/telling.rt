//! What a program tells of itself.
use crate::commands::{Program, command};
use clap::Error;
use clap::error::ErrorKind;
use ob_base::NoMemory;
use std::alloc::Global;

/// The text of an error.
pub fn text_of(alloc: Global, error: &Error) -> Result<String, NoMemory> {
    match format!(in alloc; "{}", error) {
        Ok(text) => Ok(text),
        Err(_) => Err(NoMemory),
    }
}

// The text of an error that asks for one.
fn asked(alloc: Global, error: &Error) -> Result<Option<String>, NoMemory> {
    match error.kind() {
        ErrorKind::OutOfMemory => Err(NoMemory),
        ErrorKind::DisplayHelp | ErrorKind::DisplayVersion => match text_of(alloc, error) {
            Ok(text) => Ok(Some(text)),
            Err(error) => Err(error),
        },
        _ => Ok(None),
    }
}

/// What the words ask to be told instead of a run: what the words are, with `--help`, and which program this is, with
/// `--version`.
pub fn told(alloc: Global, program: Program, words: &[String]) -> Result<Option<String>, NoMemory> {
    let Ok(command) = command(alloc, program) else {
        return Err(NoMemory);
    };
    match command.try_get_matches_from(words) {
        Ok(_) => Ok(None),
        Err(error) => asked(alloc, &error),
    }
}
