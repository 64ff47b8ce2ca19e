//! Locks, which keep other runs away.
use crate::start::{StartErr, fail, refuse};
use ob_file::{Complaint, make_new, open_file};
use std::fs::{File, TryLockError};
use std::io;
use std::io::ErrorKind;
use std::rt::Files;

// Opens the file at a path, which is made where nothing is there. No link is followed, and nothing is waited for.
fn open_lock<R: Files>(files: &R, path: &str) -> io::Result<R::File> {
    match make_new(files, path) {
        Err(error) if error.kind() == ErrorKind::AlreadyExists => open_file(files, path),
        made => made,
    }
}

/// Takes the lock on an open file, of this path. `AtWork` where another run has it.
pub fn take(file: &File, path: &str, said: &mut Complaint) -> Result<(), StartErr> {
    match file.try_lock() {
        Ok(()) => Ok(()),
        Err(TryLockError::WouldBlock) => Err(refuse(said, path, StartErr::AtWork)),
        Err(TryLockError::Error(error)) => Err(fail(said, path, error)),
    }
}

/// Keeps other runs away that lock the file at this path, for as long as the file that it answers is open. It is made where
/// nothing is there, and stays. `AtWork` where another run has it.
pub fn lock<R: Files<File = File>>(
    files: &R,
    path: &str,
    said: &mut Complaint,
) -> Result<File, StartErr> {
    let file = match open_lock(files, path) {
        Ok(file) => file,
        Err(error) => return Err(fail(said, path, error)),
    };
    take(&file, path, said)?;
    Ok(file)
}
