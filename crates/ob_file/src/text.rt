//! Short files.
ghost use Rattle.std.specs.Prelude.{◌≡◌, ◌≤◌, IfOk, length};

use crate::region::create;
use std::fs::{File, OpenFile, symlink_metadata};
use std::io::{Error, ErrorKind, Read, Write};
use std::os::unix::fs::MetadataExt;
use std::rt::Files;
use std::{fs, io};

/// More bytes than a mark has, or an identity.
pub const LONG: usize = 256;

/// The bits of a mode by which others may write.
const OTHERS: u32 = 0o022;

// Reads a file from its first byte on, until it ends or the buffer is full, and tells how many bytes there were.
fn fill<F: Read>(file: &mut F, buffer: &mut [u8]) -> io::Result<usize>
    ensures { IfOk result (λ len. len ≤ length buffer.new) }
{
    let mut len = 0;
    while len < buffer.len() {
        match file.read(&mut buffer[len..])? {
            0 => return Ok(len),
            more => len += more,
        }
    }
    Ok(len)
}

// Opens a short file to be read, which others may not write. No link is followed.
fn open_text<R: Files>(files: &R, path: &str) -> io::Result<R::File> {
    if !symlink_metadata(files, path)?.is_file() {
        return Err(Error::other("it isn't a file"));
    }
    let file = File::open(files, path)?;
    if file.metadata()?.mode() & OTHERS == 0 {
        Ok(file)
    } else {
        Err(Error::other("others may write it: `chmod go-w` lets its user alone"))
    }
}

/// Reads the text of a short file into the room that is there; nothing where nothing is there. No link is followed; a file
/// that is empty, that is too long, or that others may write is an error.
pub fn read_text<R: Files>(files: &R, path: &str, text: &mut Vec<u8>) -> io::Result<()> {
    text.clear();
    let mut file = match open_text(files, path) {
        Ok(file) => file,
        Err(error) if error.kind() == ErrorKind::NotFound => return Ok(()),
        Err(error) => return Err(error),
    };
    let mut bytes = [0; LONG];
    let len = fill(&mut file, &mut bytes)?;
    if len == 0 {
        return Err(Error::other("it is empty"));
    }
    if len == LONG {
        return Err(Error::other("it is too long"));
    }
    match text.extend_from_slice(&bytes[..len]) {
        Ok(()) => Ok(()),
        Err(_) => Err(Error::from(ErrorKind::OutOfMemory)),
    }
}

/// Writes a text to a new file, in the place of what has its name, and waits until it is on the disk.
pub fn write_text<R: Files>(files: &R, path: &str, text: &[u8]) -> io::Result<()> {
    let mut file = create(files, path)?;
    file.write_all(text)?;
    file.sync_all()
}

/// Gives a file another name, in the place of what has it.
pub fn rename<R: Files>(files: &R, path: &str, place: &str) -> io::Result<()> {
    fs::rename(files, path, place)
}
