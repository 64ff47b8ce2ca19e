//! A region in a file of its own.
ghost use Rattle.std.specs.Prelude.{◌≡◌, ◌≤◌, ◌*◌, length};

use std::fs::{OpenFile, OpenOptions, remove_file, symlink_metadata};
use std::io;
use std::io::{Error, ErrorKind};
use std::os::unix::fs::{FileExt, MetadataExt, OpenOptionsExt};
use std::rt::Files;

/// The mode of the files that are made: they are their user's alone.
pub const MODE: u32 = 0o600;

/// The size of a region: how many blocks it has, and their length.
#[derive(Drop)]
pub struct Size {
    pub blocks: u32,
    pub len: u32,
}

/// The file of a region, which is open, and whether all that was written to it is on the disk.
#[derive(Drop)]
pub struct Opened<F> {
    pub path: String,
    pub file: F,
    pub is_synced: bool,
}

/// Takes away what has this name, if anything has.
pub fn clear<R: Files>(files: &R, path: &str) -> io::Result<()> {
    match remove_file(files, path) {
        Ok(()) => Ok(()),
        Err(error) if error.kind() == ErrorKind::NotFound => Ok(()),
        Err(error) => Err(error),
    }
}

/// Makes a file where nothing is. No link is followed.
pub fn make_new<R: Files>(files: &R, path: &str) -> io::Result<R::File> {
    OpenOptions::new()
        .read(true)
        .write(true)
        .create_new(true)
        .mode(MODE)
        .open(files, path)
}

/// Makes a file anew, in the place of what has its name. No link is followed.
pub fn create<R: Files>(files: &R, path: &str) -> io::Result<R::File> {
    clear(files, path)?;
    make_new(files, path)
}

/// Makes a region's file, in the place of what has its name where it `replaces` that, and else where nothing is.
pub fn make_region<R: Files>(files: &R, path: &str, replaces: bool) -> io::Result<R::File> {
    if replaces {
        create(files, path)
    } else {
        make_new(files, path)
    }
}

/// Whether an open file is still the one that has its name: others may have taken it away.
pub fn is_named<R: Files, F: OpenFile>(files: &R, file: &F, path: &str) -> io::Result<bool> {
    let held = file.metadata()?;
    match symlink_metadata(files, path) {
        Ok(found) => Ok(found.ino() == held.ino() && found.dev() == held.dev()),
        Err(error) if error.kind() == ErrorKind::NotFound => Ok(false),
        Err(error) => Err(error),
    }
}

/// Waits until all of a region's file is on the disk, and looks whether it still has its name.
pub fn settle_region<R: Files>(files: &R, opened: &Opened<R::File>) -> io::Result<()> {
    opened.file.sync_all()?;
    if is_named(files, &opened.file, opened.path.as_str())? {
        Ok(())
    } else {
        Err(Error::other("it was taken away"))
    }
}

/// Removes the file of a region, if it still has its name: where others have taken it away, another of theirs may have it.
pub fn take_away<R: Files>(files: &R, opened: &Opened<R::File>) -> io::Result<()> {
    if is_named(files, &opened.file, opened.path.as_str())? {
        remove_file(files, opened.path.as_str())
    } else {
        Err(Error::other("it was taken away"))
    }
}

/// Closes the file of a region and removes it, where the file system lets it; what it took of the disk is freed before.
pub fn remove<R: Files>(files: &R, opened: Opened<R::File>) {
    let _ = opened.file.set_len(0);
    let _ = take_away(files, &opened);
}

/// Opens a file to be read and written. A link isn't followed, and nothing is waited for.
pub fn open_file<R: Files>(files: &R, path: &str) -> io::Result<R::File> {
    if !symlink_metadata(files, path)?.is_file() {
        return Err(Error::other("it isn't a file"));
    }
    let file = OpenOptions::new().read(true).write(true).open(files, path)?;
    if file.metadata()?.is_file() {
        Ok(file)
    } else {
        Err(Error::other("it isn't a file"))
    }
}

/// Opens the file that a region of an earlier run has, of so many bytes. A link isn't followed, and nothing is waited for.
pub fn reopen<R: Files>(files: &R, path: &str, size: u64) -> io::Result<R::File> {
    let file = open_file(files, path)?;
    if file.metadata()?.len() == size {
        Ok(file)
    } else {
        Err(Error::other("it hasn't the length of its blocks"))
    }
}

/// The byte at which the block at a place begins, of blocks of `len` bytes.
pub fn start_of(place: u32, len: usize) -> u64
    requires { len ≤ 16416 }
    ensures { result ≡ place * len }
{
    place as u64 * len as u64
}

/// Reads the bytes at a block's place, which are as many as `buf` has.
pub fn read<F: FileExt>(file: &F, place: u32, buf: &mut [u8]) -> io::Result<()>
    requires { length buf.old ≤ 16416 }
    ensures { length buf.new ≡ length buf.old }
{
    file.read_exact_at(buf, start_of(place, buf.len()))
}

/// Writes a block at its place.
pub fn write<F: FileExt>(file: &F, place: u32, block: &[u8]) -> io::Result<()>
    requires { length block.now ≤ 16416 }
{
    file.write_all_at(block, start_of(place, block.len()))
}
