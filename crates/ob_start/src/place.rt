//! Where a store lies, and its mark.
ghost use Rattle.std.specs.Prelude.{◌≡◌, ◌⊎◌, ◌++◌, Err, IfErr, IfOk, OnOk, codes, string_bytes, true};
ghost use Rattle.ob_start.specs.Places.{MayClash, is_inside, is_name, is_within, may_be_named, or_usage, unslashed};
ghost use Rattle.ob_start.specs.declared.start.StartErr.TheVariants.{NoMemory as WantsMemory, Usage as IsUsage};

use crate::start::{StartErr, fail};
use ob_base::NoMemory;
use ob_file::{Complaint, region_in, split_path};
use std::alloc::Global;
use std::io::{Error, ErrorKind};
use std::rt::Files;

/// A path and what follows it.
pub(crate) fn with_ending(alloc: Global, path: &str, ending: &str) -> Result<String, NoMemory>
    ensures { IfOk result (λ longer. string_bytes longer ≡ path.now ++ ending.now) }
{
    match format!(in alloc; "{}{}", path, ending) {
        Ok(longer) => Ok(longer),
        Err(_) => Err(NoMemory),
    }
}

/// Where the mark of the store with this name lies, if nothing else is said: beside its files, as `NAME.mark`.
pub fn mark_beside(alloc: Global, name: &str) -> Result<String, NoMemory>
    ensures { IfOk result (λ place. string_bytes place ≡ name.now ++ codes ".mark") }
{
    with_ending(alloc, name, ".mark")
}

/// How the names of the files of the regions begin whose store is the folder with this name.
pub fn regions_in(alloc: Global, name: &str) -> Result<String, NoMemory>
    ensures { IfOk result (λ regions. string_bytes regions ≡ name.now ++ codes "/r") }
{
    with_ending(alloc, name, "/r")
}

/// Whether a folder, or a store, can have this as its last name.
pub fn is_name(last: &str) -> bool
    ensures { result ≡ is_name last.now }
{
    last != "" && last != "." && last != ".."
}

// Whether what follows the path of a folder goes on inside, or is nothing.
fn is_within(rest: &[u8]) -> bool
    ensures { result ≡ is_within rest.now }
{
    match rest.split_first() {
        None => true,
        Some((first, _)) => *first == b'/',
    }
}

/// Whether a path is that of a folder, or of something in it, as far as their letters tell.
pub fn is_inside(path: &str, folder: &str) -> bool
    ensures { result ≡ is_inside path.now folder.now }
{
    match path.as_bytes().strip_prefix(folder.as_bytes()) {
        Some(rest) => is_within(rest),
        None => false,
    }
}

/// A name without the slashes at its end.
pub fn unslashed(name: &str) -> &str
    ensures { result.now ≡ unslashed name.now }
{
    name.trim_end_matches('/')
}

/// Where a link of this path points; the path itself where there is no link, and nothing. Only one link is followed.
/// `Failed` where it can't be read.
pub fn follow<R: Files>(
    alloc: Global,
    files: &R,
    path: String,
    said: &mut Complaint,
) -> Result<String, StartErr> {
    let link = match files.read_link(alloc, path.as_str()) {
        Ok(link) => link,
        Err(error) => {
            return match error.kind() {
                ErrorKind::NotFound | ErrorKind::InvalidInput => Ok(path),
                _ => Err(fail(said, path.as_str(), error)),
            };
        }
    };
    let target = link.as_str();
    let folder = if target.starts_with('/') {
        ""
    } else {
        split_path(path.as_str()).0
    };
    Ok(with_ending(alloc, folder, target)?)
}

// The path of a file without links and dots in that of its folder; none where that can't be told.
fn plain_path<R: Files>(alloc: Global, files: &R, path: &str) -> Result<Option<String>, NoMemory> {
    let (folder, last) = split_path(path);
    let Ok(folder) = files.canonicalize(alloc, folder) else {
        return Ok(None);
    };
    let between = if folder.as_str().ends_with('/') {
        ""
    } else {
        "/"
    };
    match format!(in alloc; "{}{}{}", folder.as_str(), between, last) {
        Ok(path) => Ok(Some(path)),
        Err(_) => Err(NoMemory),
    }
}

// Says that the path of a word is none that the program takes.
fn no_path(said: &mut Complaint, word: &str, path: &str, reason: &str) -> StartErr
    ensures { result ≡ IsUsage }
{
    said.say(&[word, " ", path], Error::other(reason));
    StartErr::Usage
}

/// Looks whether a store can have this name: `Usage` where it can't.
pub fn may_be_named(name: &str, said: &mut Complaint) -> Result<(), StartErr>
    ensures { result ≡ or_usage (may_be_named name.now) }
{
    if is_name(split_path(name).1) {
        Ok(())
    } else {
        Err(no_path(said, "--store", name, "a store can't have this name"))
    }
}

/// Looks whether a mark can lie at this place: `Usage` where it can't.
pub fn may_be_placed(place: &str, said: &mut Complaint) -> Result<(), StartErr>
    ensures { result ≡ or_usage (may_be_named place.now) }
{
    if is_name(split_path(place).1) {
        Ok(())
    } else {
        Err(no_path(said, "--mark", place, "a mark can't have this name"))
    }
}

/// Looks whether the mark of the store in a folder may lie at this place: `Usage` where that is in the folder, or the
/// folder itself.
pub fn lies_apart<R: Files>(
    alloc: Global,
    files: &R,
    name: &str,
    place: &str,
    said: &mut Complaint,
) -> Result<(), StartErr>
    ensures inside { is_inside place.now name.now ≡ true → result ≡ Err IsUsage }
    ensures refused { IfErr result (λ e. (e ≡ IsUsage) ⊎ (e ≡ WantsMemory)) }
{
    let is_in = if is_inside(place, name) {
        true
    } else {
        let folder = plain_path(alloc, files, name)?;
        let mark = plain_path(alloc, files, place)?;
        match (folder, mark) {
            (Some(folder), Some(mark)) => is_inside(mark.as_str(), folder.as_str()),
            _ => false,
        }
    };
    if is_in {
        Err(no_path(
            said,
            "--mark",
            place,
            "the mark can't lie in the store's folder",
        ))
    } else {
        Ok(())
    }
}

/// The same of a store of files: `Usage` where the place of its mark has the store's own name, or that of a region.
pub fn lies_beside(name: &str, place: &str, said: &mut Complaint) -> Result<(), StartErr>
    ensures beside { OnOk result (¬ (MayClash name.now place.now)) }
    ensures refused { IfErr result (λ e. (e ≡ IsUsage) × MayClash name.now place.now) }
{
    if place == name || region_in(split_path(place).1.as_bytes(), split_path(name).1).is_some() {
        Err(no_path(
            said,
            "--mark",
            place,
            "a file of the store may have this name",
        ))
    } else {
        Ok(())
    }
}
