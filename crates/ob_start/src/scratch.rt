//! How a run begins whose tables are neither kept nor saved.
use crate::kept::{has_regions, is_there};
use crate::locks::take;
use crate::place::{mark_beside, with_ending};
use crate::start::{FoundScratch, StartErr, anew_refusal, fail, refuse};
use ob_file::{Complaint, RegionFiles, is_named, make_new, open_file, settle, split_path};
use std::alloc::Global;
use std::fs::{File, remove_file, symlink_metadata};
use std::io::ErrorKind;
use std::rt::Files;

/// What such a run holds: the file `NAME.scratch`, which is there for as long as its regions are.
#[derive(Drop)]
pub struct Scratch {
    path: String,
    lock: File,
}

impl Scratch {
    /// Takes the file away, after the regions.
    pub fn end<R: Files>(self, files: &R) {
        let _ = remove_file(files, self.path.as_str());
    }
}

// What has the name of the file.
fn found<R: Files>(files: &R, path: &str, said: &mut Complaint) -> Result<FoundScratch, StartErr> {
    match symlink_metadata(files, path) {
        Ok(found) if found.is_file() && found.len() == 0 => Ok(FoundScratch::Left),
        Ok(_) => Ok(FoundScratch::Other),
        Err(error) if error.kind() == ErrorKind::NotFound => Ok(FoundScratch::Nothing),
        Err(error) => Err(fail(said, path, error)),
    }
}

// Opens the file, or makes it, and holds it.
fn hold<R: Files<File = File>>(
    files: &R,
    path: &str,
    is_new: bool,
    said: &mut Complaint,
) -> Result<File, StartErr> {
    let opened = if is_new {
        make_new(files, path)
    } else {
        open_file(files, path)
    };
    let file = match opened {
        Ok(file) => file,
        Err(error) if error.kind() == ErrorKind::AlreadyExists => {
            return Err(refuse(said, path, StartErr::AtWork));
        }
        Err(error) => return Err(fail(said, path, error)),
    };
    take(&file, path, said)?;
    match is_named(files, &file, path) {
        Ok(true) => Ok(file),
        Ok(false) => Err(refuse(said, path, StartErr::AtWork)),
        Err(error) => Err(fail(said, path, error)),
    }
}

// What has to be so that such a run may begin: nothing was saved under the name, and no file is somebody else's.
fn may_begin<R: Files>(
    alloc: Global,
    files: &R,
    name: &str,
    path: &str,
    said: &mut Complaint,
) -> Result<FoundScratch, StartErr> {
    let mark = mark_beside(alloc, name)?;
    let id = with_ending(alloc, name, "/id")?;
    let has_mark = is_there(files, mark.as_str(), said)?;
    let has_id = is_there(files, id.as_str(), said)?;
    let scratch = found(files, path, said)?;
    let regions = has_regions(alloc, files, name, said)?;
    match anew_refusal(has_mark || has_id, scratch, regions) {
        None => Ok(scratch),
        Some(error) if has_mark => Err(refuse(said, mark.as_str(), error)),
        Some(error) if has_id => Err(refuse(said, name, error)),
        Some(error) if scratch == FoundScratch::Other => Err(refuse(said, path, error)),
        Some(error) => Err(refuse(said, with_ending(alloc, name, ".*")?.as_str(), error)),
    }
}

/// Looks whether a run may begin whose tables are neither kept nor saved, over regions `NAME.REGION`; makes the file that it
/// holds, or takes over the one that a killed run left, whose regions are removed. `Kept` where it may not.
pub fn begin_scratch<R: Files<File = File>>(
    alloc: Global,
    files: &R,
    name: &str,
    said: &mut Complaint,
) -> Result<Scratch, StartErr> {
    let path = with_ending(alloc, name, ".scratch")?;
    let found = may_begin(alloc, files, name, path.as_str(), said)?;
    let is_new = found == FoundScratch::Nothing;
    let lock = hold(files, path.as_str(), is_new, said)?;
    if !is_new {
        RegionFiles::new(alloc, files, with_ending(alloc, name, "")?)?.remove_all();
    }
    let folder = split_path(name).0;
    match settle(files, folder) {
        Ok(()) => Ok(Scratch { path, lock }),
        Err(error) => Err(fail(said, folder, error)),
    }
}
