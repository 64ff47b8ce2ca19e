//! How a run begins that keeps its tables.
ghost use Rattle.std.specs.Prelude.{◌≡◌, IfOk, true};
ghost use Rattle.ob_start.specs.Places.{MayClash, may_be_named};

use crate::locks::lock;
use crate::place::{lies_beside, may_be_placed, with_ending};
use crate::start::{StartErr, fail, keep_refusal, refuse};
use ob_file::{Complaint, RegionFiles};
use std::alloc::Global;
use std::fs::{File, symlink_metadata};
use std::io::ErrorKind;
use std::rt::Files;

/// What a run holds that keeps its tables: what keeps other runs away from its mark, and from the store.
#[derive(Drop)]
pub struct KeptStore {
    pub mark: File,
    pub store: File,
}

// Whether anything has this name.
pub(crate) fn is_there<R: Files>(
    files: &R,
    path: &str,
    said: &mut Complaint,
) -> Result<bool, StartErr> {
    match symlink_metadata(files, path) {
        Ok(_) => Ok(true),
        Err(error) => match error.kind() {
            ErrorKind::NotFound | ErrorKind::NotADirectory => Ok(false),
            _ => Err(fail(said, path, error)),
        },
    }
}

// Whether a file of the store's has the name of a region.
pub(crate) fn has_regions<R: Files>(
    alloc: Global,
    files: &R,
    name: &str,
    said: &mut Complaint,
) -> Result<bool, StartErr> {
    match RegionFiles::new(alloc, files, with_ending(alloc, name, "")?)?.are_there() {
        Ok(found) => Ok(found),
        Err(error) => Err(fail(said, name, error)),
    }
}

/// Looks whether a run may begin that keeps the tables of the store with this name by the mark at this place, and keeps
/// other runs away. `NoMark` where it isn't there, but a file has the name of a region.
pub fn begin_kept<R: Files<File = File>>(
    alloc: Global,
    files: &R,
    name: &str,
    place: &str,
    said: &mut Complaint,
) -> Result<KeptStore, StartErr>
    ensures named { IfOk result (λ _. may_be_named place.now ≡ true) }
    ensures beside { IfOk result (λ _. ¬ (MayClash name.now place.now)) }
{
    may_be_placed(place, said)?;
    lies_beside(name, place, said)?;
    let marks = with_ending(alloc, place, ".lock")?;
    let stores = with_ending(alloc, name, ".lock")?;
    let mark = lock(files, marks.as_str(), said)?;
    let store = lock(files, stores.as_str(), said)?;
    let has_mark = is_there(files, place, said)?;
    match keep_refusal(has_mark, has_regions(alloc, files, name, said)?) {
        None => Ok(KeptStore { mark, store }),
        Some(error) => Err(refuse(said, place, error)),
    }
}
