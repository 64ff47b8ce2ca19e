//! The files of a store's regions, as they lie in their folder.
ghost use Rattle.std.specs.Prelude.{◌≡◌, ◌≢◌, ◌<◌, ◌^◌, ◌++◌, ◌||◌, ℕ, codes, decimal, IfSome, Some, not, true};
ghost use Rattle.ob_file.specs.Names.{is_passed};
ghost use Rattle.ob_file.specs.Paths.{folder_part, last_part};

use crate::region::open_file;
use itoa::Buffer;
use ob_base::NoMemory;
use ob_mark::number_of;
use std::alloc::Global;
use std::fs::{File, OpenFile, remove_file, symlink_metadata};
use std::io::{Error, ErrorKind, Read};
use std::rt::Files;
use std::{io, str};

/// The bytes of names that are read from a folder at once.
pub const NAMES: usize = 4096;

/// The most digits of a region's number.
const DIGITS: usize = 20;

/// What the system says where a file system can't do a call at all.
const INVALID: i32 = 22;

/// The files `NAME.REGION`.
#[derive(Drop)]
pub struct RegionFiles<'a, R: Files> {
    files: &'a R,
    name: String,
    folder: String,
    path: String,
}

/// Waits until the names in a folder are on the disk. Where the file system can't wait for a folder it is taken as done.
pub fn settle<R: Files>(files: &R, folder: &str) -> io::Result<()> {
    match File::open(files, folder)?.sync_all() {
        Err(error) if error.raw_os_error() == Some(INVALID) => Ok(()),
        settled => settled,
    }
}

// Waits until a file is on the disk; what isn't a file is left alone, and what is gone. It is opened to be written,
// since that doesn't wait for others at a pipe.
fn settle_file<R: Files>(files: &R, path: &str) -> io::Result<()> {
    match symlink_metadata(files, path) {
        Ok(found) if found.is_file() => {}
        Ok(_) => return Ok(()),
        Err(error) if error.kind() == ErrorKind::NotFound => return Ok(()),
        Err(error) => return Err(error),
    }
    open_file(files, path)?.sync_all()
}

/// The folder of a file, with the slash after it, and its name there.
pub fn split_path(path: &str) -> (&str, &str)
    ensures folder { result.0.now ≡ folder_part path.now }
    ensures name { result.1.now ≡ last_part path.now }
{
    match path.rfind('/') {
        Some(slash) => path.split_at(slash + 1),
        None => ("./", path),
    }
}

/// The region whose file has this name in the folder of a store, where the names of its regions' files begin with `first`
/// and a dot.
pub fn region_in(name: &[u8], first: &str) -> Option<u64>
    ensures spelt { IfSome result (λ region.
        name.now ≡ first.now ++ (codes "." ++ decimal region)) }
    ensures found { (region : ℕ) → region < 2 ^ 64
        → name.now ≡ first.now ++ (codes "." ++ decimal region) → result ≡ Some region }
{
    let rest = name.strip_prefix(first.as_bytes())?;
    let digits = rest.strip_prefix(b".")?;
    let spelt = str::from_utf8(digits).ok()?;
    number_of(spelt)
}

/// Whether a name in the folder of a store isn't looked at where there is no identity yet: it is that of the folder itself,
/// of the one above, or of what a first run makes before the identity, or there is none.
pub fn is_passed(name: &[u8]) -> bool
    ensures { result ≡ is_passed name.now }
{
    let is_folder = name.is_empty() || name == b".".as_slice() || name == b"..".as_slice();
    is_folder || name == b"lock".as_slice() || name == b"id.next".as_slice()
}

/// What names are in a store's folder.
#[derive(Clone, Copy, Debug, PartialEq, Eq)]
pub struct Names {
    /// Whether one is that of a region's file.
    pub regions: bool,
    /// Whether one isn't passed over.
    pub others: bool,
}

impl Names {
    // The same, and one name more.
    fn and(self, name: &[u8], first: &str) -> Names
        ensures others { result.others ≡ (self.others || not (is_passed name.now)) }
        ensures found { (region : ℕ) → region < 2 ^ 64
            → name.now ≡ first.now ++ (codes "." ++ decimal region) → result.regions ≡ true }
        ensures stays { self.regions ≡ true → result.regions ≡ true }
        ensures none { ((region : ℕ) → name.now ≢ first.now ++ (codes "." ++ decimal region))
            → result.regions ≡ self.regions }
    {
        Names {
            regions: self.regions || region_in(name, first).is_some(),
            others: self.others || !is_passed(name),
        }
    }

    // The same, and more names, each with a zero byte after it.
    fn and_all(self, names: &[u8], first: &str) -> Names {
        let mut found = self;
        for name in names.split(|byte| *byte == 0) {
            found = found.and(name, first);
        }
        found
    }
}

/// The names in a folder, where those of the regions' files begin with `first` and a dot.
pub fn names_in<R: Files>(files: &R, folder: &str, first: &str) -> io::Result<Names> {
    let mut open = files.open_dir(folder)?;
    let mut found = Names {
        regions: false,
        others: false,
    };
    let mut names = [0; NAMES];
    for _ in 0..u64::MAX {
        match open.read(&mut names)? {
            0 => return Ok(found),
            len => found = found.and_all(&names[..len], first),
        }
    }
    Err(Error::from(ErrorKind::Other))
}

impl<'a, R: Files> RegionFiles<'a, R> {
    /// Those of the store with this name. It takes all its memory of `alloc` here.
    pub fn new(alloc: Global, files: &'a R, name: String) -> Result<RegionFiles<'a, R>, NoMemory> {
        let Ok(folder) = String::from_str(alloc, split_path(name.as_str()).0) else {
            return Err(NoMemory);
        };
        let Ok(path) = String::with_capacity(alloc, name.len() + 1 + DIGITS) else {
            return Err(NoMemory);
        };
        Ok(RegionFiles {
            files,
            name,
            folder,
            path,
        })
    }

    /// How the names of the files begin, with their folder.
    pub fn name(&self) -> &str {
        self.name.as_str()
    }

    // The path of the file of a region, in the room that is there for it.
    fn path_of(&mut self, region: u64) -> io::Result<&str> {
        self.path.clear();
        let mut buffer = Buffer::new();
        let is_whole = self.path.push_str(self.name.as_str()).is_ok()
            && self.path.push('.').is_ok()
            && self.path.push_str(buffer.format(region)).is_ok();
        if is_whole {
            Ok(self.path.as_str())
        } else {
            Err(Error::from(ErrorKind::OutOfMemory))
        }
    }

    // Waits until the file of a region is on the disk.
    fn settle_region(&mut self, region: u64) -> io::Result<()> {
        let files = self.files;
        settle_file(files, self.path_of(region)?)
    }

    // Removes the file of a region, where the file system lets it.
    fn remove_region(&mut self, region: u64) {
        let files = self.files;
        if let Ok(path) = self.path_of(region) {
            let _ = remove_file(files, path);
        }
    }

    // Waits for those of these names, each with a zero byte after it, that are files of regions.
    fn settle_named(&mut self, names: &[u8]) -> io::Result<()> {
        for name in names.split(|byte| *byte == 0) {
            if let Some(region) = region_in(name, split_path(self.name.as_str()).1) {
                self.settle_region(region)?;
            }
        }
        Ok(())
    }

    // Removes those of these names.
    fn remove_named(&mut self, names: &[u8]) {
        for name in names.split(|byte| *byte == 0) {
            if let Some(region) = region_in(name, split_path(self.name.as_str()).1) {
                self.remove_region(region);
            }
        }
    }

    /// Whether anything has the name of one of them. Where the folder isn't there, nothing has.
    pub fn are_there(&self) -> io::Result<bool> {
        match names_in(
            self.files,
            self.folder.as_str(),
            split_path(self.name.as_str()).1,
        ) {
            Ok(found) => Ok(found.regions),
            Err(error) if error.kind() == ErrorKind::NotFound => Ok(false),
            Err(error) => Err(error),
        }
    }

    /// Waits until all of them are on the disk, and their names.
    pub fn settle_all(&mut self) -> io::Result<()> {
        let mut folder = self.files.open_dir(self.folder.as_str())?;
        let mut names = [0; NAMES];
        for _ in 0..u64::MAX {
            match folder.read(&mut names)? {
                0 => return settle(self.files, self.folder.as_str()),
                len => self.settle_named(&names[..len])?,
            }
        }
        Err(Error::from(ErrorKind::Other))
    }

    /// Removes all of them, as far as the file system lets them.
    pub fn remove_all(&mut self) {
        let Ok(mut folder) = self.files.open_dir(self.folder.as_str()) else {
            return;
        };
        let mut names = [0; NAMES];
        for _ in 0..u64::MAX {
            match folder.read(&mut names) {
                Ok(0) | Err(_) => return,
                Ok(len) => self.remove_named(&names[..len]),
            }
        }
    }
}
