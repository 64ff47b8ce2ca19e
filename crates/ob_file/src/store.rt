//! The store.
ghost use Rattle.std.specs.Prelude.{◌≡◌, ◌≤◌, [], None, refl, false, length, take};
ghost use Rattle.std.specs.Ordering.{nat_cmp};
ghost use Rattle.std.specs.BTreeMap.{get};
ghost use Rattle.ob_store.specs.Fresh.{past_within};
ghost use Rattle.ob_store.specs.Logs.{asked_of};
ghost use Rattle.ob_file.specs.Regions.{IsFresh, fresh_live, shape_of};

use crate::complaint::Complaint;
use crate::folder::{NAMES, names_in, region_in, settle, split_path};
use crate::region::{
    Opened, Size, make_region, read, remove, reopen, settle_region, take_away, write,
};
use itoa::Buffer;
use ob_base::{Access, Failed, NoMemory, StoreErr};
use ob_store::{BlockStore, GivenUp, Lasting, Log, Saving};
use std::alloc::Global;
use std::collections::BTreeMap;
use std::fs::OpenFile;
use std::io::{Error, ErrorKind, Read};
use std::os::unix::fs::FileExt;
use std::rt::Files;
use std::{fs, io};

/// The most bytes that a block has.
const LONGEST: usize = 16416;

/// A store that keeps each region in a file of its own, `NAME.REGION`, block by block from the first byte on. A file
/// is open for as long as its region lives. What the files hold is not told: others may change them at any time.
///
/// Each error of a file, a file that is too short, and what isn't a file where one is wanted is `Failed`. The files of
/// regions that are given up are emptied, removed and closed; a call at one of them is `Failed` from then on.
#[derive(Drop)]
pub struct FileStore<'a, R: Files> {
    alloc: Global,
    files: &'a R,
    name: String,
    // whether a region's file takes the place of what has its name
    replaces: bool,
    log: Log,
    // those that live, whether they were given up or not
    regions: BTreeMap<u64, Size>,
    // the files of those that were not
    opened: BTreeMap<u64, Opened<R::File>>,
    faults: u64,
    slips: u64,
    given: [u8; 16416],
    given_len: usize,
    given_up: Option<GivenUp>,
    // the region of which a call failed last, if it is that of one, and why
    trouble: Option<(Option<u64>, Error)>,
    ghost fresh: { IsFresh (asked_of log) regions },
    ghost short: { given_len ≤ 16416 },
}

// Removes the files of the regions from this number on.
fn remove_from<R: Files>(files: &R, opened: &mut BTreeMap<u64, Opened<R::File>>, from: u64) {
    'files: while let Some((last, _)) = opened.last_key_value() {
        if *last < from {
            return;
        }
        if let Some((_, file)) = opened.pop_last() {
            remove(files, file);
        }
    }
}

// Waits until the files that were written since the last time are on the disk, and the names in their folder.
fn settle_written<R: Files>(
    files: &R,
    opened: &mut BTreeMap<u64, Opened<R::File>>,
    name: &str,
) -> Result<(), (Option<u64>, Error)> {
    for (region, file) in opened.iter_mut() {
        if !file.is_synced {
            match settle_region(files, file) {
                Ok(()) => file.is_synced = true,
                Err(error) => return Err((Some(*region), error)),
            }
        }
    }
    match settle(files, split_path(name).0) {
        Ok(()) => Ok(()),
        Err(error) => Err((None, error)),
    }
}

// Why a call at a region fails that was given up.
fn given_up() -> Error {
    Error::other("it was given up")
}

// Copies a block to the beginning of a buffer.
fn keep(buffer: &mut [u8], block: &[u8])
    requires { length block.now ≤ length buffer.old }
    ensures kept { take (length block.now) buffer.new ≡ block.now }
    ensures size { length buffer.new ≡ length buffer.old }
{
    buffer[..block.len()].copy_from_slice(block);
}

impl<'a, R: Files> FileStore<'a, R> {
    /// A store of which nothing was asked, whose files have names that begin with this one and a dot. A region's file takes
    /// the place of what has its name where it `replaces` that, and else isn't made there. It takes its memory of `alloc`.
    pub fn new(alloc: Global, files: &'a R, name: String, replaces: bool) -> FileStore<'a, R>
    where
        R::File: FileExt,
        ensures asked { (⟦<FileStore<'a, R> as BlockStore>⟧.state result).asked ≡ [] }
        ensures faults { (⟦<FileStore<'a, R> as BlockStore>⟧.state result).faults ≡ 0 }
        ensures slips { (⟦<FileStore<'a, R> as BlockStore>⟧.state result).slips ≡ 0 }
        ensures given_up { ⟦<FileStore<'a, R> as BlockStore>⟧.given_up result ≡ None }
    {
        FileStore {
            alloc,
            files,
            name,
            replaces,
            log: Log::new(alloc),
            regions: BTreeMap::new(alloc),
            opened: BTreeMap::new(alloc),
            faults: 0,
            slips: 0,
            given: [0; 16416],
            given_len: 0,
            given_up: None,
            trouble: None,
        }
    }

    // The path of a region's file.
    fn path_of(&self, region: u64) -> Result<String, NoMemory> {
        match format!(in self.alloc; "{}.{}", self.name, region) {
            Ok(path) => Ok(path),
            Err(_) => Err(NoMemory),
        }
    }

    // Removes the files of those regions among these names, each with a zero byte after it, that aren't live.
    fn sweep_named(&self, names: &[u8]) {
        for name in names.split(|byte| *byte == 0) {
            if let Some(region) = region_in(name, split_path(self.name.as_str()).1) {
                if !self.regions.contains_key(&region) {
                    if let Ok(path) = self.path_of(region) {
                        let _ = fs::remove_file(self.files, path.as_str());
                    }
                }
            }
        }
    }

    // Whether the folder has no file of a region.
    fn is_empty(&self) -> io::Result<bool> {
        let (folder, first) = split_path(self.name.as_str());
        match names_in(self.files, folder, first) {
            Ok(found) => Ok(!found.regions),
            Err(error) if error.kind() == ErrorKind::NotFound => Ok(true),
            Err(error) => Err(error),
        }
    }

    /// Says what the last call failed at that did.
    pub fn complain(&self, complaint: &mut Complaint) {
        match self.trouble {
            None => {}
            Some((None, error)) => complaint.say(&[split_path(self.name.as_str()).0], error),
            Some((Some(region), error)) => {
                let mut buffer = Buffer::new();
                let number = buffer.format(region);
                complaint.say(&[self.name.as_str(), ".", number], error);
            }
        }
    }

    /// Removes the files of all regions that live, as far as the file system lets them.
    pub fn remove_all(self) {
        let mut opened = self.opened;
        remove_from(self.files, &mut opened, 0);
    }
}

impl<'a, R: Files> BlockStore for FileStore<'a, R>
where
    R::File: FileExt,
{
    ghost state = { λ m. record {
      asked = asked_of m.log;
      let_go = length m.log.past;
      spare = m.log.spare;
      faults = m.faults;
      slips = m.slips;
      live = λ r. shape_of (get nat_cmp m.regions r);
      tells = false;
      last = λ r p. None;
      lie = None;
      kept = λ r. None;
      gave = take m.given_len m.given;
      disturbed = None;
    } };

    ghost given_up = { λ m. m.given_up };

    ghost keeps_live = { λ m r shape told is. absurd (cc told) };

    ghost keeps_within = { λ m r region is. absurd (cc is) };

    ghost within_asked = { λ m. past_within m.log };

    ghost starts_empty = { λ m r none. fresh_live (asked_of m.log) m.regions m.fresh none r };

    ghost starts_honest = { λ m none. refl };

    ghost starts_steady = { λ m none. record {
      quiet = λ before. absurd before;
      lied = λ lie is. absurd (cc is);
    } };

    fn reserve(&mut self, n: u64) -> Result<(), NoMemory> {
        self.log.reserve(n)
    }

    fn make(&mut self, region: u64, blocks: u32, len: u32) -> Result<(), StoreErr> {
        self.log.push(Access::Make {
            region,
            blocks,
            len,
        });
        let Ok(path) = self.path_of(region) else {
            return Err(StoreErr::NoMemory);
        };
        let file = match make_region(self.files, path.as_str(), self.replaces) {
            Ok(file) => file,
            Err(error) => {
                self.faults = self.faults.saturating_add(1);
                self.trouble = Some((Some(region), error));
                return Err(StoreErr::Failed);
            }
        };
        let opened = Opened {
            path,
            file,
            is_synced: false,
        };
        if let Err(unmade) = self.opened.insert(region, opened) {
            remove(self.files, unmade.value.1);
            return Err(StoreErr::NoMemory);
        }
        let made = Size { blocks, len };
        match self.regions.insert(region, made) {
            Ok(_) => Ok(()),
            Err(_) => {
                if let Some(unmade) = self.opened.remove(&region) {
                    remove(self.files, unmade);
                }
                Err(StoreErr::NoMemory)
            }
        }
    }

    fn read(&mut self, region: u64, place: u32, buf: &mut [u8]) -> Result<(), Failed> {
        self.log.push(Access::Read { region, place });
        let done = match self.opened.get(&region) {
            Some(found) => read(&found.file, place, buf),
            None => Err(given_up()),
        };
        match done {
            Ok(()) => {
                keep(&mut self.given, buf);
                self.given_len = buf.len();
                Ok(())
            }
            Err(error) => {
                self.faults = self.faults.saturating_add(1);
                self.trouble = Some((Some(region), error));
                Err(Failed)
            }
        }
    }

    fn write(&mut self, region: u64, place: u32, block: &[u8]) -> Result<(), Failed> {
        self.log.push(Access::Write { region, place });
        let done = match self.opened.get_mut(&region) {
            Some(found) => {
                found.is_synced = false;
                write(&found.file, place, block)
            }
            None => Err(given_up()),
        };
        match done {
            Ok(()) => Ok(()),
            Err(unwritten) => {
                self.faults = self.faults.saturating_add(1);
                self.trouble = Some((Some(region), unwritten));
                Err(Failed)
            }
        }
    }

    fn discard(&mut self, region: u64) -> Result<(), Failed> {
        self.log.push(Access::Discard { region });
        let _ = self.regions.remove(&region);
        let done = match self.opened.remove(&region) {
            Some(gone) => take_away(self.files, &gone).is_ok(),
            None => false,
        };
        if done {
            Ok(())
        } else {
            self.slips = self.slips.saturating_add(1);
            Err(Failed)
        }
    }

    fn give_up(&mut self, from: u64) {
        remove_from(self.files, &mut self.opened, from);
        self.given_up = Some(GivenUp {
            from,
            asked: self.log.count(),
        });
    }

    fn let_go(&mut self) {
        self.log.let_go();
    }

    fn count(&self) -> u64 {
        self.log.count()
    }

    fn gone(&self) -> u64 {
        self.log.gone()
    }

    fn nth(&self, i: u64) -> Access {
        self.log.nth(i)
    }
}

impl<'a, R: Files> Lasting for FileStore<'a, R>
where
    R::File: FileExt,
{
    fn resume(&mut self, region: u64, blocks: u32, len: u32) -> Result<(), StoreErr> {
        self.log.push(Access::Open {
            region,
            blocks,
            len,
        });
        let Ok(path) = self.path_of(region) else {
            return Err(StoreErr::NoMemory);
        };
        let size = u64::from(blocks) * u64::from(len);
        let file = match reopen(self.files, path.as_str(), size) {
            Ok(file) => file,
            Err(error) => {
                self.faults = self.faults.saturating_add(1);
                self.trouble = Some((Some(region), error));
                return Err(StoreErr::Failed);
            }
        };
        let opened = Opened {
            path,
            file,
            is_synced: true,
        };
        if self.opened.insert(region, opened).is_err() {
            return Err(StoreErr::NoMemory);
        }
        let found = Size { blocks, len };
        match self.regions.insert(region, found) {
            Ok(_) => Ok(()),
            Err(_) => {
                let _ = self.opened.remove(&region);
                Err(StoreErr::NoMemory)
            }
        }
    }
}

impl<'a, R: Files> Saving for FileStore<'a, R>
where
    R::File: FileExt,
{
    fn sync(&mut self) -> Result<(), Failed> {
        match settle_written(self.files, &mut self.opened, self.name.as_str()) {
            Ok(()) => Ok(()),
            Err(trouble) => {
                self.faults = self.faults.saturating_add(1);
                self.trouble = Some(trouble);
                Err(Failed)
            }
        }
    }

    fn is_bare(&mut self) -> Result<bool, Failed> {
        match self.is_empty() {
            Ok(found) => Ok(found),
            Err(error) => {
                self.faults = self.faults.saturating_add(1);
                self.trouble = Some((None, error));
                Err(Failed)
            }
        }
    }

    fn sweep(&mut self) {
        let Ok(mut folder) = self.files.open_dir(split_path(self.name.as_str()).0) else {
            return;
        };
        let mut names = [0; NAMES];
        for _ in 0..u64::MAX {
            match folder.read(&mut names) {
                Ok(0) | Err(_) => return,
                Ok(len) => self.sweep_named(&names[..len]),
            }
        }
    }
}
