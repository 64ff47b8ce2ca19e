//! The folder of a store, and how a run begins that saves its tables in it.
ghost use Rattle.std.specs.Prelude.{◌≡◌, ℕ, Bool, List, IfOk, None, Ok, true, false};
ghost use Rattle.ob_start.specs.Places.{is_inside, may_be_named};
ghost use Rattle.ob_start.specs.Starts.{save_refusal};
ghost use Rattle.ob_start.specs.declared.start.FoundMark.{FoundMark as LiesThere};
ghost use Rattle.ob_start.specs.declared.start.FoundStore.TheVariants.{Store as IsStore};

use crate::locks::lock;
use crate::place::{lies_apart, may_be_placed, with_ending};
use crate::start::{
    FoundMark, FoundStore, StartErr, fail, mark_found, refuse, save_refusal, store_found,
};
use ob_base::NoMemory;
use ob_file::{
    Complaint, LONG, drawn, names_in, read_text, rename, settle, split_path, write_text,
};
use ob_mark::spell_id;
use std::alloc::Global;
use std::fs::{DirBuilder, File, symlink_metadata};
use std::io;
use std::io::{Error, ErrorKind};
use std::os::unix::fs::DirBuilderExt;
use std::random::RandomSource;
use std::rt::Files;

/// The mode of the folder that is made: it is its user's alone.
const MODE: u32 = 0o700;

/// What a run holds that saves its tables: the identity of its store, and what keeps other runs away from its mark, and
/// from the store.
#[derive(Drop)]
pub struct SavedStore {
    pub id: [u8; 16],
    pub mark: File,
    pub store: File,
}

/// The paths of a store's folder, with a slash after it and without, of what lies in it beside the regions, and of its
/// mark; and the text that was read of one of them.
#[derive(Drop)]
struct Folder {
    name: String,
    inside: String,
    lock: String,
    id: String,
    next: String,
    place: String,
    text: Vec<u8>,
}

impl Folder {
    fn new(alloc: Global, name: &str, place: &str) -> Result<Folder, NoMemory> {
        let Ok(text) = Vec::with_capacity(alloc, LONG) else {
            return Err(NoMemory);
        };
        Ok(Folder {
            name: with_ending(alloc, name, "")?,
            inside: with_ending(alloc, name, "/")?,
            lock: with_ending(alloc, name, "/lock")?,
            id: with_ending(alloc, name, "/id")?,
            next: with_ending(alloc, name, "/id.next")?,
            place: with_ending(alloc, place, "")?,
            text,
        })
    }

    // What is in a folder without an identity, or with this text as one.
    fn inner<R: Files>(&self, files: &R) -> io::Result<FoundStore> {
        let names = names_in(files, self.inside.as_str(), "r")?;
        Ok(store_found(&self.text, names))
    }

    // What has the name of the store.
    fn found<R: Files>(&mut self, files: &R, said: &mut Complaint) -> Result<FoundStore, StartErr> {
        match symlink_metadata(files, self.name.as_str()) {
            Ok(found) if found.is_dir() => {}
            Ok(_) => return Ok(FoundStore::NoFolder),
            Err(error) if error.kind() == ErrorKind::NotFound => return Ok(FoundStore::Nothing),
            Err(error) => return Err(fail(said, self.name.as_str(), error)),
        }
        if let Err(error) = read_text(files, self.id.as_str(), &mut self.text) {
            return Err(fail(said, self.id.as_str(), error));
        }
        match self.inner(files) {
            Ok(found) => Ok(found),
            Err(error) => Err(fail(said, self.name.as_str(), error)),
        }
    }

    // What lies at the place of the mark.
    fn found_mark<R: Files>(
        &mut self,
        files: &R,
        said: &mut Complaint,
    ) -> Result<FoundMark, StartErr> {
        if let Err(error) = read_text(files, self.place.as_str(), &mut self.text) {
            return Err(fail(said, self.place.as_str(), error));
        }
        Ok(mark_found(&self.text))
    }

    // Says why a run may not save its tables here.
    fn refused(&self, error: StartErr, said: &mut Complaint) -> StartErr
        ensures { result ≡ error }
    {
        match error {
            StartErr::Failed if is_one_line(&self.text) => {
                let reason = Error::other("it has one line: it is of an older form, or of --keep");
                fail(said, self.place.as_str(), reason)
            }
            StartErr::Failed => {
                let reason = Error::other("it is no mark of this version");
                fail(said, self.place.as_str(), reason)
            }
            StartErr::Version => refuse(said, self.id.as_str(), error),
            StartErr::OtherStore | StartErr::NoMark => refuse(said, self.place.as_str(), error),
            _ => refuse(said, self.name.as_str(), error),
        }
    }

    // Looks whether a run may save its tables here, and what it finds.
    fn look<R: Files>(&mut self, files: &R, said: &mut Complaint) -> Result<FoundStore, StartErr>
        ensures { IfOk result (λ store. (mark : LiesThere) × (save_refusal store mark ≡ None)) }
    {
        let store = self.found(files, said)?;
        let mark = self.found_mark(files, said)?;
        match save_refusal(store, mark) {
            None => Ok(store),
            Some(error) => Err(self.refused(error, said)),
        }
    }

    // Makes the folder, where nothing has its name.
    fn make<R: Files>(&self, files: &R, said: &mut Complaint) -> Result<(), StartErr> {
        match DirBuilder::new()
            .mode(MODE)
            .create(files, self.name.as_str())
        {
            Ok(()) => Ok(()),
            Err(error) if error.kind() == ErrorKind::AlreadyExists => Ok(()),
            Err(error) => Err(fail(said, self.name.as_str(), error)),
        }
    }

    // Keeps other runs away from the store. Nothing is made in a folder that isn't one's.
    fn hold<R: Files<File = File>>(
        &mut self,
        files: &R,
        said: &mut Complaint,
    ) -> Result<File, StartErr> {
        match symlink_metadata(files, self.lock.as_str()) {
            Ok(_) => {}
            Err(_) => {
                if self.look(files, said)? == FoundStore::Nothing {
                    self.make(files, said)?;
                }
            }
        }
        lock(files, self.lock.as_str(), said)
    }

    // Writes an identity, which is whole on the disk before it has its name.
    fn write_id<R: Files>(&mut self, files: &R, id: &[u8; 16]) -> io::Result<()> {
        self.text.clear();
        if spell_id(&mut self.text, id).is_err() {
            return Err(Error::from(ErrorKind::OutOfMemory));
        }
        write_text(files, self.next.as_str(), &self.text)?;
        rename(files, self.next.as_str(), self.id.as_str())
    }

    // The identity of the store, which gets one where it has none.
    fn identity<R: Files + RandomSource>(
        &mut self,
        files: &R,
        found: FoundStore,
        said: &mut Complaint,
    ) -> Result<[u8; 16], StartErr>
        ensures { (id : List ℕ) (regions : Bool) → found ≡ IsStore id regions → result ≡ Ok id }
    {
        if let FoundStore::Store { id, .. } = found {
            return Ok(id);
        }
        let id = match drawn(files) {
            Ok(id) => id,
            Err(error) => return Err(fail(said, "the system's random source", error)),
        };
        match self.write_id(files, &id) {
            Ok(()) => Ok(id),
            Err(error) => Err(fail(said, self.id.as_str(), error)),
        }
    }

    // Waits until the names of the folder and of what is in it are on the disk: no mark is to outlive them, and a run that
    // was killed may have left them in memory alone.
    fn settle<R: Files>(&self, files: &R, said: &mut Complaint) -> Result<(), StartErr> {
        for folder in [self.inside.as_str(), split_path(self.name.as_str()).0] {
            if let Err(error) = settle(files, folder) {
                return Err(fail(said, folder, error));
            }
        }
        Ok(())
    }
}

// Whether a text is one line.
fn is_one_line(text: &[u8]) -> bool {
    match text.strip_suffix(b"\n") {
        Some(line) => !line.contains(&b'\n'),
        None => false,
    }
}

/// Looks whether a run may begin that saves its tables in the folder with this name by the mark at this place, keeps other
/// runs away, and makes the folder and its identity where there are none. Where it may not, nothing is changed, but that
/// locks are made.
pub fn begin_saved<R: Files<File = File> + RandomSource>(
    alloc: Global,
    files: &R,
    name: &str,
    place: &str,
    said: &mut Complaint,
) -> Result<SavedStore, StartErr>
    ensures named { IfOk result (λ _. may_be_named place.now ≡ true) }
    ensures apart { IfOk result (λ _. is_inside place.now name.now ≡ false) }
{
    may_be_placed(place, said)?;
    lies_apart(alloc, files, name, place, said)?;
    let path = with_ending(alloc, place, ".lock")?;
    let mut folder = Folder::new(alloc, name, place)?;
    let mark = lock(files, path.as_str(), said)?;
    let store = folder.hold(files, said)?;
    let found = folder.look(files, said)?;
    let id = folder.identity(files, found, said)?;
    folder.settle(files, said)?;
    Ok(SavedStore { id, mark, store })
}
