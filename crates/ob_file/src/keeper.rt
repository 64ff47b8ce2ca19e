//! The mark of a store, in a file.
ghost use Rattle.std.specs.Prelude.{◌≡◌, [], Err, IfOk, MatchResult, None, Ok, OnOk, length, vec_items};
ghost use Rattle.ob_reopen.specs.Keepers.{AreSaltBytes, GivesMark, IsMark, SetsMark};
ghost use Rattle.ob_reopen.specs.declared.mark.Mark.{Mark as HeldMark};
ghost use Rattle.ob_mark.specs.Marks.{held_text};
ghost use Rattle.ob_file.specs.Keeping.{FileKept, Stands, left_text, untold};

use crate::complaint::Complaint;
use crate::folder::{RegionFiles, settle, split_path};
use crate::region::clear;
use crate::text::{LONG, read_text, rename, write_text};
use ob_base::{Failed, NoMemory};
use ob_mark::{Held, goes_with, held_of, spell_held};
use ob_reopen::{Keeper, Mark, Salts};
use std::alloc::Global;
use std::io;
use std::io::{Error, ErrorKind};
use std::marker::Model;
use std::mem::swap;
use std::random::RandomSource;
use std::rt::Files;

/// What a call of a keeper failed at.
#[derive(Clone, Copy)]
enum Part {
    Mark,
    Beside,
    Folder,
    Regions,
    Random,
}

/// What keeps the mark of a store in a file. Which mark it holds is not told: others may change the file at any time.
///
/// No file is a fresh mark, else it is one line, and a second one that names the store where it has an identity. A new text
/// is written beside, as `PLACE.next`, and takes the file's place once it is on the disk, if the file is still as this
/// keeper found or left it, and then has this text; before it says that a run was closed, all files of the store are on the
/// disk. Before it says that tables were saved the store has seen to that. No link is followed.
/// Each error of a file, what isn't a file, a file that others may write, one that spells no mark, and the mark of another
/// store is `Failed`.
#[derive(Drop)]
pub struct FileKeeper<'a, R: Files> {
    files: &'a R,
    regions: RegionFiles<'a, R>,
    folder: String,
    path: String,
    beside: String,
    id: Option<[u8; 16]>,
    // what the file had when it was read last, or written
    left: Vec<u8>,
    // what it has when it is looked at again
    seen: Vec<u8>,
    text: Vec<u8>,
    faults: u64,
    trouble: Option<(Part, Error)>,
    // the mark that was told last
    told: Option<Mark>,
    // the salt that was drawn last
    drawn: Option<[u8; 16]>,
}

impl<'a, R: Files> Model for FileKeeper<'a, R> {
    ghost Value = { FileKept };

    ghost view = { λ k. record {
      id = k.id;
      left = vec_items k.left;
      faults = k.faults;
      drawn = k.drawn;
    } };
}

// A salt of these bytes.
fn salt_of(bytes: &[u8]) -> [u8; 16]
    requires { length bytes.now ≡ 16 }
    ensures bytes { result ≡ bytes.now }
    ensures within { AreSaltBytes result }
{
    let mut salt = [0; 16];
    salt.copy_from_slice(bytes);
    salt
}

/// Random bytes of the operating system.
pub fn drawn<R: RandomSource>(source: &R) -> io::Result<[u8; 16]>
    ensures { IfOk result AreSaltBytes }
{
    let mut bytes = [0; 16];
    source.fill_bytes(&mut bytes)?;
    Ok(salt_of(&bytes))
}

// The path beside a mark's at which a new text is written.
fn with_next(alloc: Global, path: &str) -> Result<String, NoMemory> {
    match format!(in alloc; "{}.next", path) {
        Ok(beside) => Ok(beside),
        Err(_) => Err(NoMemory),
    }
}

// Room for the text of a mark.
fn text_room(alloc: Global) -> Result<Vec<u8>, NoMemory>
    ensures { IfOk result (λ text. vec_items text ≡ []) }
{
    match Vec::with_capacity(alloc, LONG) {
        Ok(text) => Ok(text),
        Err(_) => Err(NoMemory),
    }
}

// What a call of a part answers.
fn at<T>(part: Part, given: io::Result<T>) -> Result<T, (Part, Error)>
    ensures { MatchResult given (λ value. result ≡ Ok value) (λ e. result ≡ Err (part, e)) }
{
    match given {
        Ok(value) => Ok(value),
        Err(error) => Err((part, error)),
    }
}

// The mark that a text has which was read of its file, where the store has this identity.
fn mark_in(text: &[u8], id: Option<[u8; 16]>) -> io::Result<Mark>
    ensures within { IfOk result IsMark }
    ensures spelt { IfOk result (Stands text.now id) }
    ensures read { (mark : HeldMark) → Stands text.now id mark → result ≡ Ok mark }
{
    if text.is_empty() {
        return Ok(Mark::Fresh);
    }
    match held_of(text) {
        None => Err(Error::other("it is no mark of this version")),
        Some(held) => {
            if goes_with(&held, id) {
                Ok(held.mark)
            } else {
                Err(Error::other("it is the mark of another store"))
            }
        }
    }
}

// Looks whether a text is as it was left.
fn compare(text: &[u8], left: &[u8]) -> io::Result<()>
    ensures same { OnOk result (text.now ≡ left.now) }
    ensures ok { text.now ≡ left.now → result ≡ Ok tt }
{
    if text == left {
        Ok(())
    } else {
        Err(Error::other("another run has changed it"))
    }
}

// Looks whether a file has what was left in it.
fn check<R: Files>(files: &R, path: &str, seen: &mut Vec<u8>, left: &[u8]) -> io::Result<()>
    ensures { OnOk result (vec_items seen.new ≡ left.now) }
{
    read_text(files, path, seen)?;
    compare(seen.as_slice(), left)
}

// Makes a text that of a mark.
fn put_held(text: &mut Vec<u8>, held: &Held) -> io::Result<()>
    ensures { OnOk result (vec_items text.new ≡ held_text held.now) }
{
    text.clear();
    match spell_held(text, held) {
        Ok(()) => Ok(()),
        Err(_) => Err(Error::from(ErrorKind::OutOfMemory)),
    }
}

impl<'a, R: Files> FileKeeper<'a, R> {
    /// The keeper of a store whose regions' files have names that begin with this one and a dot, with its mark in the file
    /// of this path. The mark names the store where it has an identity. It takes all its memory of `alloc` here.
    pub fn new(
        alloc: Global,
        files: &'a R,
        name: String,
        path: String,
        id: Option<[u8; 16]>,
    ) -> Result<FileKeeper<'a, R>, NoMemory>
        ensures { IfOk result (λ k.
            k ≡ record { id = id; left = []; faults = 0; drawn = None }) }
    {
        let regions = RegionFiles::new(alloc, files, name)?;
        let Ok(folder) = String::from_str(alloc, split_path(path.as_str()).0) else {
            return Err(NoMemory);
        };
        let beside = with_next(alloc, path.as_str())?;
        let left = text_room(alloc)?;
        let seen = text_room(alloc)?;
        let text = text_room(alloc)?;
        Ok(FileKeeper {
            files,
            regions,
            folder,
            path,
            beside,
            id,
            left,
            seen,
            text,
            faults: 0,
            trouble: None,
            told: None,
            drawn: None,
        })
    }

    /// Says what the last call failed at that did.
    pub fn complain(&self, complaint: &mut Complaint) {
        if let Some((part, error)) = self.trouble {
            let place = match part {
                Part::Mark => self.path.as_str(),
                Part::Beside => self.beside.as_str(),
                Part::Folder => self.folder.as_str(),
                Part::Regions => self.regions.name(),
                Part::Random => "the system's random source",
            };
            complaint.say(&[place], error);
        }
    }

    /// Says why a run doesn't go on whose blocks have so many rows, by the mark that it found; where it asked for none, its
    /// secret is none.
    pub fn explain(&self, pack: u8, complaint: &mut Complaint) {
        let place = self.path.as_str();
        let reason = match self.told {
            None => {
                let reason = Error::other(
                    "the first line is no secret, which is 64 hexadecimal digits",
                );
                return complaint.say(&["the input"], reason);
            }
            Some(Mark::InUse) => "a run with --keep is at work, or was not closed",
            Some(Mark::Fresh) => "the mark isn't there, and the store has tables",
            Some(Mark::Begun) => "its tables are saved: --save goes on with them",
            Some(Mark::Saved { .. }) if self.id.is_none() => {
                "its tables are saved: --save goes on with them"
            }
            Some(Mark::Closed { pack: held, .. } | Mark::Saved { pack: held, .. }) => {
                if pack == held {
                    "its tables were saved under another secret"
                } else {
                    "its tables have another number of rows in a block: see --pack"
                }
            }
        };
        complaint.say(&[place], Error::other(reason));
    }

    // The mark that the file spells. What is done by a mark is not to outlive it: a run that was killed may have left its
    // name in memory alone.
    fn held(&mut self) -> Result<Mark, (Part, Error)>
        ensures within { IfOk result IsMark }
        ensures spelt { IfOk result (Stands self.new.left self.new.id) }
        ensures id { self.new.id ≡ self.old.id }
        ensures faults { self.new.faults ≡ self.old.faults }
        ensures drawn { self.new.drawn ≡ self.old.drawn }
    {
        at(Part::Folder, settle(self.files, self.folder.as_str()))?;
        at(
            Part::Mark,
            read_text(self.files, self.path.as_str(), &mut self.left),
        )?;
        at(Part::Mark, mark_in(&self.left, self.id))
    }

    // Puts a text in the place of the file's, if that is as it was left, and looks whether it is there: where two runs do so
    // at once, what lies beside is that of the last one.
    fn replace(&mut self, mark: &Mark) -> Result<(), (Part, Error)>
        ensures left { OnOk result
            (self.new.left ≡ held_text (record { mark = mark.now; id = self.old.id })) }
        ensures id { self.new.id ≡ self.old.id }
        ensures faults { self.new.faults ≡ self.old.faults }
        ensures drawn { self.new.drawn ≡ self.old.drawn }
    {
        at(
            Part::Mark,
            check(self.files, self.path.as_str(), &mut self.seen, &self.left),
        )?;
        let held = Held {
            mark: *mark,
            id: self.id,
        };
        at(Part::Beside, put_held(&mut self.text, &held))?;
        at(
            Part::Beside,
            write_text(self.files, self.beside.as_str(), &self.text),
        )?;
        at(
            Part::Mark,
            check(self.files, self.path.as_str(), &mut self.seen, &self.left),
        )?;
        at(
            Part::Mark,
            rename(self.files, self.beside.as_str(), self.path.as_str()),
        )?;
        swap(&mut self.left, &mut self.text);
        at(
            Part::Mark,
            check(self.files, self.path.as_str(), &mut self.seen, &self.left),
        )?;
        at(Part::Folder, settle(self.files, self.folder.as_str()))
    }

    // Takes the file away, if there is one.
    fn remove(&mut self) -> Result<(), (Part, Error)>
        ensures left { OnOk result (self.new.left ≡ []) }
        ensures id { self.new.id ≡ self.old.id }
        ensures faults { self.new.faults ≡ self.old.faults }
        ensures drawn { self.new.drawn ≡ self.old.drawn }
    {
        at(
            Part::Mark,
            check(self.files, self.path.as_str(), &mut self.seen, &self.left),
        )?;
        at(Part::Mark, clear(self.files, self.path.as_str()))?;
        self.left.clear();
        at(Part::Folder, settle(self.files, self.folder.as_str()))
    }

    // Holds another mark from now on.
    fn hold(&mut self, mark: &Mark) -> Result<(), (Part, Error)>
        ensures left { OnOk result (self.new.left ≡ left_text mark.now self.old.id) }
        ensures id { self.new.id ≡ self.old.id }
        ensures faults { self.new.faults ≡ self.old.faults }
        ensures drawn { self.new.drawn ≡ self.old.drawn }
    {
        match mark {
            Mark::Fresh => self.remove(),
            Mark::InUse | Mark::Begun | Mark::Saved { .. } => self.replace(mark),
            Mark::Closed { .. } => {
                at(Part::Regions, self.regions.settle_all())?;
                self.replace(mark)
            }
        }
    }
}

impl<'a, R: Files> Keeper for FileKeeper<'a, R> {
    ghost state = { untold };

    fn mark(&mut self) -> Result<Mark, Failed>
        ensures gives { GivesMark result (untold self.old) (untold self.new) }
        ensures spelt { IfOk result (Stands self.new.left self.new.id) }
        ensures id { self.new.id ≡ self.old.id }
    {
        match self.held() {
            Ok(mark) => {
                self.told = Some(mark);
                Ok(mark)
            }
            Err(unread) => {
                self.faults = self.faults.saturating_add(1);
                self.trouble = Some(unread);
                Err(Failed)
            }
        }
    }

    fn set(&mut self, mark: &Mark) -> Result<(), Failed>
        ensures sets { SetsMark mark.now result (untold self.old) (untold self.new) }
        ensures left { OnOk result (self.new.left ≡ left_text mark.now self.old.id) }
        ensures id { self.new.id ≡ self.old.id }
    {
        match self.hold(mark) {
            Ok(()) => Ok(()),
            Err(unset) => {
                self.faults = self.faults.saturating_add(1);
                self.trouble = Some(unset);
                Err(Failed)
            }
        }
    }
}

/// Salts are random bytes of the operating system.
impl<'a, R: Files + RandomSource> Salts for FileKeeper<'a, R> {
    fn salt(&mut self) -> Result<[u8; 16], Failed> {
        match drawn(self.files) {
            Ok(salt) => {
                self.drawn = Some(salt);
                Ok(salt)
            }
            Err(error) => {
                self.faults = self.faults.saturating_add(1);
                self.trouble = Some((Part::Random, error));
                Err(Failed)
            }
        }
    }
}
