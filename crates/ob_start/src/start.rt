//! How a run ends before anything is read, and what is found before it begins.
ghost use Rattle.std.specs.Prelude.{◌≡◌};
ghost use Rattle.std.specs.IoError.{error_kind};
ghost use Rattle.ob_file.specs.Complaints.{SaidOf};
ghost use Rattle.ob_start.specs.Starts.{FindsMark, FindsStore, anew_refusal, failure, keep_refusal, marked_refusal};
ghost use Rattle.ob_start.specs.Starts.{save_refusal, start_line, start_status, unmarked_refusal};
ghost use Rattle.ob_start.specs.declared.start.StartErr.TheVariants.{NoMemory as WantsMemory};

use ob_base::NoMemory;
use ob_file::{Complaint, Names};
use ob_mark::{NotId, held_of, id_of};
use std::io::{Error, ErrorKind};

/// Why a run ends before anything is read.
#[derive(Clone, Copy, Debug, PartialEq, Eq)]
pub enum StartErr {
    /// The words are none that the program takes.
    Usage,
    /// The tables of the store are kept or saved, and this run wouldn't keep its own.
    Kept,
    /// Memory ran out.
    NoMemory,
    /// Another run is at work at the same mark, or in the same store.
    AtWork,
    /// There are regions of the store, and no mark.
    NoMark,
    /// The folder isn't that of a store.
    NoStore,
    /// The mark is that of another store.
    OtherStore,
    /// The store's files have another form.
    Version,
    /// The file system failed, or something isn't what it should be.
    Failed,
}

impl StartErr {
    /// The exit status.
    pub fn status(self) -> u8
        ensures { result ≡ start_status self }
    {
        match self {
            StartErr::Usage | StartErr::Kept => 2,
            StartErr::NoMemory => 7,
            StartErr::AtWork
            | StartErr::NoMark
            | StartErr::NoStore
            | StartErr::OtherStore
            | StartErr::Version => 9,
            StartErr::Failed => 10,
        }
    }

    /// The last line.
    pub fn line(self) -> &'static str
        ensures { result.now ≡ start_line self }
    {
        match self {
            StartErr::Usage => "! usage\n",
            StartErr::Kept => "! kept\n",
            StartErr::NoMemory => "! no memory\n",
            StartErr::AtWork => "! not closed\n",
            StartErr::NoMark => "! no mark\n",
            StartErr::NoStore => "! no store\n",
            StartErr::OtherStore => "! other store\n",
            StartErr::Version => "! version\n",
            StartErr::Failed => "! keeper fault\n",
        }
    }

    // What isn't right, in words.
    fn reason(self) -> &'static str {
        match self {
            StartErr::Usage => "the words are none",
            StartErr::Kept =>
                "something lies there that a run without --save or --keep isn't to change",
            StartErr::NoMemory => "out of memory",
            StartErr::AtWork => "another run is at work",
            StartErr::NoMark => "the mark isn't there, and the store has tables",
            StartErr::NoStore => "it isn't a folder that a run with --save made",
            StartErr::OtherStore => "it is the mark of another store",
            StartErr::Version => "its files have another form than form 1, which this program has",
            StartErr::Failed => "it isn't as it should be",
        }
    }
}

impl From<NoMemory> for StartErr {
    ghost from_gives = { λ _ error. error ≡ WantsMemory };

    fn from(_error: NoMemory) -> StartErr {
        StartErr::NoMemory
    }
}

/// Says of a place why a run ends by it.
pub(crate) fn refuse(said: &mut Complaint, place: &str, error: StartErr) -> StartErr
    ensures error { result ≡ error }
    ensures place { SaidOf place.now said.new }
{
    said.say(&[place], Error::other(error.reason()));
    error
}

/// Says of a place that a call failed there.
pub(crate) fn fail(said: &mut Complaint, place: &str, error: Error) -> StartErr
    ensures error { result ≡ failure (error_kind error) }
    ensures place { SaidOf place.now said.new }
{
    said.say(&[place], error);
    if error.kind() == ErrorKind::OutOfMemory {
        StartErr::NoMemory
    } else {
        StartErr::Failed
    }
}

/// What has the name of a store.
#[derive(Clone, Copy, Debug, PartialEq, Eq)]
pub enum FoundStore {
    /// Nothing has it.
    Nothing,
    /// What has it is no folder.
    NoFolder,
    /// A folder that has no identity, and nothing except what a first run makes before it.
    Bare,
    /// A folder that has none, and something else.
    Foreign,
    /// A folder whose files have another form.
    OtherVersion,
    /// A store with this identity, which has a region, or hasn't.
    Store { id: [u8; 16], regions: bool },
}

/// What lies where the mark of a store is to lie.
#[derive(Clone, Copy, Debug, PartialEq, Eq)]
pub enum FoundMark {
    Nothing,
    /// What lies there is no mark that goes with one store.
    Other,
    /// The mark of the store with this identity.
    Of([u8; 16]),
}

/// What has the name of the file that runs hold whose tables are neither kept nor saved.
#[derive(Clone, Copy, Debug, PartialEq, Eq)]
pub enum FoundScratch {
    Nothing,
    /// What isn't an empty file.
    Other,
    /// A file as such a run makes it.
    Left,
}

/// What has the name of a store where it is a folder of these names, with this text as its identity; where there is none,
/// without a text.
pub(crate) fn store_found(text: &[u8], names: Names) -> FoundStore
    ensures { FindsStore text.now names.others names.regions result }
{
    if text.is_empty() {
        return if names.others {
            FoundStore::Foreign
        } else {
            FoundStore::Bare
        };
    }
    match id_of(text) {
        Ok(id) => FoundStore::Store {
            id,
            regions: names.regions,
        },
        Err(NotId::OtherVersion) => FoundStore::OtherVersion,
        Err(NotId::Malformed) => FoundStore::Foreign,
    }
}

/// What a file of this text is that lies at the place of a mark; where there is none, without a text.
pub(crate) fn mark_found(text: &[u8]) -> FoundMark
    ensures { FindsMark text.now result }
{
    if text.is_empty() {
        return FoundMark::Nothing;
    }
    match held_of(text) {
        Some(held) => match held.id {
            Some(id) => FoundMark::Of(id),
            None => FoundMark::Other,
        },
        None => FoundMark::Other,
    }
}

// Why a run may not save its tables in a store without a mark.
fn unmarked_refusal(store: FoundStore) -> Option<StartErr>
    ensures { result ≡ unmarked_refusal store }
{
    match store {
        FoundStore::Nothing | FoundStore::Bare => None,
        FoundStore::NoFolder | FoundStore::Foreign => Some(StartErr::NoStore),
        FoundStore::OtherVersion => Some(StartErr::Version),
        FoundStore::Store { regions, .. } => {
            if regions {
                Some(StartErr::NoMark)
            } else {
                None
            }
        }
    }
}

// Why it may not go on from the mark of the store with this identity.
fn marked_refusal(store: FoundStore, of: [u8; 16]) -> Option<StartErr>
    ensures { result ≡ marked_refusal store of }
{
    match store {
        FoundStore::Nothing | FoundStore::Bare | FoundStore::NoFolder | FoundStore::Foreign => Some(
            StartErr::NoStore,
        ),
        FoundStore::OtherVersion => Some(StartErr::Version),
        FoundStore::Store { id, .. } => {
            if id == of {
                None
            } else {
                Some(StartErr::OtherStore)
            }
        }
    }
}

/// Why a run may not save its tables in this store by this mark, if it may not.
pub fn save_refusal(store: FoundStore, mark: FoundMark) -> Option<StartErr>
    ensures { result ≡ save_refusal store mark }
{
    match mark {
        FoundMark::Nothing => unmarked_refusal(store),
        FoundMark::Of(of) => marked_refusal(store, of),
        FoundMark::Other => match store {
            FoundStore::OtherVersion => Some(StartErr::Version),
            _ => Some(StartErr::Failed),
        },
    }
}

/// Why a run may not keep its tables, if it may not: where there are regions, there has to be a mark.
pub fn keep_refusal(has_mark: bool, has_regions: bool) -> Option<StartErr>
    ensures { result ≡ keep_refusal has_mark has_regions }
{
    if has_regions && !has_mark {
        Some(StartErr::NoMark)
    } else {
        None
    }
}

/// Why a run may not begin whose tables are neither kept nor saved, if it may not: where there is a mark or an identity,
/// or where what has the names of its files isn't what such a run left.
pub fn anew_refusal(is_saved: bool, scratch: FoundScratch, has_regions: bool) -> Option<StartErr>
    ensures { result ≡ anew_refusal is_saved scratch has_regions }
{
    let is_left = match scratch {
        FoundScratch::Nothing => !has_regions,
        FoundScratch::Other => false,
        FoundScratch::Left => true,
    };
    if is_left && !is_saved {
        None
    } else {
        Some(StartErr::Kept)
    }
}
