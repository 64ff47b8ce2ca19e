//! What a run begins with.
use ob_file::Complaint;
use ob_help::wrong_word;
use ob_start::{
    KeptStore, SavedStore, Scratch, StartErr, begin_kept, begin_saved, begin_scratch, follow,
    mark_beside, may_be_named, regions_in, unslashed,
};
use ob_words::{SavedWords, WordsErr, mark_place, read_saved_words, store_name};
use std::env;
use std::fs::{File, OpenFile};
use std::io::{Error, ErrorKind};
use std::random::RandomSource;
use std::rt::{Env, Files};

/// What a run holds until it ends: by it other runs are kept away.
#[derive(Drop)]
pub enum Holds {
    Saved(SavedStore),
    Kept(KeptStore),
    Scratch(Scratch),
}

/// How the names of the regions' files begin, twice; the place of the mark; the identity of the store, where it has one; the
/// rows of a block; whether a region's file takes the place of what has its name; and what the run holds.
#[derive(Drop)]
pub struct Begun {
    pub name: String,
    pub kept: String,
    pub place: String,
    pub id: Option<[u8; 16]>,
    pub pack: u8,
    pub replaces: bool,
    pub holds: Holds,
}

/// Takes the descriptors of the standard streams that are closed: else a file of the store would get one of them, and
/// answers would be written there. What is opened can be read, but not be written.
pub fn hold_streams<R: Files<File = File>>(rt: &R) -> Result<(File, File, File), Error> {
    Ok((
        File::open(rt, "/")?,
        File::open(rt, "/")?,
        File::open(rt, "/")?,
    ))
}

/// The words of the command line, without the program's name.
pub fn words<R: Env + AllocGlobal>(rt: &R, said: &mut Complaint) -> Result<Vec<String>, StartErr> {
    let given = match env::args(rt) {
        Ok(given) => given,
        Err(error) if error.kind() == ErrorKind::InvalidData => {
            said.say(&["a word"], Error::other("it is no UTF-8"));
            return Err(StartErr::Usage);
        }
        Err(_) => return Err(StartErr::NoMemory),
    };
    let mut words = Vec::new(rt.alloc());
    for word in given.skip(1) {
        if words.push(word).is_err() {
            return Err(StartErr::NoMemory);
        }
    }
    Ok(words)
}

// What the words say; and where they are none, which of them isn't right.
fn read_words<R: AllocGlobal>(
    rt: &R,
    words: &[String],
    said: &mut Complaint,
) -> Result<SavedWords, StartErr> {
    match read_saved_words(rt.alloc(), words) {
        Ok(words) => Ok(words),
        Err(WordsErr::NoMemory) => Err(StartErr::NoMemory),
        Err(WordsErr::Usage) => {
            let wrong = wrong_word(rt.alloc(), words)?;
            said.say(&[wrong.word.as_str()], Error::other(wrong.reason.as_str()));
            Err(StartErr::Usage)
        }
    }
}

// A text of its own.
fn copied<R: AllocGlobal>(rt: &R, text: &str) -> Result<String, StartErr> {
    match String::from_str(rt.alloc(), text) {
        Ok(copy) => Ok(copy),
        Err(_) => Err(StartErr::NoMemory),
    }
}

// Where the mark lies: where the words say, and else beside the store, or where the link points that is there.
fn place_of<R: Files + AllocGlobal>(
    rt: &R,
    words: &[String],
    name: &str,
    said: &mut Complaint,
) -> Result<String, StartErr> {
    match mark_place(rt.alloc(), words)? {
        Some(place) => Ok(place),
        None => follow(rt.alloc(), rt, mark_beside(rt.alloc(), name)?, said),
    }
}

// A run that saves its tables, in a folder.
fn save<R: Files<File = File> + AllocGlobal + RandomSource>(
    rt: &R,
    words: &[String],
    read: &SavedWords,
    name: &str,
    said: &mut Complaint,
) -> Result<Begun, StartErr> {
    let place = place_of(rt, words, name, said)?;
    let regions = regions_in(rt.alloc(), name)?;
    let kept = copied(rt, regions.as_str())?;
    let held = begin_saved(rt.alloc(), rt, name, place.as_str(), said)?;
    Ok(Begun {
        name: regions,
        kept,
        place,
        id: Some(held.id),
        pack: read.common.config.pack,
        replaces: false,
        holds: Holds::Saved(held),
    })
}

// A run that keeps its tables, in files.
fn keep<R: Files<File = File> + AllocGlobal>(
    rt: &R,
    words: &[String],
    read: &SavedWords,
    name: &str,
    said: &mut Complaint,
) -> Result<Begun, StartErr> {
    let place = place_of(rt, words, name, said)?;
    let regions = copied(rt, name)?;
    let kept = copied(rt, name)?;
    let held = begin_kept(rt.alloc(), rt, name, place.as_str(), said)?;
    Ok(Begun {
        name: regions,
        kept,
        place,
        id: None,
        pack: read.common.config.pack,
        replaces: true,
        holds: Holds::Kept(held),
    })
}

// A run whose tables are gone at its end.
fn begin_anew<R: Files<File = File> + AllocGlobal>(
    rt: &R,
    read: &SavedWords,
    name: &str,
    said: &mut Complaint,
) -> Result<Begun, StartErr> {
    let place = mark_beside(rt.alloc(), name)?;
    let regions = copied(rt, name)?;
    let kept = copied(rt, name)?;
    let held = begin_scratch(rt.alloc(), rt, name, said)?;
    Ok(Begun {
        name: regions,
        kept,
        place,
        id: None,
        pack: read.common.config.pack,
        replaces: false,
        holds: Holds::Scratch(held),
    })
}

/// Reads the words, and looks whether a run may begin that they ask for: what it makes then is empty, or the folder of a
/// store that has no tables.
pub fn begin<R: Files<File = File> + AllocGlobal + RandomSource>(
    rt: &R,
    words: &[String],
    said: &mut Complaint,
) -> Result<Begun, StartErr> {
    let read = read_words(rt, words, said)?;
    let given = store_name(rt.alloc(), words)?;
    let name = unslashed(given.as_str());
    may_be_named(name, said)?;
    if read.save {
        save(rt, words, &read, name, said)
    } else if read.keep {
        keep(rt, words, &read, name, said)
    } else {
        begin_anew(rt, &read, name, said)
    }
}
