//! Runs over one store, each over what the one before it left.
ghost use Rattle.std.specs.Prelude.{◌≡◌, []};

use crate::bytes::parted;
use crate::calls::run;
use crate::changes;
use ob_meddle::{Act, Meddle, MeddledStore};
use ob_store::{BlockStore, MemStore};
use std::alloc::{AllocError, Global};

/// The most runs of a line.
const MOST: u32 = 8;

/// Asks the calls of runs, parted by `|`, of a store in memory.
pub fn in_memory(
    mut store: MemStore,
    text: &str,
    most: u32,
    out: &mut String,
) -> Result<(), AllocError>
    requires { (⟦<MemStore as BlockStore>⟧.state store).asked ≡ [] }
{
    let (calls, rest) = text.split_once(" | ").unwrap_or((text, ""));
    match run(&mut store, calls, out) {
        Err(error) => Err(error),
        Ok(()) if rest.is_empty() || most == 0 => Ok(()),
        Ok(()) => match out.push_str(" |") {
            Err(error) => Err(error),
            Ok(()) => in_memory(store.rest(), rest, most - 1, out),
        },
    }
}

// The changes that a word spells, of which `-` stands for none.
fn changes_of(alloc: Global, word: &str) -> Result<Vec<Meddle>, AllocError> {
    match word {
        "-" => Ok(Vec::new(alloc)),
        _ => match changes::listed(alloc, word)? {
            Some(list) => Ok(list),
            None => Err(AllocError),
        },
    }
}

// Those of the next run, whose answers stand after a `|`.
fn next_changes(alloc: Global, word: &str, out: &mut String) -> Result<Vec<Meddle>, AllocError> {
    out.push_str(" |")?;
    changes_of(alloc, word)
}

// The same of one that others change: before the calls of each run stand the changes that they make in it.
fn go_on(
    alloc: Global,
    mut store: MeddledStore,
    text: &str,
    most: u32,
    out: &mut String,
) -> Result<(), AllocError>
    requires { (⟦<MeddledStore as BlockStore>⟧.state store).asked ≡ [] }
{
    let (calls, rest) = text.split_once(" | ").unwrap_or((text, ""));
    match run(&mut store, calls, out) {
        Err(error) => Err(error),
        Ok(()) if rest.is_empty() || most == 0 => Ok(()),
        Ok(()) => {
            let (changes, calls) = parted(rest);
            match next_changes(alloc, changes, out) {
                Err(error) => Err(error),
                Ok(list) => go_on(alloc, store.rest(list), calls, most - 1, out),
            }
        }
    }
}

/// Likewise, of a store that others change, which is made here.
pub fn meddled(alloc: Global, text: &str, early: bool, out: &mut String) -> Result<(), AllocError> {
    let (changes, calls) = parted(text);
    let mut list = changes_of(alloc, changes)?;
    if early {
        let act = Act::Flip {
            region: 1,
            place: 0,
            byte: 0,
        };
        list.push(Meddle { before: 0, act })?;
    }
    go_on(alloc, MeddledStore::new(alloc, list), calls, MOST, out)
}
