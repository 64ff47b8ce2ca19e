//! A line of steps, and what comes of each.
ghost use Rattle.std.specs.Prelude.{◌≡◌, [], OnOk, IfOk};
ghost use Rattle.ob_vault.specs.Places.{at};
ghost use Rattle.ob_vault.specs.Words.{StartsAnew};
ghost use Rattle.ob_oram.specs.Indexes.{IsIndex};
ghost use Rattle.ob_oram_bench.specs.Sessions.{IsSession};

use crate::fault::Fault;
use crate::sessions::{ask_key, make_room, new_index};
use crate::shown::{put_answer, put_asked, put_asking};
use crate::steps::{Head, Step, head_of, steps_of};
use ob_meddle::{Meddle, MeddledStore};
use ob_oram::{Index, Op, discard};
use ob_room::RowBuffer;
use ob_store::BlockStore;
use ob_vault::{Revisions, Vault};
use std::alloc::Global;

// One access, and what it asks of the store.
fn take_step<S: BlockStore, R: Revisions>(
    out: &mut String,
    store: &mut S,
    vault: &mut Vault<R>,
    room: &mut RowBuffer,
    index: &mut Index,
    step: Step,
) -> Result<(), Fault>
    requires session { IsSession room.old index.old (at R.state vault.old (S.state store.old)) }
    ensures { OnOk result
        (IsSession room.new index.new (at R.state vault.new (S.state store.new))) }
{
    let leaf = index.leaf_of(&Op::Get(step.key), step.draw);
    put_asking(out, step.what, step.key, leaf)?;
    let from = store.count();
    let answer = ask_key(store, vault, room, index, step.key, step.what, step.draw);
    put_answer(out, &answer)?;
    put_asked(out, store, from, step.all)?;
    match answer {
        Ok(_) => Ok(()),
        Err(fault) => Err(fault),
    }
}

// The steps, one after the other.
fn take_steps<S: BlockStore, R: Revisions>(
    out: &mut String,
    store: &mut S,
    vault: &mut Vault<R>,
    room: &mut RowBuffer,
    index: &mut Index,
    steps: &[Step],
) -> Result<(), Fault>
    requires session { IsSession room.old index.old (at R.state vault.old (S.state store.old)) }
    ensures { OnOk result
        (IsSession room.new index.new (at R.state vault.new (S.state store.new))) }
{
    for step in steps {
        match take_step(out, store, vault, room, index, *step) {
            Ok(()) => {}
            Err(fault) => return Err(fault),
        }
    }
    Ok(())
}

// Discards an index, for which the store gets room.
fn discarded<S: BlockStore, R: Revisions>(
    out: &mut String,
    store: &mut S,
    vault: &mut Vault<R>,
    index: Index,
) -> Result<(), Fault>
    requires ready { StartsAnew (at R.state vault.old (S.state store.old)) }
    requires stands { IsIndex index (at R.state vault.old (S.state store.old)) }
{
    make_room(store, 2)?;
    let from = store.count();
    match discard(store, vault, index) {
        Ok(()) => out.push_str("\ndrop: done")?,
        Err(error) => write!(out, "\ndrop: {error}")?,
    }
    Ok(put_asked(out, store, from, true)?)
}

// The steps, and how many rows they opened at most.
fn served<S: BlockStore, R: Revisions>(
    out: &mut String,
    store: &mut S,
    vault: &mut Vault<R>,
    room: &mut RowBuffer,
    index: &mut Index,
    steps: &[Step],
) -> Result<(), Fault>
    requires session { IsSession room.old index.old (at R.state vault.old (S.state store.old)) }
    ensures { OnOk result
        (IsSession room.new index.new (at R.state vault.new (S.state store.new))) }
{
    take_steps(out, store, vault, room, index, steps)?;
    Ok(write!(out, "\nat most {} rows open", room.high())?)
}

// The height of an index, and the accesses that made it.
fn put_made<S: BlockStore>(
    out: &mut String,
    store: &S,
    height: u32,
    all: bool,
) -> Result<(), Fault> {
    write!(out, " height {height}")?;
    Ok(put_asked(out, store, 0, all)?)
}

// What is asked of an index that was made.
fn session<S: BlockStore, R: Revisions>(
    out: &mut String,
    store: &mut S,
    vault: &mut Vault<R>,
    room: &mut RowBuffer,
    mut index: Index,
    steps: &[Step],
    drops: bool,
) -> Result<(), Fault>
    requires { IsSession room.old index (at R.state vault.old (S.state store.old)) }
{
    match served(out, store, vault, room, &mut index, steps) {
        Ok(()) if drops => discarded(out, store, vault, index),
        result => result,
    }
}

// A store in memory that others change once, or not.
fn meddled_store(alloc: Global, change: Option<Meddle>) -> Result<MeddledStore, Fault>
    ensures { IfOk result (λ store. (⟦<MeddledStore as BlockStore>⟧.state store).asked ≡ []) }
{
    let mut changes = Vec::new(alloc);
    if let Some(change) = change {
        if changes.push(change).is_err() {
            return Err(Fault::NoMemory);
        }
    }
    Ok(MeddledStore::new(alloc, changes))
}

// Makes an index, and takes its steps.
fn serve(
    alloc: Global,
    out: &mut String,
    head: &Head,
    steps: &[Step],
    drops: bool,
) -> Result<(), Fault> {
    let mut store = meddled_store(alloc, head.change)?;
    match new_index(alloc, &mut store, 17, head.slots, head.draws.as_slice()) {
        Ok((mut vault, mut room, index)) => {
            match put_made(out, &store, index.height, head.all) {
                Ok(()) => session(out, &mut store, &mut vault, &mut room, index, steps, drops),
                Err(fault) => Err(fault),
            }
        }
        Err(fault) => Err(fault),
    }
}

// Makes the index of a line, and takes its steps.
fn serve_line(
    alloc: Global,
    out: &mut String,
    head: &str,
    steps: &str,
    drops: bool,
) -> Result<(), Fault> {
    let head = head_of(alloc, head)?;
    let steps = steps_of(alloc, steps)?;
    serve(alloc, out, &head, steps.as_slice(), drops)
}

/// Writes a line, and what comes of each of its steps.
pub(crate) fn put_session(alloc: Global, out: &mut String, line: &str) -> Result<(), Fault> {
    write!(out, "{line} ->")?;
    let text = line.strip_prefix("s ").unwrap_or(line);
    let (text, drops) = match text.strip_suffix("; drop") {
        Some(text) => (text, true),
        None => (text, false),
    };
    let (head, steps) = text.split_once("; ").unwrap_or((text, ""));
    match serve_line(alloc, out, head, steps, drops) {
        Ok(()) | Err(Fault::Access(_)) => Ok(()),
        Err(fault) => Ok(write!(out, " {fault}")?),
    }
}
