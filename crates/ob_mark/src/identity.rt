//! The identity of a store, and the mark that goes with it.
ghost use Rattle.std.specs.Prelude.{◌≡◌, ℕ, List, IfErr, IfOk, IfSome, Ok, OnOk, Some, is_some, true};
ghost use Rattle.std.specs.Io.KnownBytes.{Appends};
ghost use Rattle.ob_reopen.specs.Keepers.{AreSaltBytes};
ghost use Rattle.ob_reopen.specs.declared.mark.Mark.{Mark as HeldMark};
ghost use Rattle.ob_mark.specs.Marks.{HoldsMark, bytes_text, goes_with, held_text, id_text, not_id, store_text};
ghost use Rattle.ob_mark.specs.declared.identity.Held.{Held as HeldBeside};

use crate::mark::{last_bytes, mark_of, put, put_digits, spell};
use ob_base::Failed;
use ob_reopen::Mark;
use std::io::Write;
use std::str;

/// The bytes of the line that names a store after its mark.
const STORE: usize = 39;

/// A mark, and the identity of the one store that it goes with, where it does.
#[derive(Clone, Copy, Debug, PartialEq, Eq)]
pub struct Held {
    pub mark: Mark,
    pub id: Option<[u8; 16]>,
}

/// Why a text is no identity's.
#[derive(Clone, Copy, Debug, PartialEq, Eq)]
pub enum NotId {
    /// It is that of a store whose files have another form.
    OtherVersion,
    /// It is nothing of a store.
    Malformed,
}

/// Writes the line of an identity. `Failed` where `out` did.
pub fn spell_id<W: Write>(out: &mut W, id: &[u8; 16]) -> Result<(), Failed>
    ensures { OnOk result
        (Appends (W.contents out.old) (W.contents out.new) (id_text id.now)) }
{
    put(out, b"ribquince 1 ")?;
    put_digits(out, id, b"\n")
}

/// The identity that a file with this text holds, which is one line as `spell_id` writes it.
pub fn id_of(text: &[u8]) -> Result<[u8; 16], NotId>
    ensures spelt { IfOk result (λ id. (text.now ≡ id_text id) × AreSaltBytes id) }
    ensures read { (id : List ℕ) → AreSaltBytes id → text.now ≡ id_text id → result ≡ Ok id }
    ensures refused { IfErr result (λ e. e ≡ not_id text.now) }
{
    match text.strip_prefix(b"ribquince 1 ") {
        Some(rest) => id_behind(rest),
        None => match text.strip_prefix(b"ribquince ") {
            Some(_) => Err(NotId::OtherVersion),
            None => Err(NotId::Malformed),
        },
    }
}

// The identity that stands after the first words.
fn id_behind(rest: &[u8]) -> Result<[u8; 16], NotId>
    ensures spelt { IfOk result (λ id. (rest.now ≡ bytes_text id) × AreSaltBytes id) }
    ensures read { (id : List ℕ) → AreSaltBytes id → rest.now ≡ bytes_text id → result ≡ Ok id }
    ensures refused { IfErr result (λ e. e ≡ NotId.Malformed) }
{
    match str::from_utf8(rest) {
        Err(_) => Err(NotId::Malformed),
        Ok(text) => match last_bytes(text) {
            Some(id) => Ok(id),
            None => Err(NotId::Malformed),
        },
    }
}

/// Writes a mark, and the line of the store that it goes with. `Failed` where `out` did.
pub fn spell_held<W: Write>(out: &mut W, held: &Held) -> Result<(), Failed>
    ensures { OnOk result
        (Appends (W.contents out.old) (W.contents out.new) (held_text held.now)) }
{
    spell(out, &held.mark)?;
    match &held.id {
        None => Ok(()),
        Some(id) => {
            put(out, b"store ")?;
            put_digits(out, id, b"\n")
        }
    }
}

// The identity that the line of a store has.
fn store_of(line: &[u8]) -> Option<[u8; 16]>
    ensures spelt { IfSome result (λ id. (line.now ≡ store_text (Some id)) × AreSaltBytes id) }
    ensures read { (id : List ℕ) → AreSaltBytes id → line.now ≡ store_text (Some id)
        → result ≡ Some id }
{
    let rest = line.strip_prefix(b"store ")?;
    let text = str::from_utf8(rest).ok()?;
    last_bytes(text)
}

// What a text of two lines holds.
fn beside(text: &[u8]) -> Option<Held>
    ensures spelt { IfSome result (HoldsMark text.now) }
    ensures some { IfSome result (λ held. is_some held.id ≡ true) }
    ensures read { (mark : HeldMark) (id : List ℕ)
        → HoldsMark text.now (record { mark = mark; id = Some id })
        → result ≡ Some (record { mark = mark; id = Some id }) }
{
    if text.len() < STORE {
        return None;
    }
    let (first, second) = text.split_at(text.len() - STORE);
    let id = store_of(second)?;
    let mark = mark_of(first)?;
    Some(Held { mark, id: Some(id) })
}

/// The mark that a file with this text holds, and the identity of its store, if it is as `spell_held` writes it.
pub fn held_of(text: &[u8]) -> Option<Held>
    ensures spelt { IfSome result (HoldsMark text.now) }
    ensures read { (held : HeldBeside) → HoldsMark text.now held → result ≡ Some held }
{
    match beside(text) {
        Some(held) => Some(held),
        None => Some(Held {
            mark: mark_of(text)?,
            id: None,
        }),
    }
}

/// Whether a mark that is held goes with the store that has this identity, or with those that have none.
pub fn goes_with(held: &Held, id: Option<[u8; 16]>) -> bool
    ensures { result ≡ goes_with held.now id }
{
    match (held.id, id) {
        (Some(held), Some(id)) => held == id,
        (None, Some(_)) => false,
        (None, None) => true,
        (Some(_), None) => matches!(held.mark, Mark::Begun | Mark::Saved { .. }),
    }
}
