//! What the reading pass of a batch notes.
ghost use Rattle.std.specs.Prelude.{◌≡◌, ◌≤◌, ◌<◌, ◌-◌, ◌++◌, ◌^◌, [], ◌∷◌, ℕ, true, false, List, Some, IfOk, length, replicate, slice_index_or};
ghost use Rattle.ob_base.specs.Schemas.{width};
ghost use Rattle.ob_order.specs.Orders.{KnowsKeys, Lists, admitted, field_at, is_marked, keys_after, noted};
ghost use Rattle.ob_order.specs.declared.admitting.Admitted.TheVariants.{Done};
ghost use Rattle.ob_mutate.specs.Batches.{note_free, start_notes};

use ob_base::{Items, NoMemory};
use ob_flat::{Flat, Visit};
use ob_order::{Admitted, Order, admit, note};
use ob_room::ClearRow;
use ob_row::{Cell, Malformed, field_of, offset, read};
use std::alloc::{AllocError, Global};
use std::marker::Model;

/// Which rows of a batch have a key that the table has, as `ob_order` notes it; the table's first free
/// slots; and which rows are to go there, in order.
///
/// It has room for as many of each as the batch has rows; only `new` takes memory.
#[derive(Drop)]
pub(crate) struct Notes {
    there: Vec<bool>,
    free: Vec<u32>,
    taken: Vec<u32>,
}

impl Model for Notes {
    ghost use Rattle.std.specs.Prelude.{vec_capacity};
    ghost use Rattle.ob_mutate.specs.Batches.{NotesState};
    ghost use Rattle.ob_mutate.specs.IsNotes.{IsNotes};

    ghost Value = { NotesState };

    ghost view = { λ n. record {
      there = n.there.items;
      free = n.free.items;
      taken = n.taken.items;
      most = vec_capacity n.free;
    } };

    ghost invariant = { IsNotes };
}

impl Notes {
    /// With nothing noted, and with room for so many rows.
    pub(crate) fn new(alloc: Global, rows: usize) -> Result<Notes, NoMemory>
        requires { rows < 2 ^ 32 }
        ensures { IfOk result (λ n. n ≡ start_notes rows) }
    {
        match Notes::built(alloc, rows) {
            Ok(notes) => Ok(notes),
            Err(_) => Err(NoMemory),
        }
    }

    // The same, with the allocator's error.
    fn built(alloc: Global, rows: usize) -> Result<Notes, AllocError>
        requires { rows < 2 ^ 32 }
        ensures { IfOk result (λ n. n ≡ start_notes rows) }
    {
        Ok(Notes {
            there: Vec::from_elem(alloc, false, rows)?,
            free: Vec::with_capacity(alloc, rows)?,
            taken: Vec::with_capacity(alloc, rows)?,
        })
    }

    /// The free slots that were noted.
    pub(crate) fn free(&self) -> &[u32]
        ensures { result.now ≡ self.now.free }
    {
        self.free.as_slice()
    }

    /// The rows that are to go there.
    pub(crate) fn taken(&self) -> &[u32]
        ensures { result.now ≡ self.now.taken }
    {
        self.taken.as_slice()
    }

    /// How many of the free slots are left.
    pub(crate) fn spare(&self) -> u32
        requires { length self.now.taken ≤ length self.now.free }
        ensures { result ≡ length self.now.free - length self.now.taken }
    {
        (self.free.len() - self.taken.len()) as u32
    }

    /// What kept row `i` is answered where so many slots are free. Where it is taken, the table has its
    /// key.
    pub(crate) fn admit(
        &mut self,
        order: &Order,
        kept: &[ClearRow],
        at: usize,
        len: usize,
        i: u32,
        free: u32,
    ) -> Admitted
        requires listed { Lists at len kept.now order.now.places }
        requires marked { (q : ℕ) → q < length kept.now
            → is_marked (slice_index_or kept.now q []) ≡ true }
        requires wide { length (field_at at len kept.now i) ≡ len }
        requires inside { i < length kept.now }
        requires size { length self.old.there ≡ length kept.now }
        ensures there { self.new ≡ record self.old { there = self.new.there } }
        ensures size { length self.new.there ≡ length self.old.there }
        ensures answer { (keys : List (List ℕ)) → KnowsKeys at len kept.now keys self.old.there
            → result ≡ admitted (field_at at len kept.now i) keys free }
        ensures knows { (keys : List (List ℕ)) → KnowsKeys at len kept.now keys self.old.there
            → KnowsKeys at len kept.now (keys_after (field_at at len kept.now i) keys free)
            self.new.there }
        ensures spare { result ≡ Done → 0 < free }
    {
        admit(order, kept, at, len, i, free, self.there.as_mut_slice())
    }

    /// Notes that a row of the batch goes to the next free slot.
    pub(crate) fn take(&mut self, i: u32)
        requires spare { length self.old.taken < length self.old.free }
        requires few { length self.old.free ≤ self.old.most }
        ensures { self.new ≡ record self.old { taken = self.old.taken ++ i ∷ [] } }
    {
        self.taken.push_reserved(i);
    }

    // Notes a free slot, unless there are as many as rows.
    fn note_free(&mut self, i: u32)
        ensures { self.new ≡ note_free i self.old }
    {
        if self.free.len() < self.free.capacity() {
            self.free.push_reserved(i);
        }
    }

    // Notes that the table has a row with this key.
    fn note_key(&mut self, order: &Order, kept: &[ClearRow], at: usize, key: &[u8])
        requires listed { Lists at (length key.now) kept.now order.now.places }
        requires marked { (q : ℕ) → q < length kept.now
            → is_marked (slice_index_or kept.now q []) ≡ true }
        requires size { length self.old.there ≡ length kept.now }
        ensures { self.new ≡ record self.old { there = noted at key.now kept.now self.old.there } }
    {
        note(order, kept, at, key, self.there.as_mut_slice());
    }
}

// Notes the first free slots below the capacity, and which rows of a batch, which are kept, have a key
// that the table has.
#[derive(Drop)]
pub(crate) struct Noting<'a> {
    pub(crate) key: Option<u8>,
    pub(crate) order: &'a Order,
    pub(crate) batch: &'a [Items<Cell>],
    pub(crate) kept: &'a [ClearRow],
    pub(crate) notes: Notes,
}

impl<'a> Visit for Noting<'a> {
    ghost use Rattle.std.specs.Prelude.{◌≡◌, ◌≤◌, ℕ};
    ghost use Rattle.ob_base.specs.Schemas.{key_place};
    ghost use Rattle.ob_mutate.specs.Batches.{AreFit, AreKept, AreListed, AreNotes, MayRise, noted_slot};

    ghost after = { λ flat s i slot. record s {
      notes = noted_slot flat.schema s.key s.kept.now flat.capacity s.notes i slot;
    } };

    ghost Suits = { λ flat s i. (s.key ≡ key_place flat.schema)
        × AreFit flat.schema s.batch.now × AreKept flat.schema s.batch.now s.kept.now
        × AreListed flat.schema s.key s.kept.now s.order.now × AreNotes s.kept.now s.notes
        × (s.notes.taken ≡ []) × MayRise i flat.capacity s.notes.free };

    fn visit(&mut self, i: u32, flat: &Flat, row: &ClearRow) -> Result<(), Malformed> {
        if read(&flat.schema, row)? {
            if let Some(place) = self.key {
                let at = offset(&flat.schema, place);
                let field = field_of(&flat.schema, row, place);
                self.notes.note_key(self.order, self.kept, at, field);
            }
        } else if i < flat.capacity {
            self.notes.note_free(i);
        }
        Ok(())
    }
}
