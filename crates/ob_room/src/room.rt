//! The trusted buffer of rows.
ghost use Rattle.std.specs.Prelude.{◌≡◌, [], ◌∷◌, ◌++◌, ◌+◌, ◌-◌, ◌≤◌, ◌<◌, max, length, IfOk, MatchOption, replicate, slice_index_or};
ghost use Rattle.std.specs.Borrow.{sem};
ghost use Rattle.ob_room.specs.RoomState.{RoomState, out, clear};

use crate::row::{ClearRow, FreeRow};
use ob_base::NoMemory;
use std::alloc::{AllocError, Global};
use std::marker::Model;

/// The trusted buffer: the only place where rows lie in clear.
///
/// It has a fixed number of rows. Each is free, or out with the caller, or out and on the shelf, a list from
/// which passes work. A row that comes back is overwritten with zeros, so a row that is taken is zero. Only
/// `new` takes memory.
pub struct RowBuffer {
    free: Vec<FreeRow>,
    shelf: Vec<ClearRow>,
    rows: u32,
    width: u32,
    pack: u32,
    high: u64,
}

impl Model for RowBuffer {
    ghost use Rattle.ob_room.specs.RoomState.{RoomState};

    ghost Value = { RoomState };

    ghost use Rattle.ob_room.specs.IsRoom.{IsRoom};

    ghost view = { λ a. record {
      rows = a.rows;
      width = a.width;
      pack = a.pack;
      free = a.free.items;
      shelf = a.shelf.items;
      high = a.high;
    } };

    ghost invariant = { IsRoom };
}

impl RowBuffer {
    ghost use Rattle.ob_room.specs.LendingRow.{LendsRow};
    ghost use Rattle.ob_room.specs.LendingOpen.{LendsOpen};
    ghost use Rattle.ob_room.specs.Shelf.{ShelvesClear, cleared, AreWide, IsSound};

    /// A room of `rows` rows, each `width` bytes wide and all free, for blocks of `pack` rows (1 to 16).
    pub fn new(alloc: Global, rows: u32, width: u32, pack: u32) -> Result<RowBuffer, NoMemory>
        requires pack { (1 ≤ pack) × (pack ≤ 16) }
        ensures { IfOk result (λ r. r ≡ record {
          rows = rows;
          width = width;
          pack = pack;
          free = replicate rows (clear width);
          shelf = [];
          high = 0;
        }) }
    {
        match RowBuffer::built(alloc, rows, width, pack) {
            Ok(room) => Ok(room),
            Err(_) => Err(NoMemory),
        }
    }

    // The same, with the allocator's error.
    fn built(alloc: Global, rows: u32, width: u32, pack: u32) -> Result<RowBuffer, AllocError>
        requires pack { (1 ≤ pack) × (pack ≤ 16) }
        ensures { IfOk result (λ r. r ≡ record {
          rows = rows;
          width = width;
          pack = pack;
          free = replicate rows (clear width);
          shelf = [];
          high = 0;
        }) }
    {
        let mut free = Vec::with_capacity(alloc, rows as usize)?;
        for _ in 0..rows {
            free.push(FreeRow {
                bytes: Vec::from_elem(alloc, 0, width as usize)?,
            })?;
        }
        Ok(RowBuffer {
            free,
            shelf: Vec::with_capacity(alloc, rows as usize)?,
            rows,
            width,
            pack,
            high: 0,
        })
    }

    /// The number of rows that the room was made with.
    pub fn rows(&self) -> u32
        ensures value { result ≡ self.now.rows }
        ensures sound { IsSound self.now }
    {
        self.rows
    }

    /// How many rows a block has, 1 to 16.
    pub fn pack(&self) -> u32
        ensures value { result ≡ self.now.pack }
        ensures sound { IsSound self.now }
    {
        self.pack
    }

    /// The greatest number of rows that were out at once.
    pub fn high(&self) -> u64
        ensures value { result ≡ self.now.high }
        ensures most { result ≤ self.now.rows }
        ensures least { out self.now ≤ result }
    {
        self.high
    }

    /// A row of zeros, or none where all are out.
    pub fn take(&mut self) -> Option<ClearRow>
        ensures { MatchOption result
            ((out self.old ≡ self.old.rows) × (self.new ≡ self.old))
            (λ row. (row ≡ clear self.old.width) × (self.old.free ≡ self.new.free ++ row ∷ [])
            × (self.new ≡ record self.old {
              free = self.new.free;
              high = max self.old.high
                  (out self.old + 1);
            })) }
    {
        let FreeRow { bytes } = self.free.pop()?;
        let out = (self.rows as usize - self.free.len()) as u64;
        if out > self.high {
            self.high = out;
        }
        Some(ClearRow { bytes })
    }

    /// Takes a row back, and writes zeros over it. The row is as wide as the room's, and more rows are out
    /// than lie on the shelf.
    pub fn give(&mut self, row: ClearRow)
        requires width { length row ≡ self.old.width }
        requires held { length self.old.shelf < out self.old }
        ensures { self.new ≡ record self.old { free = self.old.free ++ clear self.old.width ∷ [] } }
    {
        let ClearRow { mut bytes } = row;
        bytes.fill(0);
        self.free.push_reserved(FreeRow { bytes });
    }

    /// Puts a row, which stays out, last on the shelf. The row is as wide as the room's, and more rows are
    /// out than lie on the shelf.
    pub fn shelve(&mut self, row: ClearRow)
        requires width { length row ≡ self.old.width }
        requires held { length self.old.shelf < out self.old }
        ensures { self.new ≡ record self.old { shelf = self.old.shelf ++ row ∷ [] } }
    {
        self.shelf.push_reserved(row);
    }

    /// The rows on the shelf, in the order in which they were put there.
    pub fn shelf(&self) -> &[ClearRow]
        ensures { result.now ≡ self.now.shelf }
    {
        self.shelf.as_slice()
    }

    /// The last row of the shelf, or none where it is empty.
    pub fn unshelve(&mut self) -> Option<ClearRow>
        ensures { MatchOption result
            ((self.old.shelf ≡ []) × (self.new ≡ self.old))
            (λ row. (self.old.shelf ≡ self.new.shelf ++ row ∷ [])
            × (self.new ≡ record self.old { shelf = self.new.shelf })) }
    {
        self.shelf.pop()
    }

    /// Row `i` of the shelf, to be written.
    pub fn shelf_mut(&mut self, i: u32) -> &mut ClearRow
        requires { i < length self.old.shelf }
        ensures* writes_back { sem 𝓛 (LendsRow self.entry i result) }
        ensures value { result.now ≡ slice_index_or self.old.shelf i [] }
    {
        &mut self.shelf[i as usize]
    }

    /// Takes `n` free rows, which are zero, and puts them last on the shelf.
    pub fn shelve_clear(&mut self, n: u32)
        requires free { n ≤ length self.old.free }
        requires held { length self.old.shelf ≤ out self.old }
        ensures { ShelvesClear n self.old self.new }
    {
        let _ = self.rows();
        for _ in 0..n {
            match self.take() {
                None => unreachable!(),
                Some(row) => self.shelve(row),
            }
        }
    }

    /// Takes `n` free rows, which are zero, puts them on the shelf, which is empty, and lends them.
    pub fn open(&mut self, n: u32) -> &mut [ClearRow]
        requires free { n ≤ length self.old.free }
        requires shelf { self.old.shelf ≡ [] }
        ensures* writes_back { sem 𝓛 (LendsOpen self.entry n result) }
        ensures value { result.now ≡ replicate n (clear self.old.width) }
    {
        self.shelve_clear(n);
        self.shelf.as_mut_slice()
    }

    /// Takes all rows from the shelf, and writes zeros over them.
    pub fn clear_shelf(&mut self)
        requires wide { AreWide self.old.width self.old.shelf }
        requires held { length self.old.shelf ≤ out self.old }
        ensures { self.new ≡ cleared self.old }
    {
        while let Some(row) = self.unshelve() {
            self.give(row);
        }
    }
}

impl Drop for RowBuffer {
    fn drop(self) {
        let RowBuffer {
            free: _free,
            mut shelf,
            rows: _,
            width: _,
            pack: _,
            high: _,
        } = self;
        while let Some(row) = shelf.pop() {
            let ClearRow { bytes: _bytes } = row;
        }
        shelf.destroy_empty();
    }
}
