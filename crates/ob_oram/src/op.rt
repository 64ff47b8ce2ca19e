//! What an access does with its key's row.
use arrayvec::ArrayVec;
use ob_row::Cell;
use std::marker::Model;

// A cell of a list.
#[derive(Drop)]
pub(crate) struct Listed {
    pub(crate) cell: Cell,
}

impl Model for Listed {
    ghost use Rattle.ob_row.specs.declared.cell.Cell.{Cell as RowCell};

    ghost Value = { RowCell };

    ghost view = { λ listed. listed.cell };
}

impl Default for Listed {
    fn default() -> Listed {
        Listed { cell: Cell::Int(0) }
    }
}

/// The cells of a row: at most 32.
#[derive(Drop)]
pub struct Cells {
    cells: ArrayVec<Listed, 32>,
}

impl Model for Cells {
    ghost use Rattle.std.specs.Prelude.{◌≤◌, List, length};
    ghost use Rattle.ob_row.specs.declared.cell.Cell.{Cell as RowCell};

    ghost Value = { List RowCell };

    ghost view = { λ s. s.cells.items };

    ghost invariant = { λ s. length s.cells.items ≤ 32 };
}

impl Cells {
    ghost use Rattle.std.specs.Prelude.{◌≡◌, ◌<◌, ◌≤◌, [], ◌∷◌, ◌++◌, IfSome, IfNone, length, slice_get, Some, Option, MatchOption};

    /// No cell.
    pub fn new() -> Cells
        ensures { result ≡ [] }
    {
        Cells {
            cells: ArrayVec::new(),
        }
    }

    /// Adds a cell at the end.
    pub fn push(&mut self, cell: Cell)
        requires { length self.old < 32 }
        ensures { self.new ≡ self.old ++ cell ∷ [] }
    {
        self.cells.push(Listed { cell });
    }

    /// How many cells there are.
    pub fn len(&self) -> usize
        ensures { result ≡ length self.now }
    {
        self.cells.len()
    }

    /// The cell at a place.
    pub fn at(&self, i: usize) -> &Cell
        requires { i < length self.now }
        ensures { slice_get self.now i ≡ Some result.now }
    {
        let listed = &self.cells.as_slice()[i];
        &listed.cell
    }
}

/// One access of a key: what it looks for, or puts in, or changes, or takes out. The cells of a change stand beside
/// the places of their columns.
#[derive(Drop)]
pub enum Op<'a> {
    Get(i64),
    Insert(i64, &'a [Cell]),
    Change(i64, &'a [(u8, Cell)]),
    Remove(i64),
}

/// What an access answers: there is no row with the key, or this one; or the row was put in, changed or taken out;
/// or one with its key was there already; or the key is none of the index.
#[derive(Drop)]
pub enum Got {
    None,
    Row(Cells),
    Done,
    Duplicate,
    OutOfRange,
}

impl<'a> Op<'a> {
    ghost use Rattle.std.specs.Prelude.{◌≡◌};
    ghost use Rattle.ob_oram.specs.Ops.{key_of_op};

    /// The key.
    pub fn key(&self) -> i64
        ensures { result ≡ key_of_op self.now }
    {
        match self {
            Op::Get(key) => *key,
            Op::Insert(key, _) => *key,
            Op::Change(key, _) => *key,
            Op::Remove(key) => *key,
        }
    }
}
