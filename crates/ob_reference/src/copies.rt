//! Copies of rows, and joined rows.
ghost use Rattle.std.specs.Prelude.{◌≡◌, ◌++◌, IfOk, OnOk, filter, map};
ghost use Rattle.ob_row.specs.Rows.{agree_at, pairs};

use crate::tables::Tuple;
use crate::truth::agree_at;
use ob_base::NoMemory;
use ob_row::Cell;
use std::alloc::Global;

fn add_cells(cells: &[Cell], to: &mut Vec<Cell>) -> Result<(), NoMemory>
    ensures { OnOk result (to.new.items ≡ to.old.items ++ cells.now) }
{
    match cells.split_first() {
        None => Ok(()),
        Some((cell, cells)) => match to.push(cell.copied()) {
            Err(_) => Err(NoMemory),
            Ok(()) => add_cells(cells, to),
        },
    }
}

// A left row, and a right row after it.
fn joined(alloc: Global, left: &[Cell], right: &[Cell]) -> Result<Tuple, NoMemory>
    ensures { IfOk result (λ row. row ≡ left.now ++ right.now) }
{
    let mut cells = Vec::new(alloc);
    match add_cells(left, &mut cells) {
        Err(_) => Err(NoMemory),
        Ok(()) => match add_cells(right, &mut cells) {
            Err(_) => Err(NoMemory),
            Ok(()) => Ok(Tuple { cells }),
        },
    }
}

/// The same row.
pub(crate) fn copied(alloc: Global, row: &Tuple) -> Result<Tuple, NoMemory>
    ensures { IfOk result (λ copy. copy ≡ row.now) }
{
    let mut cells = Vec::new(alloc);
    match add_cells(row.as_slice(), &mut cells) {
        Err(_) => Err(NoMemory),
        Ok(()) => Ok(Tuple { cells }),
    }
}

/// Adds a copy of each row.
pub(crate) fn add_rows(alloc: Global, rows: &[Tuple], to: &mut Vec<Tuple>) -> Result<(), NoMemory>
    ensures { OnOk result (to.new.items ≡ to.old.items ++ rows.now) }
{
    match rows.split_first() {
        None => Ok(()),
        Some((row, rows)) => match copied(alloc, row) {
            Err(_) => Err(NoMemory),
            Ok(copy) => match to.push(copy) {
                Err(_) => Err(NoMemory),
                Ok(()) => add_rows(alloc, rows, to),
            },
        },
    }
}

// Adds a left row joined with each right row that agrees with it.
fn add_joined(
    alloc: Global,
    i: usize,
    j: usize,
    left: &[Cell],
    right: &[Tuple],
    to: &mut Vec<Tuple>,
) -> Result<(), NoMemory>
    ensures { OnOk result
        (to.new.items
        ≡ to.old.items ++ map (λ b. left.now ++ b) (filter (agree_at i j left.now) right.now)) }
{
    match right.split_first() {
        None => Ok(()),
        Some((row, rows)) => {
            if agree_at(i, j, left, row.as_slice()) {
                match joined(alloc, left, row.as_slice()) {
                    Err(_) => Err(NoMemory),
                    Ok(both) => match to.push(both) {
                        Err(_) => Err(NoMemory),
                        Ok(()) => add_joined(alloc, i, j, left, rows, to),
                    },
                }
            } else {
                add_joined(alloc, i, j, left, rows, to)
            }
        }
    }
}

/// Adds each left row joined with each right row whose cell at place `j` is the left one's at place `i`.
pub(crate) fn add_pairs(
    alloc: Global,
    i: usize,
    j: usize,
    left: &[Tuple],
    right: &[Tuple],
    to: &mut Vec<Tuple>,
) -> Result<(), NoMemory>
    ensures { OnOk result (to.new.items ≡ to.old.items ++ pairs i j left.now right.now) }
{
    match left.split_first() {
        None => Ok(()),
        Some((row, rows)) => match add_joined(alloc, i, j, row.as_slice(), right, to) {
            Err(_) => Err(NoMemory),
            Ok(()) => add_pairs(alloc, i, j, rows, right, to),
        },
    }
}
