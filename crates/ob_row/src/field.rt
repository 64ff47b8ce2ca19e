//! The bytes of one cell.
ghost use Rattle.std.specs.Prelude.{◌≡◌, ◌≤◌, ◌-◌, ◌∷◌, ◌++◌, ◌↔◌, List, ℕ, length, replicate, IfSome, IfNone, IsTrue};
ghost use Rattle.std.specs.Bool.{OnTrue, OnFalse};
ghost use Rattle.std.specs.List.{list_all};
ghost use Rattle.std.specs.Int.{is_in_range};
ghost use Rattle.ob_base.specs.Schemas.{kind_width};
ghost use Rattle.ob_row.specs.declared.cell.Cell.{Cell};
ghost use Rattle.ob_row.specs.Spelling.{FitsKind, cell_bytes};
ghost use Rattle.ob_row.specs.Fields.{HoldsText, HoldsCell};

use crate::cell::Cell;
use ob_base::{Kind, Text};

/// The bytes that a cell of this kind takes.
pub(crate) fn kind_width(kind: Kind) -> usize
    ensures value { result ≡ kind_width kind }
    ensures few { result ≤ 256 }
{
    kind.width() as usize
}

fn is_printable(text: &[u8]) -> bool
    ensures { result ≡ list_all (is_in_range 0x20 0x7E) text.now }
{
    text.iter().all(|b| 0x20 <= *b && *b <= 0x7e)
}

/// Whether all bytes are zero.
pub(crate) fn is_zero(bytes: &[u8]) -> bool
    ensures { IsTrue result ↔ (bytes.now ≡ replicate (length bytes.now) 0) }
{
    bytes.iter().all(|b| *b == 0)
}

// The text that a field holds: its length, its bytes, and zeros up to the end.
fn text_in(field: &[u8]) -> Option<&[u8]>
    ensures some { IfSome result (λ t. HoldsText t.now field.now) }
    ensures none { IfNone result ((t : List ℕ) → HoldsText t field.now → ⊥) }
{
    let (len, rest) = field.split_first()?;
    let (text, padding) = rest.split_at_checked(usize::from(*len))?;
    if is_printable(text) && is_zero(padding) {
        Some(text)
    } else {
        None
    }
}

/// Whether the bytes spell a cell of this kind.
pub(crate) fn is_cell(kind: Kind, field: &[u8]) -> bool
    requires { length field.now ≡ kind_width kind }
    ensures yes { OnTrue result ((x : Cell) × HoldsCell kind x field.now) }
    ensures no { OnFalse result ((x : Cell) → HoldsCell kind x field.now → ⊥) }
{
    match kind {
        Kind::Int => true,
        Kind::Varchar(_) => text_in(field).is_some(),
    }
}

/// The cell of this kind that the bytes spell, if they spell one.
pub fn cell_in(kind: Kind, field: &[u8]) -> Option<Cell>
    requires { length field.now ≡ kind_width kind }
    ensures some { IfSome result (λ x. HoldsCell kind x field.now) }
    ensures none { IfNone result ((x : Cell) → HoldsCell kind x field.now → ⊥) }
{
    match kind {
        Kind::Int => {
            let mut bytes = [0; 8];
            bytes.copy_from_slice(field);
            Some(Cell::Int(i64::from_be_bytes(bytes)))
        }
        Kind::Varchar(_) => {
            let text = text_in(field)?;
            Some(Cell::Text(Text::from_bytes(text)))
        }
    }
}

/// Writes a cell over a field of its kind.
pub fn put_cell(kind: Kind, cell: &Cell, field: &mut [u8])
    requires fits { FitsKind kind cell.now }
    requires wide { length field.old ≡ kind_width kind }
    ensures { field.new ≡ cell_bytes kind cell.now }
{
    match cell {
        Cell::Int(x) => field.copy_from_slice(&x.to_be_bytes()),
        Cell::Text(text) => put_text(text.as_bytes(), field),
    }
}

// Writes a text's length, its bytes, and zeros up to the end.
fn put_text(text: &[u8], field: &mut [u8])
    requires fits { length text.now ≤ length field.old - 1 }
    requires few { length field.old ≤ 256 }
    requires some { 1 ≤ length field.old }
    ensures { field.new ≡ length text.now
        ∷ (text.now ++ replicate (length field.old - 1 - length text.now) 0) }
{
    let n = text.len();
    field.fill(0);
    field[0] = n as u8;
    field[1..n + 1].copy_from_slice(text);
}
