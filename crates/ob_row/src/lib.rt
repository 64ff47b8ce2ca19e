//! Rows of a table: their cells, their bytes, the conditions on them, and lists of which only the elements count.
#![tactic(auto)]

mod aggregate;
mod cell;
mod compare;
mod field;
mod laws;
mod pred;
mod row;
mod value;

pub use aggregate::{Agg, Item};
pub use cell::{Cell, Malformed};
pub use compare::compare_cells;
pub use field::{cell_in, put_cell};
pub use laws::{dummy_is_no_row, encoded_row, one_spelling, spelling_width};
pub use pred::{Operand, Pred};
pub use row::{decode, encode, holds, is_dummy, read, width};
pub use value::{Value, field_of, kind_at, offset, same_cell, same_value, set_cell, value_of};
