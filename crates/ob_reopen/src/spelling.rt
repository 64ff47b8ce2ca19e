//! The bytes of a closing's rows.
ghost use Rattle.std.specs.Prelude.{◌≡◌, ◌≤◌, ◌*◌, ◌-◌, length};
ghost use Rattle.ob_reopen.specs.Spelling.{name_text, kind_text, column_text, columns_text, salt_text, table_text, head_text};

use crate::listed::Listed;
use ob_base::{Column, Kind, Name};

/// The bytes of a row of a closing.
pub(crate) const TEXT_LEN: usize = 1_024;

// Writes a name after its length, and zeros up to the end.
fn put_name(name: &Name, field: &mut [u8])
    requires { length field.old ≡ 33 }
    ensures { field.new ≡ name_text name.now }
{
    let bytes = name.as_bytes();
    let n = bytes.len();
    field.fill(0);
    field[0] = n as u8;
    field[1..n + 1].copy_from_slice(bytes);
}

fn kind_bytes(kind: Kind) -> [u8; 2]
    ensures { result ≡ kind_text kind }
{
    match kind {
        Kind::Int => [0, 0],
        Kind::Varchar(n) => [1, n],
    }
}

fn put_column(column: &Column, field: &mut [u8])
    requires { length field.old ≡ 36 }
    ensures { field.new ≡ column_text column.now }
{
    let (name, rest) = field.split_at_mut(33);
    let (kind, key) = rest.split_at_mut(2);
    put_name(&column.name, name);
    kind.copy_from_slice(&kind_bytes(column.kind));
    key.fill(u8::from(column.key));
}

// Writes columns one after the other, and zeros up to the end.
fn put_columns(columns: &[Column], fields: &mut [u8])
    requires { 36 * length columns.now ≤ length fields.old }
    ensures { fields.new ≡ columns_text (length fields.old) columns.now }
{
    match columns.split_first() {
        None => fields.fill(0),
        Some((column, columns)) => {
            let (field, fields) = fields.split_at_mut(36);
            put_column(column, field);
            put_columns(columns, fields);
        }
    }
}

// Writes whether a table's run had a salt, and the salt.
fn put_salt(salt: Option<[u8; 16]>, field: &mut [u8])
    requires { length field.old ≡ 17 }
    ensures { field.new ≡ salt_text salt }
{
    match salt {
        None => field.fill(0),
        Some(bytes) => {
            let (has, rest) = field.split_at_mut(1);
            has.fill(1);
            rest.copy_from_slice(&bytes);
        }
    }
}

/// Writes what a closing says of a table.
#[tactic(auto, unfolding(crate::specs::Spelling::table_text))]
pub(crate) fn put_table(listed: &Listed, text: &mut [u8])
    requires few { length listed.now.table.heading.schema ≤ 16 }
    requires size { length text.old ≡ 1024 }
    ensures { text.new ≡ table_text listed.now }
{
    let heading = &listed.table.heading;
    let columns = heading.schema.as_slice();
    let (name, rest) = text.split_at_mut(33);
    let (region, rest) = rest.split_at_mut(8);
    let (capacity, rest) = rest.split_at_mut(4);
    let (number, rest) = rest.split_at_mut(8);
    let (count, rest) = rest.split_at_mut(1);
    let (fields, salt) = rest.split_at_mut(953);
    put_name(&heading.name, name);
    region.copy_from_slice(&listed.table.region.to_be_bytes());
    capacity.copy_from_slice(&heading.capacity.to_be_bytes());
    number.copy_from_slice(&listed.number.to_be_bytes());
    count.fill(columns.len() as u8);
    put_columns(columns, fields);
    put_salt(listed.salt, salt);
}

/// Writes the head of a closing of `count` tables, after which `next` is the number of the next region.
#[tactic(auto, unfolding(crate::specs::Spelling::head_text))]
pub(crate) fn put_head(next: u64, count: u32, text: &mut [u8])
    requires { length text.old ≡ 1024 }
    ensures { text.new ≡ head_text next count }
{
    let (mark, rest) = text.split_at_mut(8);
    let (region, rest) = rest.split_at_mut(8);
    let (tables, rest) = rest.split_at_mut(4);
    mark.copy_from_slice(b"oblidb-c");
    region.copy_from_slice(&next.to_be_bytes());
    tables.copy_from_slice(&count.to_be_bytes());
    rest.fill(0);
}
