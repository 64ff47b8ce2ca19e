//! The rows of the indexes: a key, and a text that fills the width.
ghost use Rattle.std.specs.Prelude.{◌≡◌, ◌≤◌, ◌+◌, ℕ, IfSome};
ghost use Rattle.ob_base.specs.Schemas.{width};
ghost use Rattle.ob_flat.specs.Flats.{IsSized};
ghost use Rattle.ob_oram.specs.Keys.{IsIntKey};
ghost use Rattle.ob_row.specs.Spelling.{FitsText};
ghost use Rattle.ob_oram_bench.specs.Sessions.{AreColumns, key_and_text};

use ob_base::{Column, Kind, Name, Schema, Text};

// A key, and a text of at most so many bytes.
fn key_and_text(n: u8) -> Schema
    ensures { result ≡ key_and_text n }
{
    let mut schema = Schema::new();
    schema.push(Column {
        table: Name::from_bytes(b"t"),
        name: Name::from_bytes(b"id"),
        kind: Kind::Int,
        key: true,
    });
    schema.push(Column {
        table: Name::from_bytes(b"t"),
        name: Name::from_bytes(b"s"),
        kind: Kind::Varchar(n),
        key: false,
    });
    schema
}

/// The columns of rows of so many bytes, from 17 to 265.
pub(crate) fn schema_of(bytes: u32) -> Option<Schema>
    ensures columns { IfSome result AreColumns }
    ensures size { IfSome result (λ schema. (n : ℕ) → 1 ≤ n → n ≤ 16777216 → IsSized schema n) }
    ensures key { IfSome result (λ schema. IsIntKey schema 0) }
    ensures wide { IfSome result (λ schema. width schema ≤ 265) }
{
    if bytes < 17 || bytes > 265 {
        return None;
    }
    Some(key_and_text((bytes - 10) as u8))
}

/// One of the texts that the rows have, by a number.
pub(crate) fn text_of(value: u8) -> Text
    ensures { FitsText 7 result }
{
    let letter = b'a' + value % 26;
    Text::from_bytes(&[letter; 7])
}
