//! What a closing may list.
ghost use Rattle.std.specs.Prelude.{◌≡◌, ◌≤◌, ◌<◌, ◌^◌, length, map, count_by, bytes_eq, IsTrue, false};
ghost use Rattle.std.specs.Bool.{OnTrue, OnFalse};
ghost use Rattle.std.specs.List.{All, list_all, list_any};
ghost use Rattle.ob_base.specs.declared.schema.Column.{Column as TableColumn};
ghost use Rattle.ob_base.specs.Lists.{has_repeats};
ghost use Rattle.ob_base.specs.Schemas.{width};
ghost use Rattle.ob_base.specs.declared.schema.Shape.TheVariants.{Flat};
ghost use Rattle.ob_base.specs.Stored.{NamesTable};
ghost use Rattle.ob_seal.specs.Sealed.{IsSalt};
ghost use Rattle.ob_reopen.specs.declared.listed.Listed.{Listed as Entry};
ghost use Rattle.ob_reopen.specs.Limits.{is_kind, is_column, IsMarked, IsHeading, IsListed, GoesOn, AreListed, blocks_of, end_of, are_apart};

use crate::closing::Closing;
use crate::listed::Listed;
use ob_base::{Column, Heading, Kind, Name};

fn is_kind(kind: Kind) -> bool
    ensures { result ≡ is_kind kind }
{
    match kind {
        Kind::Int => true,
        Kind::Varchar(n) => n > 0,
    }
}

#[tactic(auto, using(crate::proofs::LimitLemmas::column_is))]
fn is_column(column: &Column) -> bool
    ensures { result ≡ is_column column.now }
{
    let _name = column.name.as_bytes();
    is_kind(column.kind)
}

fn are_columns(columns: &[Column]) -> bool
    ensures { result ≡ list_all is_column columns.now }
{
    columns.iter().all(is_column)
}

fn has_name(columns: &[Column], name: &Name) -> bool
    ensures { result ≡ list_any (bytes_eq name.now)
        (map (λ (c : TableColumn). c.name) columns.now) }
{
    match columns.split_first() {
        None => false,
        Some((column, columns)) => {
            name.as_bytes() == column.name.as_bytes() || has_name(columns, name)
        }
    }
}

// Whether two columns have one name.
fn has_repeats(columns: &[Column]) -> bool
    ensures { result ≡ has_repeats bytes_eq (map (λ (c : TableColumn). c.name) columns.now) }
{
    match columns.split_first() {
        None => false,
        Some((column, columns)) => has_name(columns, &column.name) || has_repeats(columns),
    }
}

fn key_count(columns: &[Column]) -> usize
    ensures { result ≡ count_by (λ (c : TableColumn). c.key) columns.now }
{
    columns.iter().filter(|column| column.key).count()
}

fn is_sized(heading: &Heading) -> bool
    ensures yes { OnTrue result ((1 ≤ length heading.now.schema) × (length heading.now.schema ≤ 16)
        × (width heading.now.schema ≤ 1024) × (1 ≤ heading.now.capacity)
        × (heading.now.capacity ≤ 1048576)) }
    ensures no { OnFalse result (IsHeading heading.now → ⊥) }
{
    let columns = heading.schema.as_slice().len();
    1 <= columns
        && columns <= 16
        && heading.schema.width() <= 1_024
        && 1 <= heading.capacity
        && heading.capacity <= 1_048_576
}

fn has_columns(heading: &Heading) -> bool
    ensures yes { OnTrue result ((length heading.now.name ≤ 32)
        × IsTrue (list_all is_column heading.now.schema)
        × (has_repeats bytes_eq (map (λ (c : TableColumn). c.name) heading.now.schema) ≡ false)
        × (count_by (λ (c : TableColumn). c.key) heading.now.schema ≤ 1)) }
    ensures no { OnFalse result (IsHeading heading.now → ⊥) }
{
    let _name = heading.name.as_bytes();
    let columns = heading.schema.as_slice();
    are_columns(columns) && !has_repeats(columns) && key_count(columns) <= 1
}

fn is_heading(heading: &Heading) -> bool
    requires table { NamesTable heading.now }
    ensures yes { OnTrue result (IsHeading heading.now) }
    ensures no { OnFalse result (IsHeading heading.now → ⊥) }
{
    is_sized(heading) && has_columns(heading)
}

/// How many blocks of `pack` rows a table has.
pub(crate) fn blocks_of(pack: u8, listed: &Listed) -> u32
    requires pack { 1 ≤ pack }
    ensures { result ≡ blocks_of pack listed.now }
{
    listed.table.heading.capacity.div_ceil(u32::from(pack))
}

// The number after that of a table's last block.
fn end_of(pack: u8, listed: &Listed) -> u64
    requires pack { 1 ≤ pack }
    requires few { end_of pack listed.now < 2 ^ 64 }
    ensures { result ≡ end_of pack listed.now }
{
    listed.number + u64::from(blocks_of(pack, listed))
}

fn is_listed(closing: Closing, listed: &Listed) -> bool
    requires marked { IsMarked closing }
    requires table { NamesTable listed.now.table.heading }
    requires flat { listed.now.table.heading.shape ≡ Flat }
    requires salt { IsSalt listed.now.salt }
    ensures yes { OnTrue result (IsListed closing listed.now) }
    ensures no { OnFalse result (IsListed closing listed.now → ⊥) }
{
    is_heading(&listed.table.heading)
        && listed.table.region > 0
        && listed.table.region < closing.region
        && listed.number > 0
        && listed.number <= closing.number
        && end_of(closing.pack, listed) <= closing.number
}

// Whether the first has the smaller name, and they have neither a region nor a number together.
fn are_apart(pack: u8, first: &Listed, second: &Listed) -> bool
    requires pack { 1 ≤ pack }
    requires first { end_of pack first.now < 2 ^ 64 }
    requires second { end_of pack second.now < 2 ^ 64 }
    ensures { result ≡ are_apart pack first.now second.now }
{
    let name = first.table.heading.name.as_bytes();
    name.cmp(second.table.heading.name.as_bytes()).is_lt()
        && first.table.region != second.table.region
        && (end_of(pack, first) <= second.number || end_of(pack, second) <= first.number)
}

// Whether each of these is so.
fn all_apart(pack: u8, before: &[Listed], listed: &Listed) -> bool
    requires pack { 1 ≤ pack }
    requires before { All (λ (t : Entry). end_of pack t < 2 ^ 64) before.now }
    requires last { end_of pack listed.now < 2 ^ 64 }
    ensures { result ≡ list_all (λ (t : Entry). are_apart pack t listed.now) before.now }
{
    match before.split_first() {
        None => true,
        Some((first, before)) => {
            are_apart(pack, first, listed) && all_apart(pack, before, listed)
        }
    }
}

/// Whether a table may be listed after these.
pub(crate) fn goes_on(closing: Closing, before: &[Listed], listed: &Listed) -> bool
    requires marked { IsMarked closing }
    requires before { AreListed closing before.now }
    requires table { NamesTable listed.now.table.heading }
    requires flat { listed.now.table.heading.shape ≡ Flat }
    requires salt { IsSalt listed.now.salt }
    ensures yes { OnTrue result (GoesOn closing before.now listed.now) }
    ensures no { OnFalse result (GoesOn closing before.now listed.now → ⊥) }
{
    is_listed(closing, listed) && all_apart(closing.pack, before, listed)
}
