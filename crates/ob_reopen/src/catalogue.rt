//! The list of an engine's tables, by their names.
ghost use Rattle.std.specs.Prelude.{◌≡◌, ◌≤◌, IfOk, length};
ghost use Rattle.std.specs.List.{All, prefix_len};
ghost use Rattle.ob_base.specs.declared.schema.Table.{Table as StoredTable};
ghost use Rattle.ob_reopen.specs.Writings.{AreSalted, HasBlock, is_before, catalogue_of};
ghost use Rattle.ob_vault.specs.Places.{keys_in};

use crate::listed::Listed;
use ob_base::{Heading, Items, NoMemory, Table};
use ob_vault::{Revisions, Vault};
use std::alloc::Global;

// How many of the first ones have a smaller name.
fn place_of(listed: &[Listed], new: &Listed) -> usize
    ensures value { result ≡ prefix_len (is_before new.now) listed.now }
    ensures within { result ≤ length listed.now }
{
    match listed.split_first() {
        None => 0,
        Some((first, listed)) => {
            let name = new.table.heading.name.as_bytes();
            if first.table.heading.name.as_bytes().cmp(name).is_lt() {
                1 + place_of(listed, new)
            } else {
                0
            }
        }
    }
}

// The same table.
fn copied(table: &Table) -> Table
    ensures { result ≡ table.now }
{
    Table {
        heading: Heading {
            name: table.heading.name.copied(),
            schema: table.heading.schema.copied(),
            capacity: table.heading.capacity,
            shape: table.heading.shape,
        },
        region: table.region,
    }
}

/// The tables in order of their names, each with the write number of the first block of its region, which is
/// live in the vault, and with the salt of the run that made it.
pub fn list_tables<R: Revisions>(
    alloc: Global,
    vault: &Vault<R>,
    tables: &[Table],
) -> Result<Items<Listed>, NoMemory>
    requires { All (λ (t : StoredTable). HasBlock t.region (R.state vault.now.revs))
        tables.now }
    ensures listed { IfOk result (λ listed. listed
        ≡ catalogue_of (keys_in vault.now) (R.state vault.now.revs) tables.now) }
    ensures salts { IfOk result (λ listed. AreSalted (keys_in vault.now) tables.now) }
{
    let Ok(mut listed) = Vec::with_capacity(alloc, tables.len()) else {
        return Err(NoMemory);
    };
    for table in tables {
        let new = Listed {
            table: copied(table),
            number: vault.number(table.region, 0),
            salt: vault.salt_of(table.region),
        };
        let place = place_of(&listed, &new);
        if listed.insert(place, new).is_err() {
            return Err(NoMemory);
        }
    }
    Ok(Items::from_vec(listed))
}
