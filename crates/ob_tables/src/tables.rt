//! Tables by their names.
ghost use Rattle.std.specs.Prelude.{◌≡◌, ◌<◌, ◌≤◌, ◌+◌, ◌*◌, ℕ, true, length, Some, slice_get, slice_set, IfSome, IfNone, OnOk};
ghost use Rattle.std.specs.List.{remove};
ghost use Rattle.ob_base.specs.declared.schema.Table.{Table as TableOf};
ghost use Rattle.ob_base.specs.Numbers.{blocks_for};
ghost use Rattle.ob_base.specs.Stored.{has_table, headings_of};
ghost use Rattle.ob_store.specs.Calls.{ChangesNothing};
ghost use Rattle.ob_tables.specs.Agreeing.{public_of};
ghost use Rattle.ob_tables.specs.Engines.{IsAt, IsFound, flat_of};

use crate::engine::Engine;
use ob_base::{Items, Name, NoMemory, Table};
use ob_flat::Flat;
use ob_store::BlockStore;
use ob_vault::Revisions;
use std::mem;

/// The place of the first table of this name, if there is one.
pub(crate) fn find_table(tables: &[Table], name: &Name) -> Option<usize>
    ensures found { IfSome result (λ i. (t : TableOf) × IsAt name.now i t tables.now) }
    ensures first { IfSome result (λ i. (j : ℕ) (t : TableOf) → j < i
        → IsAt name.now j t tables.now → ⊥) }
    ensures none { IfNone result ((i : ℕ) (t : TableOf) → IsAt name.now i t tables.now → ⊥) }
{
    for (i, table) in tables.iter().enumerate() {
        if table.heading.name == *name {
            return Some(i);
        }
    }
    None
}

/// The table at a place, as the passes take it.
pub(crate) fn flat_at(tables: &[Table], i: usize) -> Flat
    requires { i < length tables.now }
    ensures { (t : TableOf) → slice_get tables.now i ≡ Some t → result ≡ flat_of t }
{
    let table = &tables[i];
    Flat {
        schema: table.heading.schema.copied(),
        capacity: table.heading.capacity,
        region: table.region,
    }
}

/// The place of the table of this name among these, and the table as the passes take it.
pub fn table_in(tables: &[Table], name: &Name) -> (usize, Flat)
    requires { has_table name.now (headings_of tables.now) ≡ true }
    ensures { IsFound name.now result.0 result.1 tables.now }
{
    let Some(i) = find_table(tables, name) else {
        unreachable!()
    };
    (i, flat_at(tables, i))
}

impl<R: Revisions> Engine<R> {
    /// The place of the table of this name, which there is, and the table as the passes take it.
    pub fn table_at(&self, name: &Name) -> (usize, Flat)
        requires { has_table name.now (headings_of (public_of self.now).tables) ≡ true }
        ensures { IsFound name.now result.0 result.1 (public_of self.now).tables }
    {
        table_in(self.public.tables.as_slice(), name)
    }

    /// Has the store keep room for so many accesses of each block of a table, and two more.
    pub(crate) fn make_room<S: BlockStore>(
        &self,
        store: &mut S,
        flat: &Flat,
        turns: u64,
    ) -> Result<(), NoMemory>
        requires pack { 1 ≤ (public_of self.now).pack }
        requires turns { turns ≤ 3 }
        ensures rests { ChangesNothing (S.state store.old) (S.state store.new) }
        ensures spare { OnOk result
            (turns * blocks_for (public_of self.now).pack flat.now.capacity + 2
            ≤ (S.state store.new).spare) }
    {
        let blocks = flat.capacity.div_ceil(u32::from(self.public.pack));
        store.reserve(turns * u64::from(blocks) + 2)
    }

    /// The table at a place now lies in another region.
    pub(crate) fn move_table(&mut self, i: usize, region: u64)
        requires { i < length self.old.public.tables }
        ensures { (t : TableOf) → slice_get self.old.public.tables i ≡ Some t
            → self.new ≡ record self.old {
              public = record self.old.public {
                tables = slice_set self.old.public.tables i (record t { region = region });
              };
            } }
    {
        let mut tables = mem::replace(&mut self.public.tables, Items::new(self.alloc)).into_vec();
        tables[i].region = region;
        self.public.tables = Items::from_vec(tables);
    }

    /// The table at a place is taken out.
    pub(crate) fn remove_table(&mut self, i: usize)
        requires { i < length self.old.public.tables }
        ensures { self.new ≡ record self.old {
          public = record self.old.public {
            tables = remove self.old.public.tables i;
          };
        } }
    {
        let mut tables = mem::replace(&mut self.public.tables, Items::new(self.alloc)).into_vec();
        let _ = tables.remove(i);
        self.public.tables = Items::from_vec(tables);
    }
}
