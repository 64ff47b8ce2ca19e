//! CREATE and DROP.
ghost use Rattle.std.specs.Prelude.{◌≡◌, ◌≤◌, ◌<◌, length, not, false, remove, MatchOption, OnOk, OnErr};
ghost use Rattle.std.specs.List.{list_any};
ghost use Rattle.ob_base.specs.Stored.{dropped_at};
ghost use Rattle.ob_base.specs.declared.skeleton.NewColumn.{NewColumn};
ghost use Rattle.ob_sql.specs.declared.stmt.Stmt.TheVariants.{Create, Drop as DropTable};
ghost use Rattle.ob_mean.specs.Refusals.{is_size};
ghost use Rattle.ob_mean.specs.Step.{accepted_next};

use crate::tables::{Database, Held};
use ob_base::{Heading, Name, NewColumn, NoMemory, Shape};
use std::alloc::Global;

// The place of the table of this name.
fn place_of(tables: &[Held], name: &Name) -> Option<usize>
    ensures { MatchOption result (dropped_at name.now tables.now ≡ tables.now)
        (λ i. (i < length tables.now) × (dropped_at name.now tables.now ≡ remove tables.now i)) }
{
    match tables.split_first() {
        None => None,
        Some((table, tables)) => {
            if table.heading().name.as_bytes() == name.as_bytes() {
                Some(0)
            } else {
                match place_of(tables, name) {
                    None => None,
                    Some(i) => Some(i + 1),
                }
            }
        }
    }
}

impl Database {
    /// Carries a CREATE out that is not refused; want of memory leaves the tables as they were.
    pub fn create(
        &mut self,
        alloc: Global,
        table: &Name,
        columns: &[NewColumn],
        capacity: u32,
        shape: Shape,
    ) -> Result<(), NoMemory>
        requires few { length columns.now ≤ 32 }
        requires sizes { list_any (λ (c : NewColumn). not (is_size c.kind)) columns.now ≡ false }
        ensures next { OnOk result
            (self.new ≡ accepted_next self.old (Create table.now columns.now capacity shape)) }
        ensures err { OnErr result (self.new ≡ self.old) }
    {
        let heading = Heading {
            name: table.copied(),
            schema: ob_mean::new_schema(table, columns),
            capacity,
            shape,
        };
        let rows = Vec::new(alloc);
        match self.tables.push(Held { heading, rows }) {
            Err(_) => Err(NoMemory),
            Ok(()) => Ok(()),
        }
    }

    /// Carries a DROP out that is not refused.
    pub fn drop_table(&mut self, table: &Name)
        ensures { self.new ≡ accepted_next self.old (DropTable table.now) }
    {
        if let Some(i) = place_of(self.tables.as_slice(), table) {
            self.tables.remove(i);
        }
    }
}
