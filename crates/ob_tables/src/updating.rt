//! UPDATE.
ghost use Rattle.std.specs.Prelude.{◌≡◌, ◌≤◌, [], None, false, length, IfOk};
ghost use Rattle.ob_sql.specs.declared.stmt.Stmt.TheVariants.{Update};
ghost use Rattle.ob_mean.specs.Step.{set_cells};
ghost use Rattle.ob_mean.specs.Replay.{is_access};
ghost use Rattle.ob_sql.specs.Skeleton.{skeleton};
ghost use Rattle.ob_tables.specs.Agreeing.{Agrees, has_ended, public_of, count_of};
ghost use Rattle.ob_verdict.specs.Outcomes.{refusal_now};
ghost use Rattle.ob_tables.specs.Schemas.{IsSet};
ghost use Rattle.ob_tables.specs.Serving.{ServesSilently};
ghost use Rattle.std.specs.List.{All};

use crate::engine::Engine;
use crate::stop::RunStop;
use ob_base::{Column, Name, NoMemory};
use ob_flat::OpErr;
use ob_mean::{set_cell, where_at};
use ob_row::Cell;
use ob_sql::{Cond, Set};
use ob_store::BlockStore;
use ob_vault::Revisions;
use ob_verdict::Outcome;
use std::alloc::Global;

// The places of the columns that are set, each with its cell.
fn set_cells(alloc: Global, sets: &[Set], columns: &[Column]) -> Result<Vec<(u8, Cell)>, NoMemory>
    requires { length columns.now ≤ 32 }
    ensures value { IfOk result (λ cells. cells.items ≡ set_cells sets.now columns.now) }
    ensures held { IfOk result (λ cells. All IsSet cells.items) }
{
    let mut cells = Vec::new(alloc);
    for set in sets {
        if cells.push(set_cell(set, columns)).is_err() {
            return Err(NoMemory);
        }
    }
    Ok(cells)
}

impl<R: Revisions> Engine<R> {
    /// UPDATE of a flat table: each row that makes a condition true has other cells. The table lies in a fresh
    /// region then.
    pub fn update<S: BlockStore>(
        &mut self,
        store: &mut S,
        table: &Name,
        sets: &[Set],
        cond: &Option<Cond>,
    ) -> Result<Outcome, RunStop>
        requires agrees { Agrees R.state self.old (S.state store.old) }
        requires lives { has_ended self.old ≡ false }
        requires allowed { refusal_now (public_of self.old) (count_of self.old (S.state store.old))
            (Update table.now sets.now cond.now) ≡ None }
        requires flat { is_access (public_of self.old)
            (skeleton (Update table.now sets.now cond.now)) ≡ false }
        ensures serves { ServesSilently R.state (Update table.now sets.now cond.now) [] result
            self.old (S.state store.old) self.new (S.state store.new) }
    {
        let (i, mut flat) = self.table_at(table);
        let former = self.former();
        let Ok(pred) = where_at(self.alloc, cond, flat.schema.as_slice(), &[]) else {
            return self.cut(0, OpErr::NoMemory);
        };
        let Ok(cells) = set_cells(self.alloc, sets, flat.schema.as_slice()) else {
            return self.cut(0, OpErr::NoMemory);
        };
        let before = store.count();
        if self.make_room(store, &flat, 2).is_err() {
            return self.cut(0, OpErr::NoMemory);
        }
        match ob_mutate::update(
            store,
            &mut self.vault,
            &mut self.room,
            &mut flat,
            &pred,
            cells.as_slice(),
            former,
        ) {
            Ok(changed) => {
                self.move_table(i, flat.region);
                Ok(self.finish(Outcome::Changed(changed)))
            }
            Err(error) => self.cut(store.count() - before, error),
        }
    }
}
