//! DELETE.
ghost use Rattle.std.specs.Prelude.{◌≡◌, [], None, false};
ghost use Rattle.ob_sql.specs.declared.stmt.Stmt.TheVariants.{Delete};
ghost use Rattle.ob_mean.specs.Replay.{is_access};
ghost use Rattle.ob_sql.specs.Skeleton.{skeleton};
ghost use Rattle.ob_tables.specs.Agreeing.{Agrees, has_ended, public_of, count_of};
ghost use Rattle.ob_verdict.specs.Outcomes.{refusal_now};
ghost use Rattle.ob_tables.specs.Serving.{ServesSilently};

use crate::engine::Engine;
use crate::stop::RunStop;
use ob_base::Name;
use ob_flat::OpErr;
use ob_mean::where_at;
use ob_sql::Cond;
use ob_store::BlockStore;
use ob_vault::Revisions;
use ob_verdict::Outcome;

impl<R: Revisions> Engine<R> {
    /// DELETE from a flat table: the rows that make a condition true leave it. The table lies in a fresh region
    /// then.
    pub fn delete<S: BlockStore>(
        &mut self,
        store: &mut S,
        table: &Name,
        cond: &Option<Cond>,
    ) -> Result<Outcome, RunStop>
        requires agrees { Agrees R.state self.old (S.state store.old) }
        requires lives { has_ended self.old ≡ false }
        requires allowed { refusal_now (public_of self.old) (count_of self.old (S.state store.old))
            (Delete table.now cond.now) ≡ None }
        requires flat { is_access (public_of self.old)
            (skeleton (Delete table.now cond.now)) ≡ false }
        ensures serves { ServesSilently R.state (Delete table.now cond.now) [] result
            self.old (S.state store.old) self.new (S.state store.new) }
    {
        let (i, mut flat) = self.table_at(table);
        let former = self.former();
        let Ok(pred) = where_at(self.alloc, cond, flat.schema.as_slice(), &[]) else {
            return self.cut(0, OpErr::NoMemory);
        };
        let before = store.count();
        if self.make_room(store, &flat, 2).is_err() {
            return self.cut(0, OpErr::NoMemory);
        }
        match ob_mutate::delete(
            store,
            &mut self.vault,
            &mut self.room,
            &mut flat,
            &pred,
            former,
        ) {
            Ok(deleted) => {
                self.move_table(i, flat.region);
                Ok(self.finish(Outcome::Deleted(deleted)))
            }
            Err(error) => self.cut(store.count() - before, error),
        }
    }
}
