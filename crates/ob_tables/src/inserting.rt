//! INSERT.
ghost use Rattle.std.specs.Prelude.{◌≡◌, [], None, false};
ghost use Rattle.ob_sql.specs.declared.stmt.Stmt.TheVariants.{Insert};
ghost use Rattle.ob_mean.specs.Replay.{is_access};
ghost use Rattle.ob_sql.specs.Skeleton.{skeleton};
ghost use Rattle.ob_tables.specs.Agreeing.{Agrees, has_ended, public_of, count_of};
ghost use Rattle.ob_tables.specs.Running.{inserted_as};
ghost use Rattle.ob_verdict.specs.Outcomes.{refusal_now};
ghost use Rattle.ob_tables.specs.Serving.{ServesSilently};

use crate::engine::Engine;
use crate::stop::RunStop;
use ob_base::{Items, Name, Refusal};
use ob_flat::OpErr;
use ob_mean::new_row;
use ob_mutate::Inserted;
use ob_sql::Literal;
use ob_store::BlockStore;
use ob_vault::Revisions;
use ob_verdict::Outcome;

pub(crate) fn outcome_of(inserted: Inserted) -> Outcome
    ensures { result ≡ inserted_as inserted }
{
    match inserted {
        Inserted::Done => Outcome::Inserted,
        Inserted::Duplicate => Outcome::Refused(Refusal::Duplicate),
        Inserted::Full => Outcome::Refused(Refusal::Full),
    }
}

impl<R: Revisions> Engine<R> {
    /// INSERT into a flat table: a new row, in the table's first empty slot. The table lies in a fresh region then.
    pub fn insert<S: BlockStore>(
        &mut self,
        store: &mut S,
        table: &Name,
        columns: &Option<Items<Name>>,
        values: &[Literal],
    ) -> Result<Outcome, RunStop>
        requires agrees { Agrees R.state self.old (S.state store.old) }
        requires lives { has_ended self.old ≡ false }
        requires allowed { refusal_now (public_of self.old) (count_of self.old (S.state store.old))
            (Insert table.now columns.now values.now) ≡ None }
        requires flat { is_access (public_of self.old)
            (skeleton (Insert table.now columns.now values.now)) ≡ false }
        ensures serves { ServesSilently R.state (Insert table.now columns.now values.now) [] result
            self.old (S.state store.old) self.new (S.state store.new) }
    {
        let (i, mut flat) = self.table_at(table);
        let former = self.former();
        let Ok(cells) = new_row(self.alloc, &flat.schema, columns, values) else {
            return self.cut(0, OpErr::NoMemory);
        };
        let before = store.count();
        if self.make_room(store, &flat, 3).is_err() {
            return self.cut(0, OpErr::NoMemory);
        }
        let result = ob_mutate::insert(
            store,
            &mut self.vault,
            &mut self.room,
            &mut flat,
            cells.as_slice(),
            former,
        );
        let accesses = store.count() - before;
        match result {
            Ok(inserted) => {
                self.move_table(i, flat.region);
                Ok(self.finish(outcome_of(inserted)))
            }
            Err(error) => self.cut(accesses, error),
        }
    }
}
