//! SELECT of totals: aggregates, and GROUP BY.
ghost use Rattle.std.specs.Prelude.{◌≡◌, None, false};
ghost use Rattle.ob_sql.specs.declared.stmt.Stmt.TheVariants.{SelectTotals as TotalsStmt};
ghost use Rattle.ob_tables.specs.Agreeing.{Agrees, has_ended, public_of, count_of};
ghost use Rattle.ob_verdict.specs.Outcomes.{refusal_now};
ghost use Rattle.ob_tables.specs.Serving.{Serves};

use crate::totalling::{answer_totals, buckets_for};
use ob_base::Emit;
use ob_flat::OpErr;
use ob_mean::where_at;
use ob_sql::SelectTotals;
use ob_store::BlockStore;
use ob_tables::{Engine, RunStop};
use ob_vault::Revisions;
use ob_verdict::Outcome;

// Aggregates of a table's rows, or of each group of them.
pub(crate) fn select_totals<S: BlockStore, R: Revisions, E: Emit>(
    engine: &mut Engine<R>,
    store: &mut S,
    select: &SelectTotals,
    out: &mut E,
) -> Result<Outcome, RunStop>
    requires agrees { Agrees R.state engine.old (S.state store.old) }
    requires lives { has_ended engine.old ≡ false }
    requires allowed { refusal_now (public_of engine.old) (count_of engine.old (S.state store.old))
        (TotalsStmt select.now) ≡ None }
    ensures serves { Serves R.state E.grew E.cut E.faults (TotalsStmt select.now) result
        engine.old (S.state store.old) engine.new (S.state store.new) out.old out.new }
{
    let (_, flat) = engine.table_at(&select.table);
    let Ok(pred) = where_at(engine.alloc, &select.cond, flat.schema.as_slice(), &[]) else {
        return engine.cut(0, OpErr::NoMemory);
    };
    let Ok(mut buckets) = buckets_for(engine.alloc, select, engine.room.rows()) else {
        return engine.cut(0, OpErr::NoMemory);
    };
    let before = store.count();
    let blocks = flat.capacity.div_ceil(u32::from(engine.public.pack));
    if store.reserve(u64::from(blocks)).is_err() {
        return engine.cut(0, OpErr::NoMemory);
    }
    match answer_totals(
        store,
        &mut engine.vault,
        &mut engine.room,
        &mut buckets,
        &flat,
        &pred,
        select,
        out,
    ) {
        Ok(outcome) => Ok(engine.finish(outcome)),
        Err(error) => engine.cut(store.count() - before, error),
    }
}
