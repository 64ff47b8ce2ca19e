//! Statements on an index: each is one access of it.
ghost use Rattle.std.specs.Prelude.{◌≡◌, ◌≤◌, None, Some, false, slice_get, IfSome, IfNone, IfOk, OnErr};
ghost use Rattle.ob_base.specs.Indexes.{rows_open};
ghost use Rattle.ob_base.specs.Schemas.{width};
ghost use Rattle.ob_blocks.specs.Idle.{IsIdle};
ghost use Rattle.ob_keyed.specs.Asking.{IsOn};
ghost use Rattle.ob_mean.specs.Replay.{is_access};
ghost use Rattle.ob_oram.specs.declared.index.Index.{Index as AnIndex};
ghost use Rattle.ob_oram.specs.Indexes.{IsIndex};
ghost use Rattle.ob_oram.specs.Ops.{got_in};
ghost use Rattle.ob_oram.specs.Scripts.{script_length};
ghost use Rattle.ob_sql.specs.Skeleton.{skeleton};
ghost use Rattle.ob_store.specs.State.{StoreState};
ghost use Rattle.ob_vault.specs.Places.{at};
ghost use Rattle.ob_vault.specs.Words.{MayStart};
ghost use Rattle.ob_verdict.specs.Outcomes.{refusal_now};
ghost use Rattle.ob_tables.specs.Agreeing.{Agrees, count_of, has_ended, indexes_of, public_of};
ghost use Rattle.ob_tables.specs.Engines.{IsTreeOf};
ghost use Rattle.ob_tables.specs.Indexed.{EmitsGot, IsAccessed, IsDone, MayEmitGot};
ghost use Rattle.ob_tables.specs.Serving.{Serves};

use crate::engine::Engine;
use crate::stop::{RunStop, error_of};
use crate::tables::find_table;
use ob_base::{Emit, EmitErr, NoMemory, Schema, Shape};
use ob_flat::OpErr;
use ob_keyed::{Keyed, accesses, emit_found, outcome_of_got, seen_cut, seen_whole, sought};
use ob_oram::{Got, Index};
use ob_room::RowBuffer;
use ob_select::printed_places;
use ob_sql::Stmt;
use ob_store::BlockStore;
use ob_vault::{Revisions, Vault};
use ob_verdict::Outcome;
use std::alloc::Global;

// What a statement emits whose access of an index with these columns answers this: a SELECT its rows.
fn emit_got<E: Emit>(stmt: &Stmt, schema: &Schema, got: &Got, out: &mut E) -> Result<(), EmitErr>
    requires { MayEmitGot stmt.now schema.now }
    ensures { EmitsGot E.grew E.cut E.faults stmt.now schema.now (got_in got.now)
        result out.old out.new }
{
    if let Stmt::SelectRows(select) = stmt {
        let cols = printed_places(select, schema.as_slice(), &[]);
        emit_found(schema, cols.as_slice(), got, out)
    } else {
        Ok(())
    }
}

// A statement on the index at a place.
fn access_at<S: BlockStore, R: Revisions>(
    alloc: Global,
    store: &mut S,
    vault: &mut Vault<R>,
    room: &mut RowBuffer,
    indexes: &mut [Index],
    k: usize,
    stmt: &Stmt,
    draw: u64,
) -> Result<Keyed, NoMemory>
    requires at { (x : AnIndex) × (slice_get indexes.old k ≡ Some x)
        × MayStart (script_length x) (at R.state vault.old (S.state store.old))
        × IsIndex x (at R.state vault.old (S.state store.old)) × IsOn x stmt.now
        × IsIdle (width x.schema) room.old × (rows_open x.height x.slots ≤ room.old.rows) }
    ensures done { IfOk result (λ keyed. IsDone stmt.now k draw keyed indexes.old indexes.new
        room.old room.new (at R.state vault.old (S.state store.old))
        (at R.state vault.new (S.state store.new))) }
    ensures memory { OnErr result ((indexes.new ≡ indexes.old) × (room.new ≡ room.old)
        × (vault.new ≡ vault.old) × (store.new ≡ store.old)) }
{
    let index = &mut indexes[k];
    ob_keyed::serve(alloc, store, vault, room, index, stmt, draw)
}

impl<R: Revisions> Engine<R> {
    // The place of the index whose tree lies in this region, which there is.
    pub(crate) fn index_of(&self, region: u64) -> usize
        requires { IsTreeOf (indexes_of self.now) region }
        ensures { (x : AnIndex) × (slice_get (indexes_of self.now) result ≡ Some x)
            × (x.tree ≡ region) }
    {
        match self.indexes.iter().position(|index| index.tree == region) {
            Some(k) => k,
            None => unreachable!(),
        }
    }

    /// The place of the index that a statement accesses which is not refused before; none where it accesses
    /// no index.
    pub fn accessed(&self, stmt: &Stmt) -> Option<usize>
        requires agrees { (s : StoreState) × Agrees R.state self.now s }
        ensures some { IfSome result (λ k. IsAccessed stmt.now k (public_of self.now).tables
            (indexes_of self.now)) }
        ensures none { IfNone result (is_access (public_of self.now) (skeleton stmt.now) ≡ false) }
    {
        let Some(name) = sought(stmt) else {
            return None;
        };
        let tables = self.public.tables.as_slice();
        let Some(i) = find_table(tables, name) else {
            return None;
        };
        let table = &tables[i];
        match table.heading.shape {
            Shape::Flat => None,
            Shape::Indexed => Some(self.index_of(table.region)),
        }
    }

    /// Carries out a statement on the index at a place, which is not refused before its access: takes one draw,
    /// makes the one access, and gives the rows that a SELECT found to the emitter. An access that gave up ends
    /// the session, and so does an emitter that fails or wants memory. Want of memory before the access asks
    /// nothing of the store.
    pub fn serve_index<S: BlockStore, E: Emit>(
        &mut self,
        store: &mut S,
        k: usize,
        stmt: &Stmt,
        out: &mut E,
    ) -> Result<Outcome, RunStop>
        requires agrees { Agrees R.state self.old (S.state store.old) }
        requires lives { has_ended self.old ≡ false }
        requires allowed { refusal_now (public_of self.old) (count_of self.old (S.state store.old))
            stmt.now ≡ None }
        requires index { IsAccessed stmt.now k (public_of self.old).tables (indexes_of self.old) }
        ensures serves { Serves R.state E.grew E.cut E.faults stmt.now result
            self.old (S.state store.old) self.new (S.state store.new) out.old out.new }
    {
        let before = store.count();
        if store.reserve(accesses(&self.indexes[k])).is_err() {
            return self.cut(0, OpErr::NoMemory);
        }
        let draw = self.draws.next();
        let Ok(keyed) = access_at(
            self.alloc,
            store,
            &mut self.vault,
            &mut self.room,
            self.indexes.as_mut_slice(),
            k,
            stmt,
            draw,
        ) else {
            return self.cut(0, OpErr::NoMemory);
        };
        let Keyed { leaf, result } = keyed;
        let asked = store.count() - before;
        let cut = seen_cut(u32::from(self.public.stash), leaf, asked);
        match result {
            Ok(got) => match emit_got(stmt, &self.indexes[k].schema, &got, out) {
                Ok(()) => {
                    let outcome = outcome_of_got(stmt, &got);
                    Ok(self.finish_seen(seen_whole(leaf), outcome))
                }
                Err(error) => self.cut_seen(cut, asked, error_of(error)),
            },
            Err(error) => Err(self.stop_access(cut, error)),
        }
    }
}
