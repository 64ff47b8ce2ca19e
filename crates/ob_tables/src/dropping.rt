//! DROP TABLE.
ghost use Rattle.std.specs.Prelude.{◌≡◌, ◌<◌, ℕ, [], None, Some, false, length, slice_get};
ghost use Rattle.std.specs.List.{remove};
ghost use Rattle.ob_base.specs.declared.schema.Shape.TheVariants.{Flat as FlatShape, Indexed};
ghost use Rattle.ob_oram.specs.declared.index.Index.{Index as AnIndex};
ghost use Rattle.ob_sql.specs.declared.stmt.Stmt.TheVariants.{Drop as DropTable};
ghost use Rattle.ob_tables.specs.Agreeing.{Agrees, has_ended, indexes_of, public_of, count_of};
ghost use Rattle.ob_tables.specs.Engines.{IsFlatAt, IsIndexAt};
ghost use Rattle.ob_verdict.specs.Outcomes.{refusal_now};
ghost use Rattle.ob_tables.specs.Serving.{ServesSilently};

use crate::engine::Engine;
use crate::stop::RunStop;
use ob_base::{Name, Shape};
use ob_flat::{Flat, OpErr};
use ob_oram::Index;
use ob_store::BlockStore;
use ob_vault::Revisions;
use ob_verdict::Outcome;

impl<R: Revisions> Engine<R> {
    // The index at a place leaves the list.
    fn take_index(&mut self, k: usize) -> Index
        requires { k < length (indexes_of self.old) }
        ensures taken { slice_get (indexes_of self.old) k ≡ Some result }
        ensures left { indexes_of self.new ≡ remove (indexes_of self.old) k }
        ensures rest { self.new ≡ record self.old { indexes = self.new.indexes } }
    {
        self.indexes.remove(k)
    }

    // The flat table at a place leaves the catalogue, and its region is discarded, or stays until that is listed.
    fn drop_flat<S: BlockStore>(
        &mut self,
        store: &mut S,
        table: &Name,
        i: usize,
        flat: &Flat,
    ) -> Result<Outcome, RunStop>
        requires agrees { Agrees R.state self.old (S.state store.old) }
        requires lives { has_ended self.old ≡ false }
        requires allowed { refusal_now (public_of self.old) (count_of self.old (S.state store.old))
            (DropTable table.now) ≡ None }
        requires at { IsFlatAt table.now i flat.now (public_of self.old).tables }
        ensures serves { ServesSilently R.state (DropTable table.now) [] result
            self.old (S.state store.old) self.new (S.state store.new) }
    {
        if store.reserve(1).is_err() {
            return self.cut(0, OpErr::NoMemory);
        }
        let former = self.former();
        ob_mutate::leave(store, &mut self.vault, flat.region, former);
        self.remove_table(i);
        Ok(self.finish(Outcome::Dropped))
    }

    // The same of an index, which has two regions.
    fn drop_index<S: BlockStore>(
        &mut self,
        store: &mut S,
        table: &Name,
        i: usize,
        k: usize,
    ) -> Result<Outcome, RunStop>
        requires agrees { Agrees R.state self.old (S.state store.old) }
        requires lives { has_ended self.old ≡ false }
        requires allowed { refusal_now (public_of self.old) (count_of self.old (S.state store.old))
            (DropTable table.now) ≡ None }
        requires at { IsIndexAt table.now i k (public_of self.old).tables (indexes_of self.old) }
        ensures serves { ServesSilently R.state (DropTable table.now) [] result
            self.old (S.state store.old) self.new (S.state store.new) }
    {
        if store.reserve(2).is_err() {
            return self.cut(0, OpErr::NoMemory);
        }
        let index = self.take_index(k);
        let _ = ob_oram::discard(store, &mut self.vault, index);
        self.remove_table(i);
        Ok(self.finish(Outcome::Dropped))
    }

    /// DROP TABLE: a table leaves the catalogue, and its regions are discarded, whatever the store answers.
    pub fn drop_table<S: BlockStore>(
        &mut self,
        store: &mut S,
        table: &Name,
    ) -> Result<Outcome, RunStop>
        requires agrees { Agrees R.state self.old (S.state store.old) }
        requires lives { has_ended self.old ≡ false }
        requires allowed { refusal_now (public_of self.old) (count_of self.old (S.state store.old))
            (DropTable table.now) ≡ None }
        ensures serves { ServesSilently R.state (DropTable table.now) [] result
            self.old (S.state store.old) self.new (S.state store.new) }
    {
        let (i, flat) = self.table_at(table);
        match self.public.tables.as_slice()[i].heading.shape {
            Shape::Flat => self.drop_flat(store, table, i, &flat),
            Shape::Indexed => {
                let k = self.index_of(flat.region);
                self.drop_index(store, table, i, k)
            }
        }
    }
}
