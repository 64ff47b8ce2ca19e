//! CREATE TABLE.
ghost use Rattle.std.specs.Prelude.{◌≡◌, ◌≤◌, ◌+◌, ◌%◌, ◌^◌, [], None, false, length, IfOk, OnOk};
ghost use Rattle.ob_base.specs.Lists.{tabulate};
ghost use Rattle.ob_base.specs.declared.schema.Shape.TheVariants.{Flat as FlatShape, Indexed};
ghost use Rattle.ob_seal.specs.Draws.{draw_at};
ghost use Rattle.ob_sql.specs.declared.stmt.Stmt.TheVariants.{Create};
ghost use Rattle.ob_tables.specs.Agreeing.{Agrees, has_ended, public_of, count_of};
ghost use Rattle.ob_verdict.specs.Outcomes.{refusal_now};
ghost use Rattle.ob_tables.specs.Serving.{ServesSilently};

use crate::engine::Engine;
use crate::stop::RunStop;
use ob_base::{Heading, Name, NewColumn, NoMemory, Schema, Shape, Table, tree_height};
use ob_flat::OpErr;
use ob_mean::new_schema;
use ob_script::tree_blocks;
use ob_seal::Draws;
use ob_store::BlockStore;
use ob_vault::Revisions;
use ob_verdict::Outcome;
use std::alloc::Global;

// A new table as the engine keeps it.
fn new_table(name: &Name, schema: &Schema, capacity: u32, shape: Shape, region: u64) -> Table
    ensures value { result ≡ record {
      heading = record { name = name.now; schema = schema.now; capacity = capacity; shape = shape };
      region = region;
    } }
    ensures short { length name.now ≤ 32 }
{
    Table {
        heading: Heading {
            name: Name::from_bytes(name.as_bytes()),
            schema: schema.copied(),
            capacity,
            shape,
        },
        region,
    }
}

// The next draws, one for each key of a new index.
fn next_draws(alloc: Global, draws: &mut Draws, keys: u32) -> Result<Vec<u64>, NoMemory>
    requires { 1 ≤ keys }
    ensures list { IfOk result (λ list. list.items
        ≡ tabulate keys (λ i. draw_at draws.old.key (draws.old.next + i))) }
    ensures next { OnOk result (draws.new ≡ record draws.old {
      next = (draws.old.next + keys) % 2 ^ 67;
    }) }
    ensures key { draws.new.key ≡ draws.old.key }
{
    let Ok(mut list) = Vec::with_capacity(alloc, keys as usize) else {
        return Err(NoMemory);
    };
    'each: for i in 0..keys {
        list.push_reserved(draws.next());
    }
    Ok(list)
}

impl<R: Revisions> Engine<R> {
    // A new flat table, filled with dummies.
    fn create_flat<S: BlockStore>(
        &mut self,
        store: &mut S,
        table: &Name,
        columns: &[NewColumn],
        capacity: u32,
    ) -> Result<Outcome, RunStop>
        requires agrees { Agrees R.state self.old (S.state store.old) }
        requires lives { has_ended self.old ≡ false }
        requires allowed { refusal_now (public_of self.old) (count_of self.old (S.state store.old))
            (Create table.now columns.now capacity FlatShape) ≡ None }
        ensures serves { ServesSilently R.state (Create table.now columns.now capacity FlatShape)
            [] result self.old (S.state store.old) self.new (S.state store.new) }
    {
        let before = store.count();
        let schema = new_schema(table, columns);
        let blocks = capacity.div_ceil(u32::from(self.public.pack));
        if store.reserve(1 + u64::from(blocks)).is_err() {
            return self.cut(0, OpErr::NoMemory);
        }
        let region = self.public.next_region;
        let new = new_table(table, &schema, capacity, Shape::Flat, region);
        if self.public.tables.push(new).is_err() {
            return self.cut(0, OpErr::NoMemory);
        }
        match ob_flat::create(store, &mut self.vault, &mut self.room, &schema, capacity) {
            Ok(_flat) => Ok(self.finish(Outcome::Created)),
            Err(error) => {
                let _ = self.public.tables.pop();
                self.cut(store.count() - before, error)
            }
        }
    }

    // A new index, whose tree and stash are filled with dummies: one draw for each key.
    fn create_index<S: BlockStore>(
        &mut self,
        store: &mut S,
        table: &Name,
        columns: &[NewColumn],
        capacity: u32,
    ) -> Result<Outcome, RunStop>
        requires agrees { Agrees R.state self.old (S.state store.old) }
        requires lives { has_ended self.old ≡ false }
        requires allowed { refusal_now (public_of self.old) (count_of self.old (S.state store.old))
            (Create table.now columns.now capacity Indexed) ≡ None }
        ensures serves { ServesSilently R.state (Create table.now columns.now capacity Indexed)
            [] result self.old (S.state store.old) self.new (S.state store.new) }
    {
        let before = store.count();
        let schema = new_schema(table, columns);
        let slots = u32::from(self.public.stash);
        let blocks = u64::from(tree_blocks(tree_height(capacity))) + u64::from(slots);
        if store.reserve(2 + blocks).is_err() || self.indexes.reserve(1).is_err() {
            return self.cut(0, OpErr::NoMemory);
        }
        let Ok(draws) = next_draws(self.alloc, &mut self.draws, capacity) else {
            return self.cut(0, OpErr::NoMemory);
        };
        let region = self.public.next_region;
        let new = new_table(table, &schema, capacity, Shape::Indexed, region);
        if self.public.tables.push(new).is_err() {
            return self.cut(0, OpErr::NoMemory);
        }
        match ob_oram::create(
            self.alloc,
            store,
            &mut self.vault,
            &mut self.room,
            &schema,
            capacity,
            slots,
            draws.as_slice(),
        ) {
            Ok(index) => {
                self.indexes.push_reserved(index);
                Ok(self.finish(Outcome::Created))
            }
            Err(error) => {
                let _ = self.public.tables.pop();
                self.cut(store.count() - before, error)
            }
        }
    }

    /// CREATE TABLE: a new table of this shape, whose blocks are filled with dummies; an index takes a draw for
    /// each of its keys.
    pub fn create<S: BlockStore>(
        &mut self,
        store: &mut S,
        table: &Name,
        columns: &[NewColumn],
        capacity: u32,
        shape: Shape,
    ) -> Result<Outcome, RunStop>
        requires agrees { Agrees R.state self.old (S.state store.old) }
        requires lives { has_ended self.old ≡ false }
        requires allowed { refusal_now (public_of self.old) (count_of self.old (S.state store.old))
            (Create table.now columns.now capacity shape) ≡ None }
        ensures serves { ServesSilently R.state (Create table.now columns.now capacity shape) []
            result self.old (S.state store.old) self.new (S.state store.new) }
    {
        match shape {
            Shape::Flat => self.create_flat(store, table, columns, capacity),
            Shape::Indexed => self.create_index(store, table, columns, capacity),
        }
    }
}
