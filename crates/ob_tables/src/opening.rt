//! An engine that goes on from what an earlier run closed.
ghost use Rattle.std.specs.Prelude.{◌≡◌, ◌<◌, ◌-◌, ◌^◌, ℕ, List, [], map, IfOk};
ghost use Rattle.ob_tables.specs.Reopening.{IsClosed, OpensEngine};
ghost use Rattle.ob_tables.specs.Engines.{IsConfig};
ghost use Rattle.ob_reopen.specs.declared.closing.Closing.{Closing as Named};
ghost use Rattle.ob_reopen.specs.declared.listed.Listed.{Listed as Entry};
ghost use Rattle.ob_reopen.specs.Reopened.{opened_public};

use crate::engine::{Engine, ROW_WIDTH, seen_to_end};
use ob_base::{Config, End, Items, NoMemory, Public, Table};
use ob_reopen::{Closing, Listed, Mark, OpenErr, read_closing, reopen_tables};
use ob_room::RowBuffer;
use ob_seal::{Draws, Keys};
use ob_store::Lasting;
use ob_vault::{Revisions, Vault};
use std::alloc::Global;

// The closing that a mark names.
fn closing_of(mark: &Mark) -> Closing
    requires { (pack : ℕ) × (closing : Named) × IsClosed mark.now pack closing }
    ensures { (pack : ℕ) (closing : Named) → IsClosed mark.now pack closing
        → result ≡ closing }
{
    match *mark {
        Mark::Closed {
            region,
            blocks,
            number,
            pack,
        } => Closing {
            region,
            blocks,
            number,
            pack,
        },
        Mark::Fresh | Mark::InUse | Mark::Begun | Mark::Saved { .. } => unreachable!(),
    }
}

// What is public of an engine that goes on from a closing.
pub(crate) fn public_at(config: Config, closing: Closing, tables: Items<Table>) -> Public
    requires { closing.region < 2 ^ 64 - 1 }
    ensures { (listed : List Entry) → tables ≡ map (λ (t : Entry). t.table) listed
        → result ≡ opened_public config closing listed }
{
    let saved = if config.save {
        Some(closing.region)
    } else {
        None
    };
    Public {
        tables,
        next_region: closing.region + 1,
        buffer: config.buffer,
        depth: config.depth,
        pack: config.pack,
        planner: config.planner,
        pad: config.pad,
        stash: config.stash,
        keep: config.keep,
        save: config.save,
        batch: config.batch,
        closing: saved,
    }
}

// The tables that a closing lists, without the numbers of their blocks.
pub(crate) fn tables_of(alloc: Global, listed: Items<Listed>) -> Result<Items<Table>, NoMemory>
    ensures { IfOk result (λ tables. tables ≡ map (λ (t : Entry). t.table) listed) }
{
    let tables = listed.into_vec().into_iter().map(|entry| entry.table);
    match tables.collect(alloc) {
        Ok(tables) => Ok(Items::from_vec(tables)),
        Err(_) => Err(NoMemory),
    }
}

impl<R: Revisions> Engine<R> {
    /// Opens the tables that a closing lists: the one that `mark` names, which an engine with these keys
    /// and with blocks of so many rows closed into this store. Nothing was asked of the store in this run.
    ///
    /// It opens the closing, reads each of its blocks once, in order, and opens the region of each table that
    /// it lists, in order of their names. Numbers of writes and of regions go on from the closing's.
    ///
    /// `Failed` where the store failed, or doesn't keep a region of this number and size. `Tampered` names a
    /// block of the closing that is not the one that was written there, or that spells no closing: so it ends
    /// where the keys are others, or where an older closing was put back. `NoMemory` before the first access, or
    /// where a region is opened or the tables are listed.
    pub fn open<S: Lasting>(
        alloc: Global,
        config: Config,
        keys: Keys,
        store: &mut S,
        mark: &Mark,
    ) -> Result<Engine<R>, OpenErr>
        requires config { IsConfig config }
        requires closed { (closing : Named) × IsClosed mark.now config.pack closing }
        requires fresh { (S.state store.old).asked ≡ [] }
        ensures opens { (closing : Named) → IsClosed mark.now config.pack closing
            → OpensEngine R.state config keys closing result
            (S.state store.old) (S.state store.new) }
    {
        let closing = closing_of(mark);
        // one to open the closing, one to read each of its blocks, one to open each table
        if store.reserve(2 * u64::from(closing.blocks)).is_err() {
            return Err(OpenErr::NoMemory);
        }
        let Ok(mut room) = RowBuffer::new(alloc, config.buffer, ROW_WIDTH, u32::from(config.pack))
        else {
            return Err(OpenErr::NoMemory);
        };
        let last = closing.number + u64::from(closing.blocks) - 1;
        let draws = Draws::new(keys.draw_seed());
        let mut vault = Vault::start_at(alloc, keys, closing.region + 1, last);
        let listed = read_closing(alloc, store, &mut vault, &mut room, closing)?;
        reopen_tables(store, &mut vault, closing, listed.as_slice())?;
        let Ok(tables) = tables_of(alloc, listed) else {
            return Err(OpenErr::NoMemory);
        };
        Ok(Engine {
            alloc,
            vault,
            room,
            public: public_at(config, closing, tables),
            seen: seen_to_end(End::Whole),
            ended: false,
            closing: Some(closing.region),
            replaced: None,
            indexes: Vec::new(alloc),
            draws,
        })
    }
}
