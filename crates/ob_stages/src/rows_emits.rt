//! What a SELECT of rows in flight emits.
ghost use Rattle.std.specs.Prelude.{◌≡◌, ◌≤◌, ◌<◌, ◌+◌, ◌*◌, ℕ, List, length};
ghost use Rattle.ob_vault.specs.Places.{at};
ghost use Rattle.ob_vault.specs.Rows.{SameSizes};
ghost use Rattle.ob_flat.specs.Emission.{Takes};
ghost use Rattle.ob_flat.specs.Scans.{MayScan};
ghost use Rattle.ob_flat.specs.Words.{FitBlock, HasSpare, blocks_of};
ghost use Rattle.ob_emit.specs.Emitting.{AreColumns};
ghost use Rattle.ob_stages.specs.RowsStates.{rows_at, rows_selection};
ghost use Rattle.ob_stages.specs.RowsHolds.{FitsBlock, is_headless, left_of};
ghost use Rattle.ob_stages.specs.RowsSteps.{Answers, IsHeldIn, LoudStep, ShowsBlock, StepsAt};

use crate::faults::is_fault;
use crate::rows::{RowsFlight, Stage};
use ob_base::{Emit, EmitErr, Refusal, Shown};
use ob_emit::{emit_block, emit_head, walk_block};
use ob_flat::{Flat, OpErr};
use ob_room::ClearRow;
use ob_store::BlockStore;
use ob_vault::{Revisions, Vault};
use ob_verdict::Outcome;
use std::array;

// Emits its header where it is still to be.
fn begin<E: Emit>(flight: &RowsFlight<'_>, first: bool, out: &mut E) -> Result<(), EmitErr>
    requires { AreColumns (rows_selection flight.now).flat.schema (rows_selection flight.now).cols }
    ensures { Takes E.grew E.cut E.faults (left_of first (rows_selection flight.now)) result out.old
        out.new }
{
    if !first {
        return Ok(());
    }
    emit_head(&flight.flat.schema, flight.cols.as_slice(), out)
}

// Reads a block of its result, and emits its rows, after the header at the first block; of a result that is refused it emits
// nothing. Answers how many rows it has emitted by then.
fn show<S: BlockStore, R: Revisions, E: Emit>(
    flight: &RowsFlight<'_>,
    store: &mut S,
    vault: &mut Vault<R>,
    rows: &mut [ClearRow],
    fresh: &Flat,
    place: u32,
    out: &mut E,
) -> Result<u32, OpErr>
    requires spare { HasSpare 1 (at R.state vault.old (S.state store.old)) }
    requires table { MayScan (length rows.old) fresh.now
        (at R.state vault.old (S.state store.old)) }
    requires within { place < blocks_of (length rows.old) fresh.now }
    requires fit { FitBlock fresh.now.schema rows.old }
    requires same { fresh.now.schema ≡ (rows_selection flight.now).flat.schema }
    requires columns { AreColumns (rows_selection flight.now).flat.schema
        (rows_selection flight.now).cols }
    requires shown { (flight.now.shown ≤ place * length rows.old)
        × (flight.now.shown ≤ fresh.now.capacity) }
    ensures spent { (S.state store.old).spare ≤ (S.state store.new).spare + 1 }
    ensures rows { SameSizes rows.old rows.new }
    ensures shows { ShowsBlock E.grew E.cut E.faults (length rows.old) (rows_at flight.now)
        fresh.now
        place result (at R.state vault.old (S.state store.old))
        (at R.state vault.new (S.state store.new)) out.old out.new }
{
    if flight.passes_pad() {
        return match walk_block(store, vault, rows, fresh, place) {
            Ok(()) => Ok(0),
            Err(error) => Err(error),
        };
    }
    match begin(flight, place == 0, out) {
        Ok(()) => {}
        Err(EmitErr::Failed) => return Err(OpErr::Sink),
        Err(EmitErr::NoMemory) => return Err(OpErr::NoMemory),
    }
    let mut cells: [Shown; 32] = array::from_fn(|_| Shown::Null);
    let cols = flight.cols.as_slice();
    emit_block(
        store,
        vault,
        rows,
        fresh,
        cols,
        place,
        flight.shown,
        &mut cells,
        out,
    )
}

// Emits what is left of its answer, and answers it.
pub(crate) fn answer<E: Emit>(flight: &RowsFlight<'_>, out: &mut E) -> Result<Outcome, EmitErr>
    requires { AreColumns (rows_selection flight.now).flat.schema (rows_selection flight.now).cols }
    ensures { Answers E.grew E.cut E.faults (rows_at flight.now) result out.old out.new }
{
    if flight.failed {
        return Ok(Outcome::Refused(Refusal::StoreFault));
    }
    if flight.passes_pad() {
        return Ok(Outcome::Refused(Refusal::PadPassed));
    }
    match begin(flight, flight.is_headless(), out) {
        Ok(()) => {}
        Err(error) => return Err(error),
    }
    let shown = u64::from(flight.shown);
    match out.close(shown) {
        Ok(()) => Ok(Outcome::Rows(shown)),
        Err(error) => Err(error),
    }
}

impl<'a> RowsFlight<'a> {
    // Whether its header is to be emitted at its end: of no rows no result was made.
    pub(crate) fn is_headless(&self) -> bool
        ensures { result ≡ is_headless (rows_selection self.now).public.pad self.now.k }
    {
        self.public.pad.is_none() && self.k == 0
    }

    // Reads a block of its result back, and emits its rows.
    pub(crate) fn emit<S: BlockStore, R: Revisions, E: Emit>(
        &mut self,
        store: &mut S,
        vault: &mut Vault<R>,
        rows: &mut [ClearRow],
        others: u64,
        place: u32,
        out: &mut E,
    ) -> Result<(), OpErr>
        requires steps { StepsAt (rows_at self.old) (Stage.Emit place) others
            (at R.state vault.old (S.state store.old)) }
        requires fit { FitsBlock (rows_selection self.old) rows.old }
        requires held { IsHeldIn (rows_at self.old) (at R.state vault.old (S.state store.old)) }
        ensures rows { SameSizes rows.old rows.new }
        ensures loud { (kept : List (List ℕ)) → LoudStep E.grew E.cut E.faults (rows_at self.old)
            (rows_at self.new) others kept result (at R.state vault.old (S.state store.old))
            (at R.state vault.new (S.state store.new)) out.old out.new }
    {
        let Some(region) = self.region else {
            unreachable!()
        };
        let fresh = self.result(region);
        match show(self, store, vault, rows, &fresh, place, out) {
            Ok(shown) => {
                self.shown = shown;
                let stage = self.after_emit(place);
                self.go(stage);
                Ok(())
            }
            Err(error) => {
                if is_fault(error) {
                    self.fail(vault);
                    Ok(())
                } else {
                    Err(error)
                }
            }
        }
    }
}
