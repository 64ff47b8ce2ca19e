//! SELECTs that ask in turns.
ghost use Rattle.std.specs.Prelude.{◌≡◌, ◌≤◌, ◌+◌, ◌*◌, false, length, max, ℕ, List, OnOk, IfErr};
ghost use Rattle.std.specs.Result.{is_err};
ghost use Rattle.ob_blocks.specs.Idle.{IsIdle};
ghost use Rattle.ob_flat.specs.Passes.{SinkCause};
ghost use Rattle.ob_inflight.specs.FlightOutcome.{HasFlown, StopsFlight};
ghost use Rattle.ob_inflight.specs.Kinds.{kind_of, moment, taker_of};
ghost use Rattle.ob_vault.specs.Places.{at};
ghost use Rattle.ob_tables.specs.Agreeing.{Agrees, count_of, has_ended, public_of};
ghost use Rattle.ob_exec.specs.Boarding.{MaySetOff, engine_behind};
ghost use Rattle.ob_exec.specs.GivenUp.{GaveUpFrom};
ghost use Rattle.ob_exec.specs.InFlight.{AreFlight};
ghost use Rattle.ob_exec.specs.RanFlight.{RanFlight, halt_of, halted};

use crate::boarding::{board_all, see_all, see_first};
use ob_base::Seen;
use ob_flat::OpErr;
use ob_inflight::{FlightOut, Flyer, Turns, booked_by, fly};
use ob_room::RowBuffer;
use ob_sql::Stmt;
use ob_store::BlockStore;
use ob_tables::{Engine, LATE, RunStop};
use ob_vault::{Revisions, Vault};

// Statements fly, each with so many rows of the room beside those of a block, which they share; then all rows are free
// again.
fn fly_in_room<S: BlockStore, R: Revisions, F: Flyer, T: Turns, E: FlightOut>(
    store: &mut S,
    vault: &mut Vault<R>,
    room: &mut RowBuffer,
    flyers: &mut [F],
    share: u32,
    turns: &mut T,
    out: &mut E,
) -> Result<(), OpErr>
    requires room { IsIdle 1024 room.old }
    requires few { length flyers.old ≤ 8 }
    requires most { room.old.rows ≤ 65536 }
    requires rows { room.old.pack + length flyers.old * share ≤ room.old.rows }
    requires boarded { MaySetOff (kind_of F.progress F.May F.Needs F.Fits F.Holds F.Halts)
        room.old.pack share flyers.old (at R.state vault.old (S.state store.old)) }
    ensures size { length flyers.new ≡ length flyers.old }
    ensures room { room.new ≡ record room.old {
      high = max room.old.high (room.old.pack + length flyers.old * share);
    } }
    ensures flown { OnOk result ((shares kept : List (List ℕ)) × HasFlown
        (kind_of F.progress F.May F.Needs F.Fits F.Holds F.Halts)
        (taker_of E.grew E.cut E.closed E.parted) (T.word turns.old) (T.word turns.new) share
        (moment flyers.old shares (at R.state vault.old (S.state store.old)))
        (moment flyers.new kept (at R.state vault.new (S.state store.new))) out.old out.new) }
    ensures stopped { IfErr result (λ e. (shares kept : List (List ℕ)) × StopsFlight
        (kind_of F.progress F.May F.Needs F.Fits F.Holds F.Halts)
        (taker_of E.grew E.cut E.closed E.parted) (T.word turns.old) share e
        (moment flyers.old shares (at R.state vault.old (S.state store.old)))
        (moment flyers.new kept (at R.state vault.new (S.state store.new))) out.old out.new) }
    ensures sink { SinkCause result (E.faults out.old) (E.faults out.new) }
{
    let pack = room.pack();
    let open = room.open(pack + flyers.len() as u32 * share);
    let (rows, kept) = open.split_at_mut(pack as usize);
    let flown = fly(store, vault, rows, kept, share as usize, flyers, turns, out);
    room.clear_shelf();
    flown
}

// Carries out SELECTs in turns except for what follows them.
fn fly_all<S: BlockStore, R: Revisions, T: Turns, E: FlightOut>(
    engine: &mut Engine<R>,
    store: &mut S,
    stmts: &[Stmt],
    turns: &mut T,
    out: &mut E,
    seens: &mut [Seen],
) -> Result<(), OpErr>
    requires agrees { Agrees R.state engine.old (S.state store.old) }
    requires lives { has_ended engine.old ≡ false }
    requires flight { AreFlight (public_of engine.old)
        (count_of engine.old (S.state store.old)) stmts.now }
    requires each { length seens.old ≡ length stmts.now }
    ensures ran { RanFlight R.state E.grew E.cut E.closed E.parted E.faults
        (T.word turns.old) (T.word turns.new) stmts.now seens.new (halted result)
        engine.old (S.state store.old)
        (engine_behind engine.old engine.new.vault engine.new.room (is_err result))
        (S.state store.new) out.old out.new }
    ensures frame { engine.new
        ≡ record engine.old { vault = engine.new.vault; room = engine.new.room } }
{
    let late = engine.vault.spent(store) >= LATE;
    see_first(late, &engine.public, stmts, seens);
    let pack = u32::from(engine.public.pack);
    let share = (engine.public.buffer / stmts.len() as u32 - 2 * pack) / pack * pack;
    let Ok(mut flights) = board_all(engine.alloc, late, &engine.public, share, stmts) else {
        return Err(OpErr::NoMemory);
    };
    if store.reserve(booked_by(&flights)).is_err() {
        return Err(OpErr::NoMemory);
    }
    let flown = fly_in_room(
        store,
        &mut engine.vault,
        &mut engine.room,
        &mut flights,
        share,
        turns,
        out,
    );
    see_all(&flights, seens);
    flown
}

// The stop that an error makes.
fn stop_of(error: OpErr) -> RunStop
    ensures { result ≡ halt_of error }
{
    match error {
        OpErr::Failed => RunStop::StoreFault,
        OpErr::Tampered { region, place } => RunStop::Tampered { region, place },
        OpErr::Sink => RunStop::SinkFault,
        OpErr::NoMemory => RunStop::NoMemory,
    }
}

/// Carries out SELECTs without a join, of tables that aren't indexed, that ask the store in turns: each turn is one access
/// of one of them, or the end of the first that hasn't ended, by a word of `turns`.
///
/// Each is answered, and seen, as if the others weren't there, over the tables before, with its part of the rows that may
/// be open: `seens` has what was seen of each. Answers end in the order of the list, and the emitter has the rows of one
/// before those of the next. None changes a table, and none is saved. What had ended before a changed block was read is
/// answered so, whatever is read then.
///
/// Whatever the store does, its accesses are those that the words merge of what each asks by what is seen of it, or the
/// first of them where one stops the flight, as in `run`; then the session has ended, and of those that hadn't ended
/// `seens` has what was seen by then. One that the store fails is refused so, and doesn't stop the others; after the
/// last one the regions that the flight made are given up, so that what a failed one left doesn't stay.
pub fn run_flight<S: BlockStore, R: Revisions, T: Turns, E: FlightOut>(
    engine: &mut Engine<R>,
    store: &mut S,
    stmts: &[Stmt],
    turns: &mut T,
    out: &mut E,
    seens: &mut [Seen],
) -> Result<(), RunStop>
    requires agrees { Agrees R.state engine.old (S.state store.old) }
    requires lives { has_ended engine.old ≡ false }
    requires flight { AreFlight (public_of engine.old)
        (count_of engine.old (S.state store.old)) stmts.now }
    requires each { length seens.old ≡ length stmts.now }
    ensures ran { RanFlight R.state E.grew E.cut E.closed E.parted E.faults
        (T.word turns.old) (T.word turns.new) stmts.now seens.new result
        engine.old (S.state store.old) engine.new (S.state store.new) out.old out.new }
    ensures given_up { OnOk result (GaveUpFrom (public_of engine.old).next_region
        (S.given_up store.new) (S.state store.new)) }
{
    let from = engine.public().next_region;
    match fly_all(engine, store, stmts, turns, out, seens) {
        Ok(()) => {
            engine.end_flight(false);
            engine.vault.give_up(store, from);
            Ok(())
        }
        Err(error) => {
            engine.end_flight(true);
            Err(stop_of(error))
        }
    }
}
