//! The turns of statements in flight.
ghost use Rattle.std.specs.Prelude.{◌≡◌, ◌≤◌, ◌<◌, ◌+◌, ◌*◌, ◌^◌, ℕ, true, List, drop, length, map, slice_get, slice_index_or, IfOk, IfErr, OnOk, Some};
ghost use Rattle.ob_flat.specs.Passes.{SinkCause};
ghost use Rattle.ob_inflight.specs.AfterTurns.{AreBoarded};
ghost use Rattle.ob_inflight.specs.Answers.{error_of};
ghost use Rattle.ob_inflight.specs.FlightOutcome.{HasFlown, StopsFlight};
ghost use Rattle.ob_inflight.specs.Kinds.{kind_of, moment, share_at, taker_of};
ghost use Rattle.ob_inflight.specs.Parts.{EndsAt, MayEnd, MayStep, MayTurn, StepsAt, TakesTurn, left_to};
ghost use Rattle.ob_inflight.specs.Picking.{going};
ghost use Rattle.ob_script.specs.FlightLaws.{total};
ghost use Rattle.ob_script.specs.Flights.{place_by};
ghost use Rattle.ob_vault.specs.Places.{at};
ghost use Rattle.ob_vault.specs.Rows.{SameSizes};

use crate::flyer::Flyer;
use crate::out::FlightOut;
use crate::turns::Turns;
use ob_base::{Emit, EmitErr};
use ob_flat::OpErr;
use ob_room::ClearRow;
use ob_store::BlockStore;
use ob_vault::{Revisions, Vault};

// How many of these may go: the first, if it is among them, and those whose next act doesn't print.
#[tactic(auto, unfolding(crate::specs::Picking::going))]
fn count_going<F: Flyer>(flyers: &[F], first: bool) -> usize
    ensures few { result ≤ length flyers.now }
    ensures some { first ≡ true → 1 ≤ length flyers.now → 1 ≤ result }
    ensures count { (place : ℕ)
        → result ≡ length (going first place (map (λ f. (F.progress f).prints) flyers.now)) }
{
    match flyers.split_first() {
        None => 0,
        Some((flyer, more)) => {
            let rest = count_going(more, false);
            let printing = flyer.prints();
            if !first && printing { rest } else { rest + 1 }
        }
    }
}

// The place of the one of those that is number `k`, where the first of these has this place.
#[tactic(auto, unfolding(crate::specs::Picking::going))]
fn place_going<F: Flyer>(flyers: &[F], first: bool, place: usize, k: usize) -> usize
    requires within { k < length (going first place (map (λ f. (F.progress f).prints) flyers.now)) }
    requires places { place + length flyers.now < 2 ^ 63 }
    ensures { (none : ℕ) → result ≡ slice_index_or
        (going first place (map (λ f. (F.progress f).prints) flyers.now)) k none }
{
    match flyers.split_first() {
        None => unreachable!(),
        Some((flyer, more)) => {
            let printing = flyer.prints();
            if !first && printing {
                place_going(more, false, place + 1, k)
            } else if k == 0 {
                place
            } else {
                place_going(more, false, place + 1, k - 1)
            }
        }
    }
}

// The place of the one that a word picks, where the first ones have ended.
fn picked<F: Flyer>(flyers: &[F], ended: usize, word: u64) -> usize
    requires few { length flyers.now ≤ 8 }
    requires some { ended < length flyers.now }
    ensures within { result < length flyers.now }
    ensures place { (none : ℕ) → result ≡ place_by word none
        (going true ended (map (λ f. (F.progress f).prints) (drop ended flyers.now))) }
{
    let (_ended, open) = flyers.split_at(ended);
    let n = count_going(open, true);
    place_going(open, true, ended, (word % n as u64) as usize)
}

/// For how many of their accesses the store is to have room.
#[tactic(auto, unfolding(ob_script::specs::FlightLaws::total))]
pub fn booked_by<F: Flyer>(flyers: &[F]) -> u64
    requires { total (λ f. (F.progress f).booked) flyers.now < 2 ^ 64 }
    ensures { result ≡ total (λ f. (F.progress f).booked) flyers.now }
{
    match flyers.split_first() {
        None => 0,
        Some((flyer, more)) => {
            let rest = booked_by(more);
            rest + flyer.booked()
        }
    }
}

// The statement at a place asks its next access, through its share of the kept rows.
fn step_at<S: BlockStore, R: Revisions, F: Flyer, E: FlightOut>(
    store: &mut S,
    vault: &mut Vault<R>,
    rows: &mut [ClearRow],
    kept: &mut [ClearRow],
    share: usize,
    flyers: &mut [F],
    place: usize,
    out: &mut E,
) -> Result<(), OpErr>
    requires may { MayStep (kind_of F.progress F.May F.Needs F.Fits F.Holds F.Halts)
        share place rows.old
        (moment flyers.old kept.old (at R.state vault.old (S.state store.old))) }
    requires within { place < length flyers.old }
    ensures rows { SameSizes rows.old rows.new }
    ensures kept { SameSizes kept.old kept.new }
    ensures steps { StepsAt (kind_of F.progress F.May F.Needs F.Fits F.Holds F.Halts)
        (taker_of E.grew E.cut E.closed E.parted) share place result rows.new
        (moment flyers.old kept.old (at R.state vault.old (S.state store.old)))
        (moment flyers.new kept.new (at R.state vault.new (S.state store.new)))
        out.old out.new }
    ensures sink { SinkCause result (E.faults out.old) (E.faults out.new) }
{
    let others = booked_by(flyers) - flyers[place].booked();
    let (_front, rest) = kept.split_at_mut(place * share);
    let (own, _back) = rest.split_at_mut(share);
    flyers[place].step(store, vault, rows, own, others, out)
}

fn op_error(e: EmitErr) -> OpErr
    ensures { result ≡ error_of e }
{
    match e {
        EmitErr::Failed => OpErr::Sink,
        EmitErr::NoMemory => OpErr::NoMemory,
    }
}

// The statement at a place emits what is left of its answer, and how it was answered is taken.
fn end_at<F: Flyer, E: FlightOut>(
    kept: &[ClearRow],
    share: usize,
    flyers: &mut [F],
    place: usize,
    out: &mut E,
) -> Result<(), OpErr>
    requires may { MayEnd (kind_of F.progress F.May F.Needs F.Fits F.Holds F.Halts)
        share place flyers.old
        kept.now }
    requires within { place < length flyers.old }
    ensures ends { EndsAt (kind_of F.progress F.May F.Needs F.Fits F.Holds F.Halts)
        (taker_of E.grew E.cut E.closed E.parted) place (share_at share place kept.now) result
        flyers.old flyers.new out.old out.new }
    ensures sink { SinkCause result (E.faults out.old) (E.faults out.new) }
{
    let (_front, rest) = kept.split_at(place * share);
    let (own, _back) = rest.split_at(share);
    let outcome = match flyers[place].finish(own, out) {
        Ok(outcome) => outcome,
        Err(e) => return Err(op_error(e)),
    };
    match out.ended(place as u32, &outcome) {
        Ok(()) => Ok(()),
        Err(e) => Err(op_error(e)),
    }
}

// One turn: an access of the statement that a word picks, or its end. Gives how many have ended.
fn fly_turn<S: BlockStore, R: Revisions, F: Flyer, E: FlightOut>(
    store: &mut S,
    vault: &mut Vault<R>,
    rows: &mut [ClearRow],
    kept: &mut [ClearRow],
    share: usize,
    flyers: &mut [F],
    ended: usize,
    word: u64,
    out: &mut E,
) -> Result<usize, OpErr>
    requires { MayTurn (kind_of F.progress F.May F.Needs F.Fits F.Holds F.Halts)
        share ended rows.old
        (moment flyers.old kept.old (at R.state vault.old (S.state store.old))) }
    ensures rows { SameSizes rows.old rows.new }
    ensures kept { SameSizes kept.old kept.new }
    ensures turn { TakesTurn (kind_of F.progress F.May F.Needs F.Fits F.Holds F.Halts)
        (taker_of E.grew E.cut E.closed E.parted) word share ended result rows.old rows.new
        (moment flyers.old kept.old (at R.state vault.old (S.state store.old)))
        (moment flyers.new kept.new (at R.state vault.new (S.state store.new)))
        out.old out.new }
    ensures less { IfOk result (λ more.
        left_to (kind_of F.progress F.May F.Needs F.Fits F.Holds F.Halts) more flyers.new
        < left_to (kind_of F.progress F.May F.Needs F.Fits F.Holds F.Halts) ended flyers.old) }
    ensures sink { SinkCause result (E.faults out.old) (E.faults out.new) }
{
    let place = picked(flyers, ended, word);
    if flyers[place].is_over() {
        match end_at(kept, share, flyers, place, out) {
            Ok(()) => Ok(ended + 1),
            Err(e) => Err(e),
        }
    } else {
        match step_at(store, vault, rows, kept, share, flyers, place, out) {
            Ok(()) => Ok(ended),
            Err(e) => Err(e),
        }
    }
}

/// Statements go on in turns, as the words tell, until all have ended: each turn is an access of one of them, or its end.
///
/// Each has `share` of the kept rows, in the order of the list.
pub fn fly<S: BlockStore, R: Revisions, F: Flyer, T: Turns, E: FlightOut>(
    store: &mut S,
    vault: &mut Vault<R>,
    rows: &mut [ClearRow],
    kept: &mut [ClearRow],
    share: usize,
    flyers: &mut [F],
    turns: &mut T,
    out: &mut E,
) -> Result<(), OpErr>
    requires boarded { AreBoarded (kind_of F.progress F.May F.Needs F.Fits F.Holds F.Halts)
        share rows.old
        (moment flyers.old kept.old (at R.state vault.old (S.state store.old))) }
    ensures rows { SameSizes rows.old rows.new }
    ensures kept { SameSizes kept.old kept.new }
    ensures flown { OnOk result (HasFlown
        (kind_of F.progress F.May F.Needs F.Fits F.Holds F.Halts)
        (taker_of E.grew E.cut E.closed E.parted) (T.word turns.old) (T.word turns.new) share
        (moment flyers.old kept.old (at R.state vault.old (S.state store.old)))
        (moment flyers.new kept.new (at R.state vault.new (S.state store.new)))
        out.old out.new) }
    ensures stopped { IfErr result (λ e. StopsFlight
        (kind_of F.progress F.May F.Needs F.Fits F.Holds F.Halts)
        (taker_of E.grew E.cut E.closed E.parted) (T.word turns.old) share e
        (moment flyers.old kept.old (at R.state vault.old (S.state store.old)))
        (moment flyers.new kept.new (at R.state vault.new (S.state store.new)))
        out.old out.new) }
    ensures sink { SinkCause result (E.faults out.old) (E.faults out.new) }
{
    let mut ended = 0;
    while ended < flyers.len() {
        let word = turns.next();
        match fly_turn(store, vault, rows, kept, share, flyers, ended, word, out) {
            Ok(more) => ended = more,
            Err(e) => return Err(e),
        }
    }
    Ok(())
}
