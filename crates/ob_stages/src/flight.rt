//! A SELECT in flight, of whichever kind.
ghost use Rattle.std.specs.Prelude.{◌≡◌};
ghost use Rattle.ob_stages.specs.Flying.{flight_progress};

use crate::groups::GroupsFlight;
use crate::refused::RefusedFlight;
use crate::rows::RowsFlight;
use crate::totals::TotalsFlight;
use ob_base::{Emit, EmitErr, Seen};
use ob_flat::OpErr;
use ob_inflight::Flyer;
use ob_room::ClearRow;
use ob_store::BlockStore;
use ob_vault::{Revisions, Vault};
use ob_verdict::Outcome;

/// A SELECT in flight: one that was refused before any access, or that reads the rows of a table, their totals, or those of
/// its groups.
#[derive(Drop)]
pub enum Flight<'a> {
    Refused(RefusedFlight<'a>),
    Rows(RowsFlight<'a>),
    Totals(TotalsFlight<'a>),
    Groups(GroupsFlight<'a>),
}

impl<'a> Flight<'a> {
    /// What is seen of it so far.
    pub fn seen(&self) -> Seen
        ensures { result ≡ (flight_progress self.now).served.seen }
    {
        match self {
            Flight::Refused(f) => f.seen(),
            Flight::Rows(f) => f.seen(),
            Flight::Totals(f) => f.seen(),
            Flight::Groups(f) => f.seen(),
        }
    }
}

impl<'a> Flyer for Flight<'a> {
    ghost use Rattle.ob_stages.specs.Flying.{FlightFits, FlightHalts, FlightHolds, FlightNeeds, MayFly, flight_acts, flight_below, flight_frames, flight_progress, flight_refits, flight_served};

    ghost progress = { flight_progress };

    ghost May = { MayFly };

    ghost Needs = { FlightNeeds };

    ghost Fits = { FlightFits };

    ghost Holds = { FlightHolds };

    ghost Halts = { FlightHalts };

    fn is_over(&self) -> bool {
        match self {
            Flight::Refused(_) => true,
            Flight::Rows(f) => f.is_over(),
            Flight::Totals(f) => f.is_over(),
            Flight::Groups(f) => f.is_over(),
        }
    }

    fn prints(&self) -> bool {
        match self {
            Flight::Refused(_) => true,
            Flight::Rows(f) => f.prints(),
            Flight::Totals(f) => f.prints(),
            Flight::Groups(f) => f.prints(),
        }
    }

    fn booked(&self) -> u64 {
        match self {
            Flight::Refused(_) => 0,
            Flight::Rows(f) => f.booked(),
            Flight::Totals(f) => f.booked(),
            Flight::Groups(f) => f.booked(),
        }
    }

    fn step<S: BlockStore, R: Revisions, E: Emit>(
        &mut self,
        store: &mut S,
        vault: &mut Vault<R>,
        rows: &mut [ClearRow],
        kept: &mut [ClearRow],
        others: u64,
        out: &mut E,
    ) -> Result<(), OpErr> {
        match self {
            Flight::Refused(_) => unreachable!(),
            Flight::Rows(f) => f.step(store, vault, rows, kept, others, out),
            Flight::Totals(f) => f.step(store, vault, rows, kept, others, out),
            Flight::Groups(f) => f.step(store, vault, rows, kept, others, out),
        }
    }

    fn finish<E: Emit>(&mut self, kept: &[ClearRow], out: &mut E) -> Result<Outcome, EmitErr> {
        match self {
            Flight::Refused(f) => Ok(f.finish()),
            Flight::Rows(f) => f.finish(kept, out),
            Flight::Totals(f) => f.finish(kept, out),
            Flight::Groups(f) => f.finish(kept, out),
        }
    }

    ghost served = { flight_served };

    ghost acts = { flight_acts };

    ghost frames = { flight_frames };

    ghost below = { flight_below };

    ghost refits = { flight_refits };
}
