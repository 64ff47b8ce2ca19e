//! An engine, and how its statements end.
ghost use Rattle.std.specs.Prelude.{◌≡◌, ◌≤◌, [], None, IfOk, false, true};
ghost use Rattle.ob_base.specs.declared.seen.End.TheVariants.{Static, Whole, Cut};
ghost use Rattle.ob_store.specs.State.{StoreState};
ghost use Rattle.ob_vault.specs.State.{from_nothing};
ghost use Rattle.ob_mean.specs.Verdict.{ended as seen_to};
ghost use Rattle.ob_tables.specs.Engines.{IsConfig};
ghost use Rattle.ob_base.specs.Publics.{first_public};
ghost use Rattle.ob_tables.specs.Agreeing.{Agrees, AreDraws, public_of, seen_of, engine_keys, engine_start, first_draws, has_ended, high_of, opened_from, replaced_of, rows_of};
ghost use Rattle.ob_tables.specs.Running.{answer_of, is_stop, stop_of};

use crate::stop::RunStop;
use ob_base::{Config, End, Items, NoMemory, Public, Refusal, Seen};
use ob_flat::OpErr;
use ob_oram::{Index, OramErr};
use ob_room::RowBuffer;
use ob_seal::{Draws, Keys};
use ob_vault::{Revisions, Vault};
use ob_verdict::Outcome;
use std::alloc::Global;

/// The width of an open row: every row of a table, or of a join, is at most so wide.
pub(crate) const ROW_WIDTH: u32 = 1_024;

/// From so many accesses on no statement is served.
pub const LATE: u64 = 1 << 63;

/// Tables in sealed regions of a store, the keys to them, and a buffer of open rows: the one room that there is, made by
/// `start` and `open` and by no other call.
#[derive(Drop)]
pub struct Engine<R: Revisions> {
    /// Where it takes memory from.
    pub alloc: Global,
    /// The keeper of the regions, of their keys and of what was written there last.
    pub vault: Vault<R>,
    /// The buffer of open rows.
    pub room: RowBuffer,
    /// What a watcher knows of the tables.
    pub public: Public,
    pub(crate) seen: Seen,
    pub(crate) ended: bool,
    // the region of the closing that it was opened from, or that its tables were saved in last
    pub(crate) closing: Option<u64>,
    // where tables are saved, the closing before the last: the vault has forgotten it, and the store has it until the mark
    // names the new one
    pub(crate) replaced: Option<u64>,
    // those of the tables that are one, in whichever order
    pub(crate) indexes: Vec<Index>,
    pub(crate) draws: Draws,
}

/// What is seen of a statement without a count.
pub fn seen_to_end(end: End) -> Seen
    ensures { result ≡ seen_to end }
{
    Seen {
        k: None,
        plan: None,
        then: None,
        leaf: None,
        end,
    }
}

impl<R: Revisions> Engine<R> {
    /// An engine with no table, which belongs to every store of which nothing was asked.
    pub fn start(alloc: Global, config: Config, keys: Keys) -> Result<Engine<R>, NoMemory>
        requires { IsConfig config }
        ensures agrees { IfOk result (λ e. (s : StoreState) → s.asked ≡ [] → Agrees R.state e s) }
        ensures public { IfOk result (λ e. public_of e ≡ first_public config) }
        ensures keyed { IfOk result (λ e. engine_keys e ≡ keys) }
        ensures drawn { IfOk result (λ e. AreDraws e (first_draws keys)) }
        ensures started { IfOk result (λ e. engine_start e ≡ from_nothing) }
        ensures anew { IfOk result (λ e. opened_from e ≡ None) }
        ensures settled { IfOk result (λ e. replaced_of e ≡ None) }
        ensures alive { IfOk result (λ e. has_ended e ≡ false) }
        ensures none_open { IfOk result (λ e. high_of e ≡ 0) }
        ensures rows { IfOk result (λ e. rows_of e ≡ config.buffer) }
    {
        let room = RowBuffer::new(alloc, config.buffer, ROW_WIDTH, u32::from(config.pack))?;
        let draws = Draws::new(keys.draw_seed());
        Ok(Engine {
            alloc,
            vault: Vault::new(alloc, keys),
            room,
            public: Public {
                tables: Items::new(alloc),
                next_region: 1,
                buffer: config.buffer,
                depth: config.depth,
                pack: config.pack,
                planner: config.planner,
                pad: config.pad,
                stash: config.stash,
                keep: config.keep,
                save: config.save,
                batch: config.batch,
                closing: None,
            },
            seen: seen_to_end(End::Whole),
            ended: false,
            closing: None,
            replaced: None,
            indexes: Vec::new(alloc),
            draws,
        })
    }

    /// What a watcher knows of the tables.
    pub fn public(&self) -> &Public
        ensures { result.now ≡ public_of self.now }
    {
        &self.public
    }

    /// What a watcher saw of the last statement.
    pub fn seen(&self) -> &Seen
        ensures { result.now ≡ seen_of self.now }
    {
        &self.seen
    }

    /// The greatest number of rows that were open at once.
    pub fn high(&self) -> u64
        ensures value { result ≡ high_of self.now }
        ensures most { result ≤ rows_of self.now }
    {
        self.room.high()
    }

    /// Whether a stop has ended the session.
    pub fn ended(&self) -> bool
        ensures { result ≡ has_ended self.now }
    {
        self.ended
    }

    /// Refuses a statement before any access. Nothing except that is seen of it.
    pub fn refuse(&mut self, refusal: Refusal) -> Outcome
        ensures answer { result ≡ Outcome.Refused refusal }
        ensures seen { self.new ≡ record self.old { seen = seen_to Static } }
    {
        self.seen = seen_to_end(End::Static);
        Outcome::Refused(refusal)
    }

    /// Ends a statement that went to its end, of which this was seen. The next region is public.
    pub fn finish_seen(&mut self, seen: Seen, outcome: Outcome) -> Outcome
        ensures answer { result ≡ outcome }
        ensures seen { self.new ≡ record self.old {
          seen = seen;
          public = record self.old.public { next_region = self.old.vault.next };
        } }
    {
        self.seen = seen;
        self.public.next_region = self.vault.next_region();
        outcome
    }

    /// Ends a statement without a count that went to its end. The next region is public.
    pub fn finish(&mut self, outcome: Outcome) -> Outcome
        ensures answer { result ≡ outcome }
        ensures seen { self.new ≡ record self.old {
          seen = seen_to Whole;
          public = record self.old.public { next_region = self.old.vault.next };
        } }
    {
        self.finish_seen(seen_to_end(End::Whole), outcome)
    }

    /// Ends a statement that a pass gave up after so many accesses, of which this was seen until then: one that
    /// the store failed in is refused, and any other error ends the session.
    pub fn cut_seen(&mut self, seen: Seen, accesses: u64, error: OpErr) -> Result<Outcome, RunStop>
        ensures answer { result ≡ answer_of error }
        ensures seen { self.new ≡ record self.old {
          seen = record seen { end = Cut accesses };
          public = record self.old.public { next_region = self.old.vault.next };
          ended = is_stop (answer_of error);
        } }
    {
        self.seen = Seen {
            end: End::Cut(accesses),
            ..seen
        };
        self.public.next_region = self.vault.next_region();
        let answer = match error {
            OpErr::Failed => Ok(Outcome::Refused(Refusal::StoreFault)),
            OpErr::Tampered { region, place } => Err(RunStop::Tampered { region, place }),
            OpErr::Sink => Err(RunStop::SinkFault),
            OpErr::NoMemory => Err(RunStop::NoMemory),
        };
        self.ended = answer.is_err();
        answer
    }

    /// Ends a flight of SELECTs. The next region is public, and a stop ends the session.
    pub fn end_flight(&mut self, stopped: bool)
        ensures { self.new ≡ record self.old {
          public = record self.old.public { next_region = self.old.vault.next };
          ended = stopped;
        } }
    {
        self.public.next_region = self.vault.next_region();
        self.ended = stopped;
    }

    // A statement whose access of an index gave up, of which this was seen until then.
    pub(crate) fn stop_access(&mut self, seen: Seen, error: OramErr) -> RunStop
        ensures answer { result ≡ stop_of error }
        ensures seen { self.new ≡ record self.old {
          seen = seen;
          public = record self.old.public { next_region = self.old.vault.next };
          ended = true;
        } }
    {
        self.seen = seen;
        self.public.next_region = self.vault.next_region();
        self.ended = true;
        match error {
            OramErr::Failed => RunStop::StoreFault,
            OramErr::Tampered { region, place } => RunStop::Tampered { region, place },
            OramErr::StashFull => RunStop::StashFull,
        }
    }

    /// Ends a statement of which nothing was counted, that a pass gave up after so many accesses, as `cut_seen`.
    pub fn cut(&mut self, accesses: u64, error: OpErr) -> Result<Outcome, RunStop>
        ensures answer { result ≡ answer_of error }
        ensures seen { self.new ≡ record self.old {
          seen = seen_to (Cut accesses);
          public = record self.old.public { next_region = self.old.vault.next };
          ended = is_stop (answer_of error);
        } }
    {
        self.cut_seen(seen_to_end(End::Whole), accesses, error)
    }
}
