//! A statement in flight.
ghost use Rattle.std.specs.Prelude.{◌≡◌, ◌<◌, ◌≤◌, ◌+◌, ◌^◌, ℕ, Bool, true, false, List, None, Some, IfOk, OnOk, IfErr, OnErr};
ghost use Rattle.ob_base.specs.Events.{Event, EmitCause};
ghost use Rattle.ob_flat.specs.Passes.{SinkCause};
ghost use Rattle.ob_script.specs.Trace.{Served};
ghost use Rattle.ob_vault.specs.Numbers.{spent};
ghost use Rattle.ob_vault.specs.Places.{at};
ghost use Rattle.ob_vault.specs.Rows.{SameSizes};
ghost use Rattle.ob_vault.specs.State.{World};
ghost use Rattle.ob_vault.specs.Tied.{Ready};
ghost use Rattle.ob_inflight.specs.Progress.{ActsAs, Ends, Progress, Steps, StopsStep};
ghost use Rattle.ob_inflight.specs.Leaving.{Leaves};
ghost use Rattle.ob_inflight.specs.Answers.{Finishes, HasFewRows, IsHeld, IsHeldSomewhere, Tells};

use ob_base::{Emit, EmitErr};
use ob_flat::OpErr;
use ob_room::ClearRow;
use ob_store::BlockStore;
use ob_vault::{Revisions, Vault};
use ob_verdict::Outcome;

/// A SELECT that goes on an access at a time, through open rows that all statements share and a share of its own.
///
/// It emits rows where it reads its own result, and what is left of its answer once it has nothing to ask: these acts
/// print, and no other does.
pub trait Flyer {
    ghost use Rattle.std.specs.Prelude.{ℕ, List};
    ghost use Rattle.ob_base.specs.Events.{Event};
    ghost use Rattle.ob_flat.specs.declared.fault.OpErr.{OpErr as AnError};
    ghost use Rattle.ob_inflight.specs.Progress.{Progress};
    ghost use Rattle.ob_script.specs.Trace.{Served};
    ghost use Rattle.ob_vault.specs.State.{World};

    // How far it is.
    ghost progress: { Self → Progress };

    // What may still turn out to be served: its skeleton, and all that is seen of it in the end.
    ghost May: { Self → Served → Type 0 };

    // The regions that others must leave as they are.
    ghost Needs: { Self → ℕ → Type 0 };

    // The open rows are as many and as wide as it needs: those of a block, and its share.
    ghost Fits: { Self → (rows kept : List (List ℕ)) → Type 0 };

    // How it and its regions stand, where its share has these rows, and these events were emitted for it.
    ghost Holds: { Self → (kept : List (List ℕ)) → List Event → World → Type 0 };

    // What is known of one that stood so, with these events, when a step of it gave up: by then this part of more events
    // was emitted.
    ghost Halts: { Self → (events part : List Event) → AnError → (old new : World) → Type 0 };

    /// Whether all was asked.
    fn is_over(&self) -> bool
        ensures { result ≡ (progress self.now).over };

    /// Whether its next act prints.
    fn prints(&self) -> bool
        ensures { result ≡ (progress self.now).prints };

    /// For how many of its accesses the store has room.
    fn booked(&self) -> u64
        ensures { result ≡ (progress self.now).booked };

    /// Asks its next access. Where that makes a region whose size wasn't known before, the store takes room for all that
    /// will follow, beside that of `others`.
    ///
    /// Where the store fails it in an access other than a discard, it has nothing left to ask, and is answered so; that is
    /// no error.
    fn step<S: BlockStore, R: Revisions, E: Emit>(
        &mut self,
        store: &mut S,
        vault: &mut Vault<R>,
        rows: &mut [ClearRow],
        kept: &mut [ClearRow],
        others: u64,
        out: &mut E,
    ) -> Result<(), OpErr>
        requires ready { Ready (at R.state vault.old (S.state store.old)) }
        requires few { spent (at R.state vault.old (S.state store.old)) + (progress self.old).most
            < 2 ^ 63 + 2 ^ 60 }
        requires spare { others + (progress self.old).booked ≤ (S.state store.old).spare }
        requires others { others ≤ 2 ^ 62 }
        requires left { (progress self.old).over ≡ false }
        requires fits { Fits self.old rows.old kept.old }
        requires holds { IsHeld (Holds self.old kept.old)
            (at R.state vault.old (S.state store.old)) }
        ensures rows { SameSizes rows.old rows.new }
        ensures kept { SameSizes kept.old kept.new }
        ensures fits { OnOk result (Fits self.new rows.new kept.new) }
        ensures steps { OnOk result (Steps others (progress self.old) (progress self.new)
            (May self.old) (May self.new) (Needs self.old) (Needs self.new)
            (at R.state vault.old (S.state store.old)) (at R.state vault.new (S.state store.new))) }
        ensures stops { IfErr result (λ e. StopsStep e (progress self.old) (progress self.new)
            (May self.old)
            (at R.state vault.old (S.state store.old)) (at R.state vault.new (S.state store.new))) }
        ensures tells { Tells E.grew E.cut (progress self.old).prints (Holds self.old kept.old)
            (Holds self.new kept.new) (Halts self.old) result
            (at R.state vault.old (S.state store.old)) (at R.state vault.new (S.state store.new))
            out.old out.new }
        ensures sink { SinkCause result (E.faults out.old) (E.faults out.new) };

    /// Emits what is left of its answer once all was asked, and answers it.
    fn finish<E: Emit>(&mut self, kept: &[ClearRow], out: &mut E) -> Result<Outcome, EmitErr>
        requires over { (progress self.old).over ≡ true }
        requires going { (progress self.old).outcome ≡ None }
        requires holds { IsHeldSomewhere (Holds self.old kept.now) }
        ensures few { IfOk result HasFewRows }
        ensures ends { Ends result (progress self.old) (progress self.new) }
        ensures finishes { Finishes E.grew E.cut (Holds self.old kept.now)
            (Holds self.new kept.now) (Halts self.old) result out.old out.new }
        ensures needs { (q : ℕ) → Needs self.new q → Needs self.old q }
        ensures may { (x : Served) → May self.new x → May self.old x }
        ensures sink { EmitCause result (E.faults out.old) (E.faults out.new) };

    /// What it has seen by now is among what may be.
    ghost served: { (f : Self) (kept : List (List ℕ)) (events : List Event) (w : World)
        → Holds f kept events w → May f (progress f).served };

    /// Its next act prints where `prints` says so, and is none where it is over.
    ghost acts: { (f : Self) (x : Served) (n : ℕ) → May f x → ActsAs (progress f) x n };

    /// It stands as it should whatever is done to other regions.
    ghost frames: { (f : Self) (kept : List (List ℕ)) (events : List Event) (w v : World)
        → Leaves (Needs f) w v → Holds f kept events w → Holds f kept events v };

    /// The regions that it needs were made.
    ghost below: { (f : Self) (kept : List (List ℕ)) (events : List Event) (w : World) (q : ℕ)
        → Holds f kept events w → Needs f q → q < w.vault.next };

    /// Rows as many and as wide fit it, too.
    ghost refits: { (f : Self) (rows kept more own : List (List ℕ)) → SameSizes rows more
        → SameSizes kept own → Fits f rows kept → Fits f more own };
}
