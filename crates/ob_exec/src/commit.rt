//! What becomes of the tables of an engine after a statement that changed them: they are saved, or they aren't.
ghost use Rattle.std.specs.Prelude.{◌≡◌, ⊤, ℕ, None, true};
ghost use Rattle.ob_exec.specs.Saving.{MayBeSaved, SavesTables, saving_stop};
ghost use Rattle.ob_reopen.specs.Keepers.{KeeperState};
ghost use Rattle.ob_tables.specs.Agreeing.{public_of};

use ob_reopen::Keeper;
use ob_store::{BlockStore, Saving};
use ob_tables::{CloseErr, Engine, RunStop};
use ob_vault::Revisions;

/// What becomes of the tables after a statement that changed them, before it is answered.
pub trait Commit<S: BlockStore> {
    /// What its keeper has come to.
    ghost state: { Self → KeeperState };

    /// It can save tables.
    ghost Saves: { Self → Type 0 };

    /// Which keeper it has, by a name that stays.
    ghost name: { Self → ℕ };

    /// Saves the tables of an engine: they are listed in a closing, whose mark the keeper then holds, and what the mark
    /// before needed alone is discarded, the region `left` in which a changed table lay among it.
    ///
    /// `StoreFault` where the store failed, or where the closing would have a number that no mark may name; `NoMemory`
    /// before the first access, or where the closing's region is made; `KeeperFault` where the keeper failed. After an
    /// error the tables of the old mark rest as they did, the new one's may rest beside them, and the engine is to take no
    /// statement any more.
    fn save<R: Revisions>(
        &mut self,
        engine: &mut Engine<R>,
        store: &mut S,
        left: Option<u64>,
    ) -> Result<(), RunStop>
        requires may { MayBeSaved R.state left engine.old (S.state store.old) }
        requires saves { (public_of engine.old).save ≡ true → Saves self.old }
        ensures saves { (public_of engine.old).save ≡ true → SavesTables R.state left result
            engine.old (S.state store.old) engine.new (S.state store.new)
            (state self.old) (state self.new) }
        ensures stays { Saves self.old → Saves self.new }
        ensures same { name self.new ≡ name self.old };
}

/// No tables are saved: of an engine whose settings don't say so.
#[derive(Clone, Copy, Debug)]
pub struct NoCommit;

impl<S: BlockStore> Commit<S> for NoCommit {
    ghost state = { λ commit. record { held = None; faults = 0; drawn = None } };

    ghost Saves = { λ commit. ⊥ };

    ghost name = { λ commit. 0 };

    fn save<R: Revisions>(
        &mut self,
        _engine: &mut Engine<R>,
        _store: &mut S,
        _left: Option<u64>,
    ) -> Result<(), RunStop> {
        Ok(())
    }
}

/// Tables are saved in a store that outlasts a crash, and this keeper holds the mark of the closing that lists them.
#[derive(Drop)]
pub struct CommitTo<'a, K: Keeper> {
    pub keeper: &'a mut K,
}

// The stop of a session whose tables could not be saved.
fn saving_stop(error: CloseErr) -> RunStop
    ensures { result ≡ saving_stop error }
{
    match error {
        CloseErr::Failed => RunStop::StoreFault,
        CloseErr::NoMemory => RunStop::NoMemory,
    }
}

impl<'a, S: Saving, K: Keeper> Commit<S> for CommitTo<'a, K> {
    ghost state = { λ commit. K.state commit.keeper.now };

    ghost Saves = { λ commit. ⊤ };

    ghost name = { λ commit. commit.keeper.ghost_name };

    fn save<R: Revisions>(
        &mut self,
        engine: &mut Engine<R>,
        store: &mut S,
        left: Option<u64>,
    ) -> Result<(), RunStop> {
        let mark = match engine.save(store) {
            Ok(mark) => mark,
            Err(error) => return Err(saving_stop(error)),
        };
        match store.sync() {
            Ok(()) => {}
            Err(_) => return Err(RunStop::StoreFault),
        }
        match self.keeper.set(&mark) {
            Ok(()) => {}
            Err(_) => return Err(RunStop::KeeperFault),
        }
        engine.settle(store, left);
        Ok(())
    }
}
