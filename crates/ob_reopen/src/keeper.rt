//! What keeps a mark, and draws salts.
ghost use Rattle.ob_reopen.specs.Keepers.{KeeperState, DrawsSalt, IsMark, GivesMark, SetsMark};

use crate::mark::Mark;
use ob_base::Failed;

/// What keeps a mark where nobody else can change it, from a run to the next: the trusted counter.
///
/// A keeper that tells says which mark it holds. `faults` counts the calls that failed; a count that stands at the
/// last value of a `u64` counts as risen. Which salt it drew last every keeper says. No call takes memory.
pub trait Keeper {
    ghost state: { Self → KeeperState };

    /// The mark that is held.
    fn mark(&mut self) -> Result<Mark, Failed>
        ensures gives { GivesMark result (state self.old) (state self.new) };

    /// Holds another mark from now on. After `Failed` it is the old one, or the new one.
    fn set(&mut self, mark: &Mark) -> Result<(), Failed>
        requires { IsMark mark.now }
        ensures sets { SetsMark mark.now result (state self.old) (state self.new) };
}

/// A keeper that draws salts.
pub trait Salts: Keeper {
    /// Bytes that no other run has drawn: a run seals under keys of its own by them, its salt. That they
    /// are others each time is what the keeper is trusted for, and no clause says it.
    fn salt(&mut self) -> Result<[u8; 16], Failed>
        ensures draws { DrawsSalt result (Self.state self.old) (Self.state self.new) };
}
