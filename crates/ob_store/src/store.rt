//! The store that is not trusted: what it may be asked, and what it owes.
ghost use Rattle.std.specs.Prelude.{◌≡◌, ◌⊎◌, ◌<◌, ◌≤◌, ℕ, Option, IsTrue, [], Some, None, length, slice_get, true, IfOk, OnOk, OnErr};
ghost use Rattle.ob_store.specs.State.{KeptRegion, Shape, StoreState};
ghost use Rattle.ob_store.specs.declared.given.GivenUp.{GivenUp as LastGivenUp};
ghost use Rattle.ob_base.specs.Accesses.{highest};
ghost use Rattle.ob_store.specs.Calls.{IsBare, IsBounded, IsLive, IsPlace, IsGivenUp, KeepsLive, Reopens, Resumes, Asks, CountsFault, CountsSlip, CountsMakeFault, Keeps, Makes, ReadGives, OnlyAt, Holds, MayHold, OnlyRegion, ChangesNothing, IsSteady, Sweeps, Syncs, without_list};

use ob_base::{Access, Failed, NoMemory, StoreErr};

/// A store that is not trusted: regions, each of blocks of one length, that others may change between
/// any two calls.
///
/// Each `make`, `read`, `write` and `discard` is one access, which the store lists whatever it answers, until
/// `let_go`; `reserve` is none. A store that tells says what was last written at each place, and which read was the
/// first that gave other bytes (the lie). `gave` is what the last read gave, of any store. `disturbed` is
/// what others do between its accesses, where it says so: before the first such access no call fails and
/// no read lies. `faults` counts the calls of `make`, `read` and `write` that failed, and `slips` those of
/// `discard`; a count that stands at the last value of a `u64` counts as risen. Only `reserve` and `make` take
/// memory.
pub trait BlockStore {
    ghost state: { Self → StoreState };

    /// What was given up last, if anything was.
    ghost given_up: { Self → Option LastGivenUp };

    /// Makes room for `n` more accesses in the list.
    ///
    /// `NoMemory` leaves the store as it was.
    fn reserve(&mut self, n: u64) -> Result<(), NoMemory>
        ensures rests { ChangesNothing (state self.old) (state self.new) }
        ensures spare { OnOk result (n ≤ (state self.new).spare) }
        ensures same { given_up self.new ≡ given_up self.old };

    /// Makes a region of `blocks` blocks (1 to 134,217,728) of `len` bytes each (33 to 16,416).
    ///
    /// Its number is above those of all regions that were asked for before. After `Failed` or `NoMemory`
    /// it is not live, and its number is used up all the same.
    fn make(&mut self, region: u64, blocks: u32, len: u32) -> Result<(), StoreErr>
        requires spare { 1 ≤ (state self.old).spare }
        requires next { highest (state self.old).asked < region }
        requires blocks { (1 ≤ blocks) × (blocks ≤ 134217728) }
        requires len { (33 ≤ len) × (len ≤ 16416) }
        ensures asks { Asks (Access.Make region blocks len) (state self.old) (state self.new) }
        ensures cause { CountsMakeFault result (state self.old) (state self.new) }
        ensures slips { (state self.new).slips ≡ (state self.old).slips }
        ensures ok { OnOk result (Makes region blocks len (state self.old) (state self.new)) }
        ensures err { OnErr result (Keeps (state self.old) (state self.new)) }
        ensures lie { (state self.new).lie ≡ (state self.old).lie }
        ensures same { given_up self.new ≡ given_up self.old };

    /// Reads the block at a place of a live region into `buf`, which has the length of its blocks.
    ///
    /// After `Failed` the bytes of `buf` are any.
    fn read(&mut self, region: u64, place: u32, buf: &mut [u8]) -> Result<(), Failed>
        requires spare { 1 ≤ (state self.old).spare }
        requires place { IsPlace (state self.old) region place (length buf.old) }
        ensures asks { Asks (Access.Read region place) (state self.old) (state self.new) }
        ensures cause { CountsFault result (state self.old) (state self.new) }
        ensures slips { (state self.new).slips ≡ (state self.old).slips }
        ensures keeps { Keeps (state self.old) (state self.new) }
        ensures ok { OnOk result
            (ReadGives region place buf.new (state self.old) (state self.new)) }
        ensures gave { OnOk result ((state self.new).gave ≡ buf.new) }
        ensures err { OnErr result ((state self.new).lie ≡ (state self.old).lie) }
        ensures same { given_up self.new ≡ given_up self.old };

    /// Writes a block at a place of a live region.
    ///
    /// After `Failed` the old or the new block stands there.
    fn write(&mut self, region: u64, place: u32, block: &[u8]) -> Result<(), Failed>
        requires spare { 1 ≤ (state self.old).spare }
        requires place { IsPlace (state self.old) region place (length block.now) }
        ensures asks { Asks (Access.Write region place) (state self.old) (state self.new) }
        ensures cause { CountsFault result (state self.old) (state self.new) }
        ensures slips { (state self.new).slips ≡ (state self.old).slips }
        ensures only { OnlyAt region place (state self.old) (state self.new) }
        ensures ok { OnOk result (Holds region place block.now (state self.old) (state self.new)) }
        ensures err { OnErr result
            (MayHold region place block.now (state self.old) (state self.new)) }
        ensures lie { (state self.new).lie ≡ (state self.old).lie }
        ensures same { given_up self.new ≡ given_up self.old };

    /// Takes a live region out of the store.
    ///
    /// After `Failed` it is gone, or everything is as it was.
    fn discard(&mut self, region: u64) -> Result<(), Failed>
        requires spare { 1 ≤ (state self.old).spare }
        requires live { IsLive (state self.old) region }
        ensures asks { Asks (Access.Discard region) (state self.old) (state self.new) }
        ensures cause { CountsSlip result (state self.old) (state self.new) }
        ensures faults { (state self.new).faults ≡ (state self.old).faults }
        ensures others { OnlyRegion region (state self.old) (state self.new) }
        ensures ok { OnOk result ((state self.new).live region ≡ None) }
        ensures err { OnErr result
            (((state self.new).live region ≡ None) ⊎ Keeps (state self.old) (state self.new)) }
        ensures given_up { (state self.new).live region ≡ None → IsGivenUp region (state self.new) }
        ensures lie { (state self.new).lie ≡ (state self.old).lie }
        ensures same { given_up self.new ≡ given_up self.old };

    /// Gives up the regions from this number on: nobody will ask for them any more.
    ///
    /// It is no access, and can't fail. A store that has better use for their room frees it, whether they were taken
    /// out or not; a later call at one of them may fail.
    fn give_up(&mut self, from: u64)
        ensures same { state self.new ≡ state self.old }
        ensures given_up { given_up self.new
            ≡ Some (record { from = from; asked = length (state self.old).asked }) };

    /// Has the list let go of the accesses so far: from here on it has those after them alone.
    ///
    /// It is no access, takes no memory, and can't fail.
    fn let_go(&mut self)
        ensures is { state self.new ≡ without_list (state self.new).spare (state self.old) }
        ensures spare { (state self.old).spare ≤ (state self.new).spare }
        ensures same { given_up self.new ≡ given_up self.old };

    /// How many accesses were asked so far.
    fn count(&self) -> u64
        ensures { result ≡ length (state self.now).asked };

    /// How many of them, from the first on, the list has let go of.
    fn gone(&self) -> u64
        ensures { result ≡ (state self.now).let_go };

    /// The access at an index, from 0, that the list has.
    fn nth(&self, i: u64) -> Access
        requires has { (state self.now).let_go ≤ i }
        requires within { i < length (state self.now).asked }
        ensures { slice_get (state self.now).asked i ≡ Some result };

    /// A live region is kept as it stands, where that is told.
    ghost keeps_live: { (store : Self) (region : ℕ) (shape : Shape) → IsTrue (state store).tells
        → (state store).live region ≡ Some shape → KeepsLive region shape (state store) };

    /// What is kept of a region lies at its places.
    ghost keeps_within: { (store : Self) (number : ℕ) (region : KeptRegion)
        → (state store).kept number ≡ Some region → IsBounded region };

    /// What the list has let go of was asked.
    ghost within_asked: { (store : Self) → (state store).let_go ≤ length (state store).asked };

    /// Before the first access no region is live.
    ghost starts_empty: { (store : Self) (region : ℕ) → (state store).asked ≡ []
        → (state store).live region ≡ None };

    /// Nor was there a lie.
    ghost starts_honest: { (store : Self) → (state store).asked ≡ [] → (state store).lie ≡ None };

    /// Nor had a call failed, where others may not disturb the first access.
    ghost starts_steady: { (store : Self) → (state store).asked ≡ [] → IsSteady (state store) };
}

/// A store whose regions outlive a run.
pub trait Lasting: BlockStore {
    /// Makes a region of an earlier run live again, with the blocks that were last written there.
    ///
    /// It is one access. `Failed` where no region of this number and size is kept, or where the store
    /// failed; after an error it is not live. From here on the store doesn't say what others do.
    fn resume(&mut self, region: u64, blocks: u32, len: u32) -> Result<(), StoreErr>
        requires spare { 1 ≤ (Self.state self.old).spare }
        requires gone { (Self.state self.old).live region ≡ None }
        requires blocks { (1 ≤ blocks) × (blocks ≤ 134217728) }
        requires len { (33 ≤ len) × (len ≤ 16416) }
        ensures asks { Reopens (Access.Open region blocks len)
            (Self.state self.old) (Self.state self.new) }
        ensures cause { CountsMakeFault result
            (Self.state self.old) (Self.state self.new) }
        ensures ok { OnOk result (Resumes region blocks len
            (Self.state self.old) (Self.state self.new)) }
        ensures err { OnErr result
            (Keeps (Self.state self.old) (Self.state self.new)) }
        ensures same { Self.given_up self.new ≡ Self.given_up self.old };
}

/// A store whose regions outlast a crash once it says so, and that is rid of those that nobody wants.
///
/// None of these calls is an access, and none takes memory.
pub trait Saving: Lasting {
    /// Waits until all that was written lies where a crash leaves it.
    ///
    /// After `Failed` some of it may be gone, though no call said so: it is of no use to try again.
    fn sync(&mut self) -> Result<(), Failed>
        ensures syncs { Syncs (Self.state self.old) (Self.state self.new) }
        ensures cause { CountsFault result (Self.state self.old) (Self.state self.new) }
        ensures same { Self.given_up self.new ≡ Self.given_up self.old };

    /// Whether there is no region, of this run or an earlier one. A store that tells says so of what it keeps.
    fn is_bare(&mut self) -> Result<bool, Failed>
        ensures syncs { Syncs (Self.state self.old) (Self.state self.new) }
        ensures cause { CountsFault result (Self.state self.old) (Self.state self.new) }
        ensures bare { IfOk result (λ bare. bare ≡ true → IsTrue (Self.state self.old).tells
            → IsBare (Self.state self.old)) }
        ensures empty { IfOk result (λ bare. IsTrue (Self.state self.old).tells
            → IsBare (Self.state self.old) → bare ≡ true) }
        ensures same { Self.given_up self.new ≡ Self.given_up self.old };

    /// Takes out each region of an earlier run that isn't live again, as far as that can be done.
    fn sweep(&mut self)
        ensures sweeps { Sweeps (Self.state self.old) (Self.state self.new) }
        ensures same { Self.given_up self.new ≡ Self.given_up self.old };
}
