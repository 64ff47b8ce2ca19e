//! A store in memory that others change.
ghost use Rattle.std.specs.Prelude.{◌≡◌, ◌+◌, ◌++◌, ◌∷◌, ◌<◌, ◌≤◌, ℕ, [], None, refl, true, false, length, if◌then◌else◌, is_err, not, ◌&&◌};
ghost use Rattle.std.specs.Ordering.{nat_cmp};
ghost use Rattle.std.specs.BTreeMap.{get};
ghost use Rattle.std.specs.BTreeSet.{contains};
ghost use Rattle.std.specs.Option.{ForSome};
ghost use Rattle.ob_store.specs.Fresh.{past_within};
ghost use Rattle.ob_store.specs.Logs.{asked_of};
ghost use Rattle.ob_meddle.specs.Acts.{rests_of, stands_of, after_acts};
ghost use Rattle.ob_meddle.specs.Due.{disturbances, fails_at, failed_among, has_acted, is_discard, is_source};
ghost use Rattle.ob_meddle.specs.Fresh.{IsFresh, IsHonest, IsEarly, fresh_live, honest_start, keeps_live, keeps_within, none_failed_yet};

use crate::acts::do_acts;
use crate::caught::Caught;
use crate::due::{fails_at, is_source};
use crate::meddle::Meddle;
use crate::region::Region;
use crate::regions::{add, is_kept, keep_usable, read, retire, write};
use ob_base::{Access, Failed, Items, NoMemory, StoreErr};
use ob_store::{BlockStore, GivenUp, Lasting, Log, Saving};
use std::alloc::Global;
use std::collections::{BTreeMap, BTreeSet};

/// A store in memory that others change, as a list says. It tells what was written, and the first read
/// that gave something else.
#[derive(Drop)]
pub struct MeddledStore {
    alloc: Global,
    list: Items<Meddle>,
    log: Log,
    regions: BTreeMap<u64, Region>,
    // those that may be used in this run
    usable: BTreeSet<u64>,
    reopened: bool,
    faults: u64,
    slips: u64,
    caught: Option<Caught>,
    given_up: Option<GivenUp>,
    ghost fresh: { IsFresh (asked_of log) usable },
    ghost few: { faults + slips ≤ length (asked_of log) },
    ghost counted: { reopened ≡ false
        → faults + slips ≡ failed_among list (length (asked_of log)) },
    ghost honest: { reopened ≡ false → IsHonest list (length (asked_of log)) regions },
    ghost early: { IsEarly caught (asked_of log) },
    ghost caused: { reopened ≡ false
        → ForSome caught (λ c. has_acted list (c.count + 1) ≡ true) },
}

impl MeddledStore {
    ghost use Rattle.ob_store.specs.Calls.{IsSteady};
    ghost use Rattle.ob_meddle.specs.Shows.{list_of, state_of, standing, held};

    /// A store of which nothing was asked, in which others make these changes. It takes its memory of
    /// `alloc`.
    pub fn new(alloc: Global, list: Vec<Meddle>) -> MeddledStore
        ensures list { list_of result ≡ list.items }
        ensures asked { (⟦<MeddledStore as BlockStore>⟧.state result).asked ≡ [] }
        ensures told { (⟦<MeddledStore as BlockStore>⟧.state result).disturbed
            ≡ disturbances list.items }
    {
        MeddledStore {
            alloc,
            list: Items::from_vec(list),
            log: Log::new(alloc),
            regions: BTreeMap::new(alloc),
            usable: BTreeSet::new(alloc),
            reopened: false,
            faults: 0,
            slips: 0,
            caught: None,
            given_up: None,
        }
    }

    /// What it keeps, for the next run, in which others make these changes: of that nothing was asked, no
    /// read has lied, and no region is live. It takes no memory.
    ///
    /// What others made of the blocks stays, too, and from here on it doesn't say what others do. Blocks of a
    /// region that the first run discarded are there to be copied only where a change of its own list copies
    /// from that region; later runs keep them all, up to a sweep.
    #[tactic(auto, unfolding(ob_store::specs::Logs::spelt))]
    pub fn rest(self, list: Vec<Meddle>) -> MeddledStore
        ensures list { list_of result ≡ list.items }
        ensures asked { (⟦<MeddledStore as BlockStore>⟧.state result).asked ≡ [] }
        ensures kept { (q : ℕ) → (⟦<MeddledStore as BlockStore>⟧.state result).kept q
            ≡ (⟦<MeddledStore as BlockStore>⟧.state self).kept q }
        ensures untold { (⟦<MeddledStore as BlockStore>⟧.state result).disturbed ≡ None }
        ensures stands { standing result ≡ standing self }
        ensures held { held result ≡ held self }
    {
        let MeddledStore { alloc, regions, .. } = self;
        MeddledStore {
            alloc,
            list: Items::from_vec(list),
            log: Log::new(alloc),
            regions,
            usable: BTreeSet::new(alloc),
            reopened: true,
            faults: 0,
            slips: 0,
            caught: None,
            given_up: None,
        }
    }

    // Lists an access and does what others do before it. It is counted where it is to fail.
    fn begin(&mut self, access: Access) -> Result<(), Failed>
        requires { 1 ≤ self.old.log.spare }
        ensures asked { asked_of self.new.log ≡ asked_of self.old.log ++ access ∷ [] }
        ensures past { self.new.log.past ≡ self.old.log.past }
        ensures steady { IsSteady (state_of self.new) }
        ensures spare { self.old.log.spare ≤ self.new.log.spare + 1 }
        ensures list { self.new.list ≡ self.old.list }
        ensures reopened { self.new.reopened ≡ self.old.reopened }
        ensures caught { self.new.caught ≡ self.old.caught }
        ensures live { (self.new.usable ≡ self.old.usable)
            × (self.new.given_up ≡ self.old.given_up) }
        ensures rests { (q : ℕ) → rests_of self.new.regions q ≡ rests_of self.old.regions q }
        ensures stands { stands_of self.new.regions
            ≡ after_acts (rests_of self.old.regions) self.old.list
            (length (asked_of self.old.log) + 1) (stands_of self.old.regions) }
        ensures fails { is_err result ≡ fails_at self.old.list
            (length (asked_of self.old.log) + 1) }
        ensures faults { self.new.faults ≡ self.old.faults
            + (if is_err result && not (is_discard access) then 1 else 0) }
        ensures slips { self.new.slips ≡ self.old.slips
            + (if is_err result && is_discard access then 1 else 0) }
    {
        self.log.push(access);
        let number = self.log.count();
        do_acts(&mut self.regions, self.list.as_slice(), number);
        if !fails_at(self.list.as_slice(), number) {
            return Ok(());
        }
        if matches!(access, Access::Discard { .. }) {
            self.slips += 1;
        } else {
            self.faults += 1;
        }
        Err(Failed)
    }
}

impl BlockStore for MeddledStore {
    ghost use Rattle.std.specs.Prelude.{OnOk, OnErr};
    ghost use Rattle.ob_base.specs.Accesses.{highest};
    ghost use Rattle.ob_store.specs.Calls.{IsLive, IsPlace, IsGivenUp, Asks, CountsFault, CountsSlip, CountsMakeFault, Keeps, Makes, ReadGives, OnlyAt, Holds, MayHold, OnlyRegion, ChangesNothing, without_list};
    ghost use Rattle.ob_meddle.specs.Calls.{Made, Gave, Wrote, Retired};
    ghost use Rattle.ob_meddle.specs.Shows.{list_of, state_of, standing, held};

    ghost state = { λ m. state_of m };

    ghost given_up = { λ m. m.given_up };

    ghost keeps_live = { λ m q shape told is.
        keeps_live (contains nat_cmp m.usable q) (rests_of m.regions q) shape is (state_of m) q
        refl (λ x. refl) };

    ghost keeps_within = { λ m q region is. keeps_within (get nat_cmp m.regions q) region is };

    ghost within_asked = { λ m. past_within m.log };

    ghost starts_empty = { λ m q none.
        fresh_live (asked_of m.log) m.usable m.fresh none q (rests_of m.regions q) };

    ghost starts_honest = { λ m none. honest_start m.caught (asked_of m.log) m.early none };

    ghost starts_steady = { λ m none. record {
      quiet = λ before. record {
        faults = (none_failed_yet (asked_of m.log) m.faults m.slips m.few none).0;
        slips = (none_failed_yet (asked_of m.log) m.faults m.slips m.few none).1;
        lie = honest_start m.caught (asked_of m.log) m.early none;
      };
      lied = λ lie is. absurd (cc (is, honest_start m.caught (asked_of m.log) m.early none));
    } };

    fn reserve(&mut self, n: u64) -> Result<(), NoMemory>
        ensures rests { ChangesNothing (state_of self.old) (state_of self.new) }
        ensures spare { OnOk result (n ≤ (state_of self.new).spare) }
        ensures same { self.new.given_up ≡ self.old.given_up }
        ensures list { list_of self.new ≡ list_of self.old }
        ensures stays { standing self.new ≡ standing self.old }
        ensures held { held self.new ≡ held self.old }
    {
        self.log.reserve(n)
    }

    fn make(&mut self, region: u64, blocks: u32, len: u32) -> Result<(), StoreErr>
        requires spare { 1 ≤ (state_of self.old).spare }
        requires next { highest (state_of self.old).asked < region }
        requires blocks { (1 ≤ blocks) × (blocks ≤ 134217728) }
        requires len { (33 ≤ len) × (len ≤ 16416) }
        ensures asks { Asks (Access.Make region blocks len) (state_of self.old)
            (state_of self.new) }
        ensures cause { CountsMakeFault result (state_of self.old) (state_of self.new) }
        ensures slips { (state_of self.new).slips ≡ (state_of self.old).slips }
        ensures ok { OnOk result (Makes region blocks len (state_of self.old) (state_of self.new)) }
        ensures err { OnErr result (Keeps (state_of self.old) (state_of self.new)) }
        ensures lie { (state_of self.new).lie ≡ (state_of self.old).lie }
        ensures same { self.new.given_up ≡ self.old.given_up }
        ensures made { Made region blocks len result self.old self.new }
    {
        self.begin(Access::Make {
            region,
            blocks,
            len,
        })?;
        match Region::new(self.alloc, blocks, len) {
            Err(_) => Err(StoreErr::NoMemory),
            Ok(made) => match add(&mut self.regions, &mut self.usable, region, made) {
                Err(_) => Err(StoreErr::NoMemory),
                Ok(()) => Ok(()),
            },
        }
    }

    fn read(&mut self, region: u64, place: u32, buf: &mut [u8]) -> Result<(), Failed>
        requires spare { 1 ≤ (state_of self.old).spare }
        requires place { IsPlace (state_of self.old) region place (length buf.old) }
        ensures asks { Asks (Access.Read region place) (state_of self.old) (state_of self.new) }
        ensures cause { CountsFault result (state_of self.old) (state_of self.new) }
        ensures slips { (state_of self.new).slips ≡ (state_of self.old).slips }
        ensures keeps { Keeps (state_of self.old) (state_of self.new) }
        ensures ok { OnOk result (ReadGives region place buf.new (state_of self.old)
            (state_of self.new)) }
        ensures gave { OnOk result ((state_of self.new).gave ≡ buf.new) }
        ensures err { OnErr result ((state_of self.new).lie ≡ (state_of self.old).lie) }
        ensures same { self.new.given_up ≡ self.old.given_up }
        ensures stands { Gave region place buf.new result self.old self.new }
    {
        let count = self.log.count();
        self.begin(Access::Read { region, place })?;
        if read(&self.regions, region, place, buf) && self.caught.is_none() {
            self.caught = Some(Caught::new(region, place, count, buf));
        }
        Ok(())
    }

    fn write(&mut self, region: u64, place: u32, block: &[u8]) -> Result<(), Failed>
        requires spare { 1 ≤ (state_of self.old).spare }
        requires place { IsPlace (state_of self.old) region place (length block.now) }
        ensures asks { Asks (Access.Write region place) (state_of self.old) (state_of self.new) }
        ensures cause { CountsFault result (state_of self.old) (state_of self.new) }
        ensures slips { (state_of self.new).slips ≡ (state_of self.old).slips }
        ensures only { OnlyAt region place (state_of self.old) (state_of self.new) }
        ensures ok { OnOk result (Holds region place block.now (state_of self.old)
            (state_of self.new)) }
        ensures err { OnErr result (Keeps (state_of self.old) (state_of self.new)) }
        ensures lie { (state_of self.new).lie ≡ (state_of self.old).lie }
        ensures same { self.new.given_up ≡ self.old.given_up }
        ensures wrote { Wrote region place block.now result self.old self.new }
    {
        self.begin(Access::Write { region, place })?;
        write(&mut self.regions, region, place, block);
        Ok(())
    }

    fn discard(&mut self, region: u64) -> Result<(), Failed>
        requires spare { 1 ≤ (state_of self.old).spare }
        requires live { IsLive (state_of self.old) region }
        ensures asks { Asks (Access.Discard region) (state_of self.old) (state_of self.new) }
        ensures cause { CountsSlip result (state_of self.old) (state_of self.new) }
        ensures faults { (state_of self.new).faults ≡ (state_of self.old).faults }
        ensures others { OnlyRegion region (state_of self.old) (state_of self.new) }
        ensures ok { OnOk result ((state_of self.new).live region ≡ None) }
        ensures err { OnErr result (Keeps (state_of self.old) (state_of self.new)) }
        ensures given_up { (state_of self.new).live region ≡ None
            → IsGivenUp region (state_of self.new) }
        ensures lie { (state_of self.new).lie ≡ (state_of self.old).lie }
        ensures same { self.new.given_up ≡ self.old.given_up }
        ensures retired { Retired region result self.old self.new }
    {
        self.begin(Access::Discard { region })?;
        let kept = self.reopened || is_source(self.list.as_slice(), region);
        retire(&mut self.regions, region, kept);
        self.usable.remove(&region);
        Ok(())
    }

    fn give_up(&mut self, from: u64)
        ensures same { state_of self.new ≡ state_of self.old }
        ensures given_up { self.new.given_up
            ≡ Some (record { from = from; asked = length (state_of self.old).asked }) }
        ensures list { list_of self.new ≡ list_of self.old }
        ensures stays { standing self.new ≡ standing self.old }
        ensures held { held self.new ≡ held self.old }
    {
        self.given_up = Some(GivenUp {
            from,
            asked: self.log.count(),
        });
    }

    fn let_go(&mut self)
        ensures is { state_of self.new
            ≡ without_list (state_of self.new).spare (state_of self.old) }
        ensures spare { (state_of self.old).spare ≤ (state_of self.new).spare }
        ensures same { self.new.given_up ≡ self.old.given_up }
        ensures list { list_of self.new ≡ list_of self.old }
        ensures stays { standing self.new ≡ standing self.old }
        ensures held { held self.new ≡ held self.old }
    {
        self.log.let_go();
    }

    fn count(&self) -> u64 {
        self.log.count()
    }

    fn gone(&self) -> u64 {
        self.log.gone()
    }

    fn nth(&self, i: u64) -> Access {
        self.log.nth(i)
    }
}

impl Lasting for MeddledStore {
    ghost use Rattle.std.specs.Prelude.{OnOk, OnErr};
    ghost use Rattle.ob_store.specs.Calls.{Reopens, CountsMakeFault, Resumes, Keeps};
    ghost use Rattle.ob_meddle.specs.Calls.{Resumed};
    ghost use Rattle.ob_meddle.specs.Shows.{state_of};

    fn resume(&mut self, region: u64, blocks: u32, len: u32) -> Result<(), StoreErr>
        requires spare { 1 ≤ (state_of self.old).spare }
        requires gone { (state_of self.old).live region ≡ None }
        requires blocks { (1 ≤ blocks) × (blocks ≤ 134217728) }
        requires len { (33 ≤ len) × (len ≤ 16416) }
        ensures asks { Reopens (Access.Open region blocks len) (state_of self.old)
            (state_of self.new) }
        ensures cause { CountsMakeFault result (state_of self.old) (state_of self.new) }
        ensures ok { OnOk result (Resumes region blocks len (state_of self.old)
            (state_of self.new)) }
        ensures err { OnErr result (Keeps (state_of self.old) (state_of self.new)) }
        ensures same { self.new.given_up ≡ self.old.given_up }
        ensures resumed { Resumed region blocks len result self.old self.new }
    {
        self.reopened = true;
        self.begin(Access::Open {
            region,
            blocks,
            len,
        })?;
        if !is_kept(&self.regions, region, blocks, len) {
            self.faults = self.faults.saturating_add(1);
            return Err(StoreErr::Failed);
        }
        match self.usable.insert(region) {
            Ok(_) => Ok(()),
            Err(_) => Err(StoreErr::NoMemory),
        }
    }
}

impl Saving for MeddledStore {
    ghost use Rattle.std.specs.Prelude.{IsTrue, true, IfOk, IsOk};
    ghost use Rattle.ob_store.specs.Calls.{CountsFault, IsBare, Sweeps, Syncs};
    ghost use Rattle.ob_meddle.specs.Calls.{Swept};
    ghost use Rattle.ob_meddle.specs.Shows.{list_of, state_of, standing, held};

    fn sync(&mut self) -> Result<(), Failed>
        ensures syncs { Syncs (state_of self.old) (state_of self.new) }
        ensures cause { CountsFault result (state_of self.old) (state_of self.new) }
        ensures same { self.new.given_up ≡ self.old.given_up }
        ensures list { list_of self.new ≡ list_of self.old }
        ensures stays { standing self.new ≡ standing self.old }
        ensures held { held self.new ≡ held self.old }
        ensures never { IsOk result }
    {
        Ok(())
    }

    fn is_bare(&mut self) -> Result<bool, Failed>
        ensures syncs { Syncs (state_of self.old) (state_of self.new) }
        ensures cause { CountsFault result (state_of self.old) (state_of self.new) }
        ensures bare { IfOk result (λ bare. bare ≡ true → IsTrue (state_of self.old).tells
            → IsBare (state_of self.old)) }
        ensures empty { IfOk result (λ bare. IsTrue (state_of self.old).tells
            → IsBare (state_of self.old) → bare ≡ true) }
        ensures same { self.new.given_up ≡ self.old.given_up }
        ensures list { list_of self.new ≡ list_of self.old }
        ensures stays { standing self.new ≡ standing self.old }
        ensures held { held self.new ≡ held self.old }
        ensures never { IsOk result }
    {
        Ok(self.regions.is_empty())
    }

    // What it takes out isn't there to be copied, either: no later change finds it.
    fn sweep(&mut self)
        ensures sweeps { Sweeps (state_of self.old) (state_of self.new) }
        ensures same { self.new.given_up ≡ self.old.given_up }
        ensures swept { Swept self.old self.new }
    {
        keep_usable(&mut self.regions, &self.usable);
    }
}
