//! Sealed regions in a store that is not trusted.
use crate::earlier::Earlier;
use crate::fault::VaultErr;
use crate::region::{Order, Region};
use crate::revs::Revisions;
use crate::sealing::{load, open, shut};
use ob_base::{Items, StoreErr};
use ob_room::ClearRow;
use ob_seal::{At, Keys};
use ob_store::{BlockStore, Lasting};
use std::alloc::Global;

/// Sealed regions in a store, and the write number of each of their places.
///
/// It may go on from an earlier run: its numbers do, and that run's regions can be opened again.
#[derive(Drop)]
pub struct Vault<R> {
    keys: Keys,
    revs: R,
    count: u64,
    next: u64,
    // of the earlier run: how many writes it made, its last region, and its regions that are live again
    writes: u64,
    region: u64,
    resumed: Items<Earlier>,
    // its regions that this run may write to: trees of indexes
    trees: Items<u64>,
    block: [u8; 16416],
}

impl<R: Revisions> Vault<R> {
    ghost use Rattle.std.specs.Prelude.{◌≡◌, ◌<◌, ◌≤◌, ◌+◌, ◌-◌, ◌^◌, [], ℕ, Some, None, min, length};
    ghost use Rattle.ob_store.specs.Calls.{IsLive};
    ghost use Rattle.ob_store.specs.State.{StoreState};
    ghost use Rattle.ob_vault.specs.declared.region.Region.{Region as Layout};
    ghost use Rattle.ob_vault.specs.State.{HasNoneFrom, from_nothing, from_earlier};
    ghost use Rattle.ob_vault.specs.Numbers.{last_number, spent};
    ghost use Rattle.ob_vault.specs.Tied.{Ready, Lives};
    ghost use Rattle.ob_vault.specs.Rows.{SameSizes};
    ghost use Rattle.ob_seal.specs.KeySet.{pair_of};
    ghost use Rattle.ob_seal.specs.Sealed.{IsSalt};
    ghost use Rattle.ob_vault.specs.Places.{at, keys_in, start_of, MayGet, MayPut, PlaceIn};
    ghost use Rattle.ob_vault.specs.Resuming.{MayResume, ResumesRegion};
    ghost use Rattle.ob_vault.specs.Rekeying.{rekeyed};
    ghost use Rattle.ob_vault.specs.Linked.{GetsAt};
    ghost use Rattle.ob_vault.specs.VaultCalls.{MakesRegion, Gets, Puts, DropsRegion, Forgets};

    /// A vault with no region.
    pub fn new(alloc: Global, keys: Keys) -> Vault<R>
        ensures ready { (s : StoreState) → s.asked ≡ [] → Ready (at R.state result s) }
        ensures started { start_of result ≡ from_nothing }
        ensures keyed { result.keys ≡ keys }
        ensures first { result.next ≡ 1 }
        ensures empty { (q : ℕ) → (R.state result.revs).live q ≡ None }
    {
        Vault::start_at(alloc, keys, 1, 0)
    }

    /// A vault with no region that goes on from an earlier run: `region` is the number of the next region
    /// (1 at least), and `writes` the number of the earlier run's last write.
    pub fn start_at(alloc: Global, keys: Keys, region: u64, writes: u64) -> Vault<R>
        requires { 1 ≤ region }
        ensures ready { (s : StoreState) → s.asked ≡ [] → Ready (at R.state result s) }
        ensures started { start_of result ≡ from_earlier writes (region - 1) }
        ensures keyed { result.keys ≡ keys }
        ensures first { result.next ≡ region }
        ensures empty { (q : ℕ) → (R.state result.revs).live q ≡ None }
    {
        let resumed = Items::new(alloc);
        let trees = Items::new(alloc);
        Vault {
            keys,
            revs: R::new(alloc),
            count: writes,
            next: region,
            writes,
            region: region - 1,
            resumed,
            trees,
            block: [0; 16416],
        }
    }

    /// Makes a region. It takes memory, but only once the store was asked: want of memory comes after it.
    ///
    /// After an error the region is not live, and its number is used up all the same.
    pub fn make<S: BlockStore>(
        &mut self,
        store: &mut S,
        blocks: u32,
        width: u32,
        order: Order,
    ) -> Result<u64, VaultErr>
        requires ready { Ready (at R.state self.old (S.state store.old)) }
        requires spare { 1 ≤ (S.state store.old).spare }
        requires few { spent (at R.state self.old (S.state store.old)) < 2 ^ 63 + 2 ^ 60 }
        requires blocks { (1 ≤ blocks) × (blocks ≤ 134217728) }
        requires width { (1 ≤ width) × (width ≤ 16384) }
        ensures spent { (S.state store.old).spare ≤ (S.state store.new).spare + 1 }
        ensures makes { MakesRegion blocks width order result
            (at R.state self.old (S.state store.old)) (at R.state self.new (S.state store.new)) }
    {
        let region = self.next;
        let shape = Region {
            blocks,
            width,
            order,
        };
        self.next += 1;
        match store.make(region, blocks, width + 32) {
            Ok(()) => {
                if self.revs.begin(region, shape).is_err() {
                    return Err(VaultErr::NoMemory);
                }
                Ok(region)
            }
            Err(StoreErr::Failed) => Err(VaultErr::Failed),
            Err(StoreErr::NoMemory) => Err(VaultErr::NoMemory),
        }
    }

    /// Makes a region of an earlier run live again: its places were last written in order, the first of
    /// them under this number.
    ///
    /// It takes memory, and before the store is asked. After an error the region is not live.
    pub fn resume<S: Lasting>(
        &mut self,
        store: &mut S,
        region: u64,
        blocks: u32,
        width: u32,
        order: Order,
        number: u64,
    ) -> Result<(), VaultErr>
        requires ready { Ready (at R.state self.old (S.state store.old)) }
        requires spare { 1 ≤ (S.state store.old).spare }
        requires few { spent (at R.state self.old (S.state store.old)) < 2 ^ 63 + 2 ^ 60 }
        requires blocks { (1 ≤ blocks) × (blocks ≤ 134217728) }
        requires width { (1 ≤ width) × (width ≤ 16384) }
        requires may { MayResume region blocks number (at R.state self.old (S.state store.old)) }
        ensures resumes { ResumesRegion region
            (record { blocks = blocks; width = width; order = order }) number result
            (at R.state self.old (S.state store.old)) (at R.state self.new (S.state store.new)) }
    {
        let shape = Region {
            blocks,
            width,
            order,
        };
        let earlier = Earlier {
            region,
            blocks,
            first: number,
        };
        if self.revs.resume(region, shape, number).is_err() {
            return Err(VaultErr::NoMemory);
        }
        if self.resumed.push(earlier).is_err() {
            self.revs.end(region);
            return Err(VaultErr::NoMemory);
        }
        match store.resume(region, blocks, width + 32) {
            Ok(()) => Ok(()),
            Err(e) => {
                let _ = self.resumed.pop();
                self.revs.end(region);
                match e {
                    StoreErr::Failed => Err(VaultErr::Failed),
                    StoreErr::NoMemory => Err(VaultErr::NoMemory),
                }
            }
        }
    }

    /// Reads the rows of a place, or refuses and leaves these rows as they were.
    pub fn get<S: BlockStore>(
        &mut self,
        store: &mut S,
        region: u64,
        place: u32,
        rows: &mut [ClearRow],
    ) -> Result<(), VaultErr>
        requires ready { Ready (at R.state self.old (S.state store.old)) }
        requires spare { 1 ≤ (S.state store.old).spare }
        requires place { MayGet region place rows.old (at R.state self.old (S.state store.old)) }
        ensures rows { SameSizes rows.old rows.new }
        ensures spent { (S.state store.old).spare ≤ (S.state store.new).spare + 1 }
        ensures gets { Gets region place rows.old rows.new result
            (at R.state self.old (S.state store.old)) (at R.state self.new (S.state store.new)) }
    {
        let shape = self.revs.shape(region);
        let number = self.revs.number(region, place);
        let width = shape.width as usize / rows.len();
        let len = shape.width as usize + 32;
        match load(store, region, place, len, &mut self.block) {
            Ok(()) => {}
            Err(_) => return Err(VaultErr::Failed),
        }
        let at = At {
            region,
            place,
            number,
        };
        if open(&self.keys, at, &self.block[..len], width, rows) {
            Ok(())
        } else {
            Err(VaultErr::Tampered { region, place })
        }
    }

    /// Reads the rows of a place whose number its caller knows, of a region that keeps none: the block above it named it.
    pub fn get_at<S: BlockStore>(
        &mut self,
        store: &mut S,
        region: u64,
        place: u32,
        number: u64,
        rows: &mut [ClearRow],
    ) -> Result<(), VaultErr>
        requires ready { Ready (at R.state self.old (S.state store.old)) }
        requires spare { 1 ≤ (S.state store.old).spare }
        requires place { PlaceIn region place rows.old (at R.state self.old (S.state store.old)) }
        requires number { number
            ≡ last_number (at R.state self.old (S.state store.old)) region place }
        ensures rows { SameSizes rows.old rows.new }
        ensures spent { (S.state store.old).spare ≤ (S.state store.new).spare + 1 }
        ensures gets { GetsAt region place number rows.old rows.new result
            (at R.state self.old (S.state store.old)) (at R.state self.new (S.state store.new)) }
    {
        let shape = self.revs.shape(region);
        let width = shape.width as usize / rows.len();
        let len = shape.width as usize + 32;
        match load(store, region, place, len, &mut self.block) {
            Ok(()) => {}
            Err(_) => return Err(VaultErr::Failed),
        }
        let at = At {
            region,
            place,
            number,
        };
        if open(&self.keys, at, &self.block[..len], width, rows) {
            Ok(())
        } else {
            Err(VaultErr::Tampered { region, place })
        }
    }

    /// Seals rows under the next write number, and writes their block, in a region that this run made, or one that is linked.
    pub fn put<S: BlockStore>(
        &mut self,
        store: &mut S,
        region: u64,
        place: u32,
        rows: &[ClearRow],
    ) -> Result<(), VaultErr>
        requires ready { Ready (at R.state self.old (S.state store.old)) }
        requires spare { 1 ≤ (S.state store.old).spare }
        requires few { spent (at R.state self.old (S.state store.old)) < 2 ^ 63 + 2 ^ 60 }
        requires place { MayPut region place rows.now (at R.state self.old (S.state store.old)) }
        ensures spent { (S.state store.old).spare ≤ (S.state store.new).spare + 1 }
        ensures puts { Puts region place rows.now result
            (at R.state self.old (S.state store.old)) (at R.state self.new (S.state store.new)) }
    {
        let shape = self.revs.shape(region);
        let width = shape.width as usize / rows.len();
        let len = shape.width as usize + 32;
        let number = self.count + 1;
        self.count = number;
        self.revs.wrote(region, place, number);
        let at = At {
            region,
            place,
            number,
        };
        shut(&self.keys, at, width, len, rows, &mut self.block);
        match store.write(region, place, &self.block[..len]) {
            Ok(()) => Ok(()),
            Err(_) => Err(VaultErr::Failed),
        }
    }

    /// Takes a region out of the vault and the store, whatever the store answers.
    pub fn drop_region<S: BlockStore>(&mut self, store: &mut S, region: u64) -> Result<(), VaultErr>
        requires ready { Ready (at R.state self.old (S.state store.old)) }
        requires spare { 1 ≤ (S.state store.old).spare }
        requires lives { (shape : Layout)
            × Lives region shape (at R.state self.old (S.state store.old)) }
        ensures drops { DropsRegion region result
            (at R.state self.old (S.state store.old)) (at R.state self.new (S.state store.new)) }
    {
        self.revs.end(region);
        match store.discard(region) {
            Ok(()) => Ok(()),
            Err(_) => Err(VaultErr::Failed),
        }
    }

    /// Takes a region out of the vault, and leaves it in the store.
    pub fn forget(&mut self, region: u64)
        ensures forgets { (s : StoreState)
            → Forgets region (at R.state self.old s) (at R.state self.new s) }
    {
        self.revs.end(region);
    }

    /// Takes a region that the vault has forgotten out of the store, too, whatever that answers.
    pub fn discard<S: BlockStore>(&self, store: &mut S, forgotten: u64) -> Result<(), VaultErr>
        requires ready { Ready (at R.state self.now (S.state store.old)) }
        requires spare { 1 ≤ (S.state store.old).spare }
        requires live { IsLive (S.state store.old) forgotten }
        requires below { forgotten < self.now.next }
        requires gone { (R.state self.now.revs).live forgotten ≡ None }
        ensures drops { DropsRegion forgotten result
            (at R.state self.now (S.state store.old)) (at R.state self.now (S.state store.new)) }
    {
        match store.discard(forgotten) {
            Ok(()) => Ok(()),
            Err(_) => Err(VaultErr::Failed),
        }
    }

    /// Has the store give up the regions from this number on, none of which the vault has.
    pub fn give_up<S: BlockStore>(&self, store: &mut S, from: u64)
        requires forgotten { HasNoneFrom from (R.state self.now.revs) }
        ensures same { S.state store.new ≡ S.state store.old }
        ensures given_up { S.given_up store.new
            ≡ Some (record { from = from; asked = length (S.state store.old).asked }) }
    {
        store.give_up(from);
    }

    /// Goes on under these keys, and keeps its regions and numbers. A run that saves its tables learns the salts of
    /// those that it goes on from only in their closing, which it reads under keys that know no other salt.
    pub fn rekey(&mut self, keys: Keys)
        ensures { (s : StoreState)
            → at R.state self.new s ≡ rekeyed keys (at R.state self.old s) }
    {
        self.keys = keys;
    }

    /// The salt of the run that made a region, or `None` where that run had none.
    pub fn salt_of(&self, region: u64) -> Option<[u8; 16]>
        ensures value { result ≡ (pair_of (keys_in self.now) region).salt }
        ensures long { IsSalt result }
    {
        self.keys.salt_of(region)
    }

    /// The check value of the run that made a region.
    pub fn check_of(&self, region: u64) -> [u8; 16]
        ensures { result ≡ (pair_of (keys_in self.now) region).check }
    {
        self.keys.check_of(region)
    }

    /// The number of the next region.
    pub fn next_region(&self) -> u64
        ensures { result ≡ self.now.next }
    {
        self.next
    }

    /// The number under which a place of a live region was last written, or 0.
    pub fn number(&self, region: u64, place: u32) -> u64
        requires { (shape : Layout) × ((R.state self.now.revs).live region ≡ Some shape)
            × (place < shape.blocks) }
        ensures { result ≡ (R.state self.now.revs).number region place }
    {
        self.revs.number(region, place)
    }

    /// The number of the last write, or that of the earlier run's last one where there was none since.
    pub fn writes(&self) -> u64
        ensures { result ≡ self.now.count }
    {
        self.count
    }

    /// The accesses so far, counted on from the earlier run's writes or regions, whichever are more; or
    /// 2^64 - 1 where that is above it.
    pub fn spent<S: BlockStore>(&self, store: &S) -> u64
        ensures { result ≡ min (spent (at R.state self.now (S.state store.now))) (2 ^ 64 - 1) }
    {
        self.writes.max(self.region).saturating_add(store.count())
    }

    /// The next place of a round region.
    pub fn turn(&self, region: u64) -> u32
        requires { (shape : Layout) × ((R.state self.now.revs).live region ≡ Some shape) }
        ensures { result ≡ (R.state self.now.revs).turn region }
    {
        self.revs.turn(region)
    }
}
