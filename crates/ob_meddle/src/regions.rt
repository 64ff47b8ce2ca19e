//! What the engine does to the blocks.
ghost use Rattle.std.specs.Prelude.{◌≡◌, ◌≢◌, ℕ, None, Some, true, false, length, OnOk, OnErr, if◌then◌else◌};
ghost use Rattle.std.specs.Ordering.{nat_cmp};
ghost use Rattle.std.specs.BTreeMap.{get};
ghost use Rattle.std.specs.BTreeSet.{contains};
ghost use Rattle.ob_meddle.specs.Held.{rest_of, stand_of, Differs, Agrees};
ghost use Rattle.ob_meddle.specs.Acts.{OnlyStand, OtherStands, OtherRests, rests_of, stands_of, before_at, len_at, has_place};
ghost use Rattle.ob_store.specs.Calls.{is_kept};
ghost use Rattle.ob_meddle.specs.Regions.{IsPlaceOf, kept_at, last_at, shape_at};

use crate::region::Region;
use ob_base::NoMemory;
use std::collections::{BTreeMap, BTreeSet};

/// Adds a region, which may be used.
pub(crate) fn add(
    regions: &mut BTreeMap<u64, Region>,
    usable: &mut BTreeSet<u64>,
    region: u64,
    made: Region,
) -> Result<(), NoMemory>
    ensures used { OnOk result (contains nat_cmp usable.new region ≡ true) }
    ensures others_used { OnOk result ((q : ℕ) → q ≢ region
        → contains nat_cmp usable.new q ≡ contains nat_cmp usable.old q) }
    ensures unused { OnErr result ((q : ℕ)
        → contains nat_cmp usable.new q ≡ contains nat_cmp usable.old q) }
    ensures rest { OnOk result (rests_of regions.new region ≡ Some (rest_of made)) }
    ensures here { OnOk result ((x : ℕ) → stands_of regions.new region x ≡ stand_of made x) }
    ensures others { OnOk result (OtherRests region (rests_of regions.old) (rests_of regions.new)) }
    ensures stands { OnOk result (OtherStands region (stands_of regions.old)
        (stands_of regions.new)) }
    ensures none { OnErr result ((q : ℕ) → rests_of regions.new q ≡ rests_of regions.old q) }
    ensures stay { OnErr result ((q x : ℕ)
        → stands_of regions.new q x ≡ stands_of regions.old q x) }
{
    let Ok(is_new) = usable.insert(region) else {
        return Err(NoMemory);
    };
    match regions.insert(region, made) {
        Ok(_) => Ok(()),
        Err(_) => {
            if is_new {
                usable.remove(&region);
            }
            Err(NoMemory)
        }
    }
}

/// Copies what stands at a place to `buf`, and tells whether something else was written there last.
pub(crate) fn read(regions: &BTreeMap<u64, Region>, region: u64, place: u32, buf: &mut [u8]) -> bool
    requires { IsPlaceOf (rests_of regions.now region) place (length buf.old) }
    ensures bytes { buf.new ≡ stands_of regions.now region place }
    ensures differs { result ≡ true
        → Differs buf.new (last_at (rests_of regions.now region) place) }
    ensures agrees { result ≡ false → Agrees buf.new (last_at (rests_of regions.now region) place) }
{
    match regions.get(&region) {
        Some(region) => {
            region.read(place, buf);
            region.differs(place, buf)
        }
        None => unreachable!(),
    }
}

/// Writes a block at a place.
pub(crate) fn write(regions: &mut BTreeMap<u64, Region>, region: u64, place: u32, block: &[u8])
    requires { IsPlaceOf (rests_of regions.old region) place (length block.now) }
    ensures shapes { (q : ℕ) → shape_at (rests_of regions.new q)
        ≡ shape_at (rests_of regions.old q) }
    ensures last { last_at (rests_of regions.new region) place ≡ Some block.now }
    ensures lasts { (q x : ℕ) → (q ≡ region → x ≡ place → ⊥)
        → last_at (rests_of regions.new q) x ≡ last_at (rests_of regions.old q) x }
    ensures rest { OtherRests region (rests_of regions.old) (rests_of regions.new) }
    ensures before { before_at (rests_of regions.new region) place
        ≡ stands_of regions.old region place }
    ensures befores { (x : ℕ) → x ≢ place
        → before_at (rests_of regions.new region) x ≡ before_at (rests_of regions.old region) x }
    ensures stands { stands_of regions.new region place ≡ block.now }
    ensures others { OnlyStand region place (stands_of regions.old) (stands_of regions.new) }
{
    match regions.get_mut(&region) {
        Some(region) => region.write(place, block),
        None => unreachable!(),
    }
}

/// Whether a region is kept with this size, and was not taken out.
pub(crate) fn is_kept(regions: &BTreeMap<u64, Region>, region: u64, blocks: u32, len: u32) -> bool
    ensures { result ≡ is_kept blocks len (kept_at (rests_of regions.now region)) }
{
    regions
        .get(&region)
        .is_some_and(|region| region.live && region.has_size(blocks, len))
}

/// Takes a region out; its blocks are kept where they may still be copied from.
pub(crate) fn retire(regions: &mut BTreeMap<u64, Region>, region: u64, kept: bool)
    ensures gone { shape_at (rests_of regions.new region) ≡ None }
    ensures unread { (x : ℕ) → last_at (rests_of regions.new region) x ≡ None }
    ensures others { OtherRests region (rests_of regions.old) (rests_of regions.new) }
    ensures stands { OtherStands region (stands_of regions.old) (stands_of regions.new) }
    ensures kept { kept ≡ true → (x : ℕ)
        → stands_of regions.new region x ≡ stands_of regions.old region x }
    ensures len { kept ≡ true → len_at (rests_of regions.new region)
        ≡ len_at (rests_of regions.old region) }
    ensures places { kept ≡ true → (x : ℕ)
        → has_place x (rests_of regions.new region) ≡ has_place x (rests_of regions.old region) }
{
    if kept {
        if let Some(region) = regions.get_mut(&region) {
            region.live = false;
        }
    } else {
        let _ = regions.remove(&region);
    }
}

/// Takes out the regions that may not be used.
pub(crate) fn keep_usable(regions: &mut BTreeMap<u64, Region>, usable: &BTreeSet<u64>)
    ensures { (q : ℕ) → get nat_cmp regions.new q
        ≡ (if contains nat_cmp usable.now q then get nat_cmp regions.old q else None) }
{
    regions.retain(|region, _| usable.contains(region));
}
