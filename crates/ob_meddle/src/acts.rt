//! What others do to the blocks.
ghost use Rattle.std.specs.Prelude.{◌≡◌, ◌≤◌, ◌==◌, ◌<◌, ℕ, length, take, if◌then◌else◌, IfSome, IfNone, false, true};
ghost use Rattle.std.specs.BTreeMap.{get};
ghost use Rattle.ob_meddle.specs.Flips.{flipped};
ghost use Rattle.ob_meddle.specs.Held.{can_flip, has_older, can_hold};
ghost use Rattle.ob_meddle.specs.Acts.{OnlyStand, rests_of, stands_of, allows, before_at, can_copy, after_act, after_acts, has_place, len_at};

use crate::blocks::LONGEST;
use crate::meddle::{Act, Meddle, Spot};
use crate::region::Region;
use std::collections::BTreeMap;

fn flip(regions: &mut BTreeMap<u64, Region>, region: u64, place: u32, byte: u32)
    ensures rests { (q : ℕ) → rests_of regions.new q ≡ rests_of regions.old q }
    ensures here { stands_of regions.new region place
        ≡ (if allows (can_flip place byte) (rests_of regions.old region)
        then flipped byte (stands_of regions.old region place)
        else stands_of regions.old region place) }
    ensures others { OnlyStand region place (stands_of regions.old) (stands_of regions.new) }
{
    if let Some(region) = regions.get_mut(&region) {
        region.flip(place, byte);
    }
}

fn age(regions: &mut BTreeMap<u64, Region>, region: u64, place: u32)
    ensures rests { (q : ℕ) → rests_of regions.new q ≡ rests_of regions.old q }
    ensures here { stands_of regions.new region place
        ≡ (if allows (has_older place) (rests_of regions.old region)
        then before_at (rests_of regions.old region) place
        else stands_of regions.old region place) }
    ensures others { OnlyStand region place (stands_of regions.old) (stands_of regions.new) }
{
    if let Some(region) = regions.get_mut(&region) {
        region.age(place);
    }
}

// Copies a block to the front of a buffer, and tells its length.
fn read(regions: &BTreeMap<u64, Region>, spot: Spot, buffer: &mut [u8]) -> Option<usize>
    requires { length buffer.old ≡ 16416 }
    ensures none { IfNone result (has_place spot.place (rests_of regions.now spot.region) ≡ false) }
    ensures some { IfSome result (λ len. has_place spot.place (rests_of regions.now spot.region)
        ≡ true) }
    ensures len { IfSome result (λ len. len ≡ len_at (rests_of regions.now spot.region)) }
    ensures short { IfSome result (λ len. len ≤ 16416) }
    ensures block { IfSome result (λ len. take len buffer.new
        ≡ stands_of regions.now spot.region spot.place) }
    ensures stays { length buffer.new ≡ 16416 }
{
    let region = regions.get(&spot.region)?;
    if !region.has(spot.place) {
        return None;
    }
    let len = region.len();
    region.read(spot.place, &mut buffer[..len]);
    Some(len)
}

fn put(regions: &mut BTreeMap<u64, Region>, to: Spot, block: &[u8])
    ensures rests { (q : ℕ) → rests_of regions.new q ≡ rests_of regions.old q }
    ensures here { stands_of regions.new to.region to.place
        ≡ (if allows (can_hold to.place (length block.now)) (rests_of regions.old to.region)
        then block.now else stands_of regions.old to.region to.place) }
    ensures others { OnlyStand to.region to.place (stands_of regions.old) (stands_of regions.new) }
{
    if let Some(region) = regions.get_mut(&to.region) {
        region.put(to.place, block);
    }
}

fn copy(regions: &mut BTreeMap<u64, Region>, from: Spot, to: Spot)
    ensures rests { (q : ℕ) → rests_of regions.new q ≡ rests_of regions.old q }
    ensures here { stands_of regions.new to.region to.place
        ≡ (if can_copy (rests_of regions.old from.region) from.place
        (rests_of regions.old to.region) to.place then stands_of regions.old from.region from.place
        else stands_of regions.old to.region to.place) }
    ensures others { OnlyStand to.region to.place (stands_of regions.old) (stands_of regions.new) }
{
    let mut buffer = [0; LONGEST];
    if let Some(len) = read(regions, from, &mut buffer) {
        put(regions, to, &buffer[..len]);
    }
}

fn act(regions: &mut BTreeMap<u64, Region>, act: Act)
    ensures rests { rests_of regions.new ≡ rests_of regions.old }
    ensures stands { stands_of regions.new
        ≡ after_act (rests_of regions.old) act (stands_of regions.old) }
{
    match act {
        Act::Fail => {}
        Act::Flip {
            region,
            place,
            byte,
        } => flip(regions, region, place, byte),
        Act::Copy { from, to } => copy(regions, from, to),
        Act::Older { region, place } => age(regions, region, place),
    }
}

/// Does the acts that come before an access, in order.
pub(crate) fn do_acts(regions: &mut BTreeMap<u64, Region>, list: &[Meddle], number: u64)
    ensures rests { rests_of regions.new ≡ rests_of regions.old }
    ensures stands { stands_of regions.new
        ≡ after_acts (rests_of regions.old) list.now number (stands_of regions.old) }
{
    match list.split_first() {
        None => {}
        Some((meddle, list)) => {
            if meddle.before == number {
                act(regions, meddle.act);
            }
            do_acts(regions, list, number);
        }
    }
}
