//! Places of rows in buckets of their fields' hashes.
ghost use Rattle.std.specs.Prelude.{◌≡◌, ◌<◌, ◌+◌, ◌%◌, ◌*◌, ◌/◌, ◌^◌, ℕ, List, [], length, replicate, slice_index_or, IfOk, IfSome, IfNone};
ghost use Rattle.ob_order.specs.Orders.{field_at};
ghost use Rattle.ob_order.specs.Buckets.{hash_of, bucket_of, AreBucketed, IsOnly, NoneHas};

use crate::places::field_at;
use ob_base::NoMemory;
use ob_room::ClearRow;
use std::alloc::{AllocError, Global};
use std::hash::{FoldHasher, Hasher};
use std::marker::Model;

/// The first places of rows, each in the bucket of a field that its row has, so that the row with a field is
/// found among those of one bucket. No two of the rows have the same. Half of each field's hash lies beside its
/// place, so that seldom another row than the one that is looked for is read.
///
/// It has room for so many places, and as many buckets; only `new` takes memory.
#[derive(Drop)]
pub struct Buckets {
    heads: Vec<u32>,
    next: Vec<u32>,
    hashes: Vec<u32>,
}

impl Model for Buckets {
    ghost use Rattle.std.specs.Prelude.{vec_capacity};
    ghost use Rattle.ob_order.specs.Buckets.{BucketsState};
    ghost use Rattle.ob_order.specs.IsBuckets.{IsBuckets};

    ghost Value = { BucketsState };

    ghost view = { λ b. record {
      heads = b.heads.items;
      next = b.next.items;
      hashes = b.hashes.items;
      most = vec_capacity b.next;
    } };

    ghost invariant = { IsBuckets };
}

fn hash_of(field: &[u8]) -> u64
    ensures { result ≡ hash_of field.now }
{
    let mut hasher = FoldHasher::default();
    hasher.write(field);
    hasher.finish()
}

// The bucket of a field with this hash, among so many.
fn bucket_of(count: usize, hash: u64) -> usize
    requires { count < 2 ^ 32 }
    ensures value { result ≡ ((hash / 2 ^ 32) * count) / 2 ^ 32 }
    ensures below { 0 < count → result < count }
{
    let bucket = (hash >> 32) * count as u64 >> 32;
    bucket as usize
}

fn low_half(hash: u64) -> u32
    ensures { result ≡ hash % 2 ^ 32 }
{
    (hash % (1 << 32)) as u32
}

impl Buckets {
    /// With no place, and with room for as many.
    pub fn new(alloc: Global, most: u32) -> Result<Buckets, NoMemory>
        ensures { IfOk result (λ buckets. buckets ≡ record {
          heads = replicate most 0;
          next = [];
          hashes = [];
          most = most;
        }) }
    {
        match Buckets::built(alloc, most as usize) {
            Ok(buckets) => Ok(buckets),
            Err(_) => Err(NoMemory),
        }
    }

    // The same, with the allocator's error.
    fn built(alloc: Global, most: usize) -> Result<Buckets, AllocError>
        requires { most < 2 ^ 32 }
        ensures { IfOk result (λ buckets. buckets ≡ record {
          heads = replicate most 0;
          next = [];
          hashes = [];
          most = most;
        }) }
    {
        Ok(Buckets {
            heads: Vec::from_elem(alloc, 0, most)?,
            next: Vec::with_capacity(alloc, most)?,
            hashes: Vec::with_capacity(alloc, most)?,
        })
    }

    /// Takes all places out.
    pub fn clear(&mut self)
        ensures empty { (at len : ℕ) (rows : List (List ℕ)) → AreBucketed at len 0 rows self.new }
        ensures most { self.new.most ≡ self.old.most }
    {
        self.heads.fill(0);
        self.next.clear();
        self.hashes.clear();
    }

    // The link to the place that came last into the bucket of a field with this hash.
    fn head(&self, hash: u64) -> u32
        ensures { (field : List ℕ) → hash ≡ hash_of field → result
            ≡ slice_index_or self.now.heads (bucket_of (length self.now.heads) field) 0 }
    {
        match self.heads.get(bucket_of(self.heads.len(), hash)) {
            Some(link) => *link,
            None => 0,
        }
    }

    /// The place, of the first ones, whose row has this field.
    pub fn find(&self, rows: &[ClearRow], at: usize, field: &[u8]) -> Option<u32>
        requires { AreBucketed at (length field.now) (length self.now.next) rows.now self.now }
        ensures some { IfSome result
            (IsOnly at field.now (length self.now.next) rows.now) }
        ensures none { IfNone result (NoneHas at field.now (length self.now.next) rows.now) }
    {
        let hash = hash_of(field);
        let low = low_half(hash);
        let mut link = self.head(hash);
        while link > 0 {
            let place = link - 1;
            if self.hashes[place as usize] == low
                && field_at(rows, at, field.len(), place) == field
            {
                return Some(place);
            }
            link = self.next[place as usize];
        }
        None
    }

    /// Puts the next place, for which there is room, into the bucket of the field that its row has.
    pub fn add(&mut self, field: &[u8])
        requires { length self.old.next < self.old.most }
        ensures adds { (at n : ℕ) (rows : List (List ℕ))
            → AreBucketed at (length field.now) n rows self.old → NoneHas at field.now n rows
            → field_at at (length field.now) rows n ≡ field.now
            → AreBucketed at (length field.now) (n + 1) rows self.new }
        ensures most { self.new.most ≡ self.old.most }
    {
        let hash = hash_of(field);
        let bucket = bucket_of(self.heads.len(), hash);
        self.hashes.push_reserved(low_half(hash));
        self.next.push_reserved(self.heads[bucket]);
        self.heads[bucket] = self.next.len() as u32;
    }
}
