//! A store in memory that keeps each block of 49 bytes that was written to it, in order.
ghost use Rattle.std.specs.Prelude.{◌≡◌};
ghost use Rattle.ob_store.specs.contracts.memory.MemStoreBlockStore.TheImpl.Laws.{keeps_live-law, keeps_within-law, starts_empty-law, starts_honest-law, starts_steady-law, within_asked-law};

use ob_base::{Access, Failed, NoMemory, StoreErr};
use ob_store::{BlockStore, MemStore};
use std::alloc::Global;

/// A block of a table of two INT columns.
pub type Block = [u8; 49];

#[derive(Drop)]
pub struct KeepingStore {
    inner: MemStore,
    written: Vec<(u64, u32, Block)>,
}

impl KeepingStore {
    /// A store in memory to which nothing was written.
    pub fn new(alloc: Global, inner: MemStore) -> KeepingStore
        ensures { (⟦<KeepingStore as BlockStore>⟧.state result).asked
            ≡ (⟦<MemStore as BlockStore>⟧.state inner).asked }
    {
        KeepingStore {
            inner,
            written: Vec::new(alloc),
        }
    }

    /// The region, the place and the bytes of each write.
    pub fn written(&self) -> &[(u64, u32, Block)] {
        &self.written
    }
}

impl BlockStore for KeepingStore {
    ghost state = { λ s. ⟦<MemStore as BlockStore>⟧.state s.inner };

    ghost given_up = { λ s. ⟦<MemStore as BlockStore>⟧.given_up s.inner };

    ghost keeps_live = { λ s r shape told is. keeps_live-law s.inner r shape told is };

    ghost keeps_within = { λ s r region is. keeps_within-law s.inner r region is };

    ghost within_asked = { λ s. within_asked-law s.inner };

    ghost starts_empty = { λ s r none. starts_empty-law s.inner r none };

    ghost starts_honest = { λ s none. starts_honest-law s.inner none };

    ghost starts_steady = { λ s none. starts_steady-law s.inner none };

    fn reserve(&mut self, n: u64) -> Result<(), NoMemory> {
        self.inner.reserve(n)
    }

    fn make(&mut self, region: u64, blocks: u32, len: u32) -> Result<(), StoreErr> {
        self.inner.make(region, blocks, len)
    }

    fn read(&mut self, region: u64, place: u32, buf: &mut [u8]) -> Result<(), Failed> {
        self.inner.read(region, place, buf)
    }

    fn write(&mut self, region: u64, place: u32, block: &[u8]) -> Result<(), Failed> {
        if let Ok(kept) = Block::try_from(block) {
            let _ = self.written.push((region, place, kept));
        }
        self.inner.write(region, place, block)
    }

    fn discard(&mut self, region: u64) -> Result<(), Failed> {
        self.inner.discard(region)
    }

    fn give_up(&mut self, from: u64) {
        self.inner.give_up(from);
    }

    fn let_go(&mut self) {
        self.inner.let_go();
    }

    fn count(&self) -> u64 {
        self.inner.count()
    }

    fn gone(&self) -> u64 {
        self.inner.gone()
    }

    fn nth(&self, i: u64) -> Access {
        self.inner.nth(i)
    }
}
