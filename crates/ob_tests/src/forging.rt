//! A store in memory whose holder has the keys: one read gives a block that was sealed for its place.
ghost use Rattle.std.specs.Prelude.{◌≡◌, false, None, refl, if◌then◌else◌};
ghost use Rattle.ob_store.specs.contracts.memory.MemStoreBlockStore.TheImpl.Laws.{starts_empty-law, within_asked-law};

use ob_base::{Access, Failed, NoMemory, StoreErr};
use ob_seal::{At, Keys, seal};
use ob_store::{BlockStore, MemStore};

/// A row of two INT columns, as it is spelt.
pub type Row = [u8; 17];

#[derive(Drop)]
pub struct ForgingStore {
    inner: MemStore,
    keys: Keys,
    access: u64,
    number: u64,
    row: Row,
    forged: bool,
    block: [u8; 49],
}

impl ForgingStore {
    /// A store whose access of this number, counted from 1, if it is a read, gives this row, sealed under
    /// a write number with the keys of a secret of zeros.
    pub fn new(inner: MemStore, access: u64, number: u64, row: Row) -> ForgingStore
        ensures { (⟦<ForgingStore as BlockStore>⟧.state result).asked
            ≡ (⟦<MemStore as BlockStore>⟧.state inner).asked }
    {
        ForgingStore {
            inner,
            keys: Keys::derive(&[0; 32]),
            access,
            number,
            row,
            forged: false,
            block: [0; 49],
        }
    }
}

impl BlockStore for ForgingStore {
    ghost state = { λ s. record (⟦<MemStore as BlockStore>⟧.state s.inner) {
      tells = false;
      last = λ q x. None;
      lie = None;
      kept = λ q. None;
      gave = if s.forged then s.block else (⟦<MemStore as BlockStore>⟧.state s.inner).gave;
      disturbed = None;
    } };

    ghost given_up = { λ s. ⟦<MemStore as BlockStore>⟧.given_up s.inner };

    ghost keeps_live = { λ s r shape told is. absurd (cc told) };

    ghost keeps_within = { λ s r region is. absurd (cc is) };

    ghost within_asked = { λ s. within_asked-law s.inner };

    ghost starts_empty = { λ s r none. starts_empty-law s.inner r none };

    ghost starts_honest = { λ s none. refl };

    ghost starts_steady = { λ s none. record {
      quiet = λ before. absurd before;
      lied = λ lie is. absurd (cc is);
    } };

    fn reserve(&mut self, n: u64) -> Result<(), NoMemory> {
        self.inner.reserve(n)
    }

    fn make(&mut self, region: u64, blocks: u32, len: u32) -> Result<(), StoreErr> {
        self.inner.make(region, blocks, len)
    }

    fn read(&mut self, region: u64, place: u32, buf: &mut [u8]) -> Result<(), Failed> {
        self.inner.read(region, place, buf)?;
        self.forged = self.inner.count() == self.access && buf.len() == 49;
        if self.forged {
            let at = At {
                region,
                place,
                number: self.number,
            };
            seal(&self.keys, at, &self.row, buf);
            self.block.copy_from_slice(buf);
        }
        Ok(())
    }

    fn write(&mut self, region: u64, place: u32, block: &[u8]) -> Result<(), Failed> {
        self.inner.write(region, place, block)
    }

    fn discard(&mut self, region: u64) -> Result<(), Failed> {
        self.inner.discard(region)
    }

    fn give_up(&mut self, from: u64) {
        self.inner.give_up(from);
    }

    fn let_go(&mut self) {
        self.inner.let_go();
    }

    fn count(&self) -> u64 {
        self.inner.count()
    }

    fn gone(&self) -> u64 {
        self.inner.gone()
    }

    fn nth(&self, i: u64) -> Access {
        self.inner.nth(i)
    }
}
