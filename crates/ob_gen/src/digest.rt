//! The digest of a run's accesses.
ghost use Rattle.std.specs.Prelude.{◌≡◌, ◌≤◌, ⊤, List, [], length, take};
ghost use Rattle.ob_base.specs.declared.access.Access.{Access};
ghost use Rattle.ob_print.specs.Lines.{trace_text};
ghost use Rattle.sha2.specs.Hashers.{Holds256};

use ob_print::access_line;
use ob_store::BlockStore;
use sha2::{Digest, Sha256};

/// What becomes of the accesses of a run, whether or not they are traced.
pub trait Digester {
    /// It took these, in order.
    ghost took: { Self → List Access → Type 0 };

    /// Takes those that a store lists from a place on.
    fn take_from<S: BlockStore>(&mut self, store: &S, from: u64)
        requires listed { (S.state store.now).let_go ≤ from }
        requires within { from ≤ length (S.state store.now).asked }
        ensures took { took self.old (take from (S.state store.now).asked)
            → took self.new (S.state store.now).asked };
}

/// No digest of them is wanted.
#[derive(Clone, Copy, Debug, Default, PartialEq, Eq)]
pub struct Undigested;

impl Digester for Undigested {
    ghost took = { λ digest asked. ⊤ };

    fn take_from<S: BlockStore>(&mut self, _store: &S, _from: u64) {}
}

/// The SHA-256 (FIPS 180-4) of their text.
#[derive(Drop)]
pub struct TraceDigest {
    hasher: Sha256,
}

impl Digester for TraceDigest {
    ghost took = { λ digest asked. Holds256 digest.hasher (trace_text asked) };

    fn take_from<S: BlockStore>(&mut self, store: &S, from: u64) {
        let end = store.count();
        for i in from..end {
            let line = access_line(store.nth(i));
            self.hasher.update(line.as_bytes());
        }
    }
}

impl TraceDigest {
    ghost use Rattle.ob_gen.specs.SummaryText.{digest_of};

    /// Of no access.
    #[tactic(auto, unfolding(ob_print::specs::Lines::trace_text))]
    pub fn new() -> TraceDigest
        ensures { ⟦<TraceDigest as Digester>⟧.took result [] }
    {
        TraceDigest {
            hasher: Sha256::new(),
        }
    }

    /// That of those which were taken.
    pub fn finish(self) -> [u8; 32]
        ensures { (asked : List Access) → ⟦<TraceDigest as Digester>⟧.took self asked
            → result ≡ digest_of asked }
    {
        self.hasher.finalize()
    }
}
