//! A SELECT in flight that was refused before any access.
ghost use Rattle.std.specs.Prelude.{◌≡◌, Some};
ghost use Rattle.ob_verdict.specs.declared.outcome.Outcome.TheVariants.{Refused};
ghost use Rattle.ob_stages.specs.Refusing.{StartsRefused, refused_served};

use ob_base::{End, Public, Refusal, Seen};
use ob_sql::Stmt;
use ob_verdict::Outcome;

/// A SELECT in flight that was refused before any access: it asks nothing.
#[derive(Drop)]
pub struct RefusedFlight<'a> {
    // what was public before the flight, and how many fly in it
    public: &'a Public,
    flown: u32,
    stmt: &'a Stmt,
    refusal: Refusal,
    // its answer, once it has ended
    outcome: Option<Outcome>,
}

impl<'a> RefusedFlight<'a> {
    /// One that is refused so, among so many that fly.
    pub fn new(
        public: &'a Public,
        flown: u32,
        stmt: &'a Stmt,
        refusal: Refusal,
    ) -> RefusedFlight<'a>
        ensures { StartsRefused public.now flown stmt.now refusal result }
    {
        RefusedFlight {
            public,
            flown,
            stmt,
            refusal,
            outcome: None,
        }
    }

    /// What is seen of it: that it was refused before any access.
    pub fn seen(&self) -> Seen
        ensures { result ≡ (refused_served self.now).seen }
    {
        Seen {
            k: None,
            plan: None,
            then: None,
            leaf: None,
            end: End::Static,
        }
    }

    /// Answers it with its refusal: nothing is emitted.
    pub(crate) fn finish(&mut self) -> Outcome
        ensures answer { result ≡ Refused self.old.refusal }
        ensures ends { self.new ≡ record self.old {
          outcome = Some (Refused self.old.refusal);
        } }
    {
        let outcome = Outcome::Refused(self.refusal);
        self.outcome = Some(outcome);
        outcome
    }
}
