//! Counts of answered statements.
ghost use Rattle.std.specs.Prelude.{◌≡◌};
ghost use Rattle.ob_gen.specs.Tally.{empty_tally, with_answer, with_plan};

use ob_base::Plan;

/// What is counted of the statements that were answered. A count stays at the last value of a u64 once it is there.
#[derive(Clone, Copy, Debug, Default, PartialEq, Eq)]
pub struct Tally {
    pub statements: u64,
    /// How many of them were refused.
    pub refused: u64,
    /// How many rows their answers have.
    pub rows: u64,
    /// Of how many of them each plan was seen.
    pub small: u64,
    pub large: u64,
    pub continuous: u64,
    pub hash: u64,
}

impl Tally {
    /// Of no statement.
    pub fn new() -> Tally
        ensures { result ≡ empty_tally }
    {
        Tally::default()
    }

    /// Counts one more statement, which was refused or not, with the rows of its answer, and the plan that was seen.
    pub fn add(&mut self, refused: bool, rows: u64, plan: Option<Plan>)
        ensures { self.new ≡ with_plan (with_answer self.old refused rows) plan }
    {
        self.statements = self.statements.saturating_add(1);
        self.refused = self.refused.saturating_add(u64::from(refused));
        self.rows = self.rows.saturating_add(rows);
        match plan {
            Some(Plan::Small) => self.small = self.small.saturating_add(1),
            Some(Plan::Large) => self.large = self.large.saturating_add(1),
            Some(Plan::Continuous) => self.continuous = self.continuous.saturating_add(1),
            Some(Plan::Hash) => self.hash = self.hash.saturating_add(1),
            None => {}
        }
    }
}
