//! How a statement on an index is answered.
ghost use Rattle.std.specs.Prelude.{◌≡◌, length};
ghost use Rattle.ob_oram.specs.Ops.{got_in};
ghost use Rattle.ob_verdict.specs.Answering.{changed, found};
ghost use Rattle.ob_keyed.specs.Answering.{got_outcome, put_outcome};

use ob_base::Refusal;
use ob_oram::Got;
use ob_sql::Stmt;
use ob_verdict::Outcome;

fn put_outcome(got: &Got) -> Outcome
    ensures { result ≡ put_outcome (got_in got.now) }
{
    match got {
        Got::None | Got::Row(_) | Got::Done => Outcome::Inserted,
        Got::Duplicate => Outcome::Refused(Refusal::Duplicate),
        Got::OutOfRange => Outcome::Refused(Refusal::KeyRange),
    }
}

// How many rows were changed or taken out.
fn changed(got: &Got) -> u64
    ensures { result ≡ changed (got_in got.now) }
{
    match got {
        Got::None | Got::Row(_) | Got::Duplicate | Got::OutOfRange => 0,
        Got::Done => 1,
    }
}

/// How many rows were found.
pub(crate) fn found(got: &Got) -> u64
    ensures { result ≡ length (found (got_in got.now)) }
{
    match got {
        Got::None | Got::Done | Got::Duplicate | Got::OutOfRange => 0,
        Got::Row(_) => 1,
    }
}

/// The outcome of a statement whose access of an index answers this.
pub fn outcome_of_got(stmt: &Stmt, got: &Got) -> Outcome
    ensures { result ≡ got_outcome stmt.now (got_in got.now) }
{
    match stmt {
        Stmt::Insert { .. } => put_outcome(got),
        Stmt::Update { .. } => Outcome::Changed(changed(got)),
        Stmt::Delete { .. } => Outcome::Deleted(changed(got)),
        Stmt::SelectRows(_) => Outcome::Rows(found(got)),
        Stmt::Create { .. } => Outcome::Created,
        Stmt::Drop { .. } => Outcome::Dropped,
        Stmt::SelectTotals(_) => Outcome::Rows(0),
    }
}
