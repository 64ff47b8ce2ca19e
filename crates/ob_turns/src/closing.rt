//! The line that ends an answer.
ghost use Rattle.std.specs.Prelude.{◌≡◌, ◌≤◌, ◌++◌, codes, decimal, length};
ghost use Rattle.ob_headline.specs.Closing;

use ob_print::{Line, refusal_line};
use ob_verdict::Outcome;

/// It is empty after rows, which their number ends.
pub fn closing_line(outcome: Outcome) -> Line
    ensures { result ≡ Closing.closing_line outcome }
{
    match outcome {
        Outcome::Created => Line::new(b"= created\n"),
        Outcome::Inserted => Line::new(b"= inserted\n"),
        Outcome::Changed(n) => counted_line(n, b"updated\n"),
        Outcome::Deleted(n) => counted_line(n, b"deleted\n"),
        Outcome::Dropped => Line::new(b"= dropped\n"),
        Outcome::Rows(_) => Line::new(b""),
        Outcome::Refused(refusal) => refusal_line(refusal),
    }
}

fn counted_line(n: u64, what: &[u8]) -> Line
    requires { length what.now ≤ 16 }
    ensures { result ≡ codes "= " ++ (decimal n ++ (codes " " ++ what.now)) }
{
    let mut line = Line::new(b"= ");
    line.push_number(n, b" ");
    line.push(what);
    line
}
