//! The first line, which is the secret.
ghost use Rattle.std.specs.Prelude.{◌≡◌, ◌<◌, ◌≤◌, Option, Some, None, Ok, Err};
ghost use Rattle.ob_headline.specs.KeyLine.{without_cr, secret_of};
ghost use Rattle.ob_shell.specs.Feeding.{HaltCause, IsFedBy};
ghost use Rattle.ob_shell.specs.LineRead;
ghost use Rattle.ob_shell.specs.LineRead.{KeyRead};

use crate::feed::{Feed, Halt};
use ob_io::Source;

/// What the first line was: a secret, the last line too, or none.
#[derive(Clone, Copy, Debug, PartialEq, Eq)]
pub enum FirstLine {
    Secret([u8; 32]),
    Last([u8; 32]),
    Bad,
}

fn line_before_more(key: Option<[u8; 32]>) -> FirstLine
    ensures { result ≡ LineRead.line_before_more key }
{
    match key {
        Some(key) => FirstLine::Secret(key),
        None => FirstLine::Bad,
    }
}

fn line_at_end(key: Option<[u8; 32]>) -> FirstLine
    ensures { result ≡ LineRead.line_at_end key }
{
    match key {
        Some(key) => FirstLine::Last(key),
        None => FirstLine::Bad,
    }
}

fn trim_cr(line: &[u8]) -> &[u8]
    ensures { result.now ≡ without_cr line.now }
{
    let n = line.len();
    if n > 0 && line[n - 1] == b'\r' {
        &line[..n - 1]
    } else {
        line
    }
}

#[tactic(auto, unfolding(ob_headline::specs::KeyLine::secret_of))]
fn decode(line: &[u8]) -> Option<[u8; 32]>
    ensures { result ≡ secret_of line.now }
{
    let mut key = [0; 32];
    match hex::decode_to_slice(trim_cr(line), &mut key) {
        Ok(()) => Some(key),
        Err(_) => None,
    }
}

/// Reads the first line.
pub fn read_key<S: Source>(feed: &mut Feed, source: &mut S) -> Result<FirstLine, Halt>
    requires taken { feed.old.taken ≤ feed.old.limit }
    requires fed_by { IsFedBy feed.old (S.gave source.old) }
    ensures read { KeyRead feed.old feed.new (S.left source.old) (S.left source.new) result }
    ensures within { feed.new.taken ≤ feed.new.limit }
    ensures fed_by { IsFedBy feed.new (S.gave source.new) }
    ensures cause { HaltCause (S.faults source.old) (S.faults source.new)
        (feed.new.taken) (feed.new.limit) result }
{
    let mut line = [0; 66];
    let mut n = 0;
    'line: while n < 66 {
        match feed.next(source) {
            Err(halt) => return Err(halt),
            Ok(None) => return Ok(line_at_end(decode(&line[..n]))),
            Ok(Some(b)) => {
                if b == b'\n' {
                    return Ok(line_before_more(decode(&line[..n])));
                }
                line[n] = b;
                n += 1;
            }
        }
    }
    Ok(FirstLine::Bad)
}
