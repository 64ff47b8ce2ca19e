//! One session, and what it must print.
ghost use Rattle.std.specs.Prelude.{◌≡◌, []};

use ob_io::{MemSink, MemSource, Sink, Source};
use ob_shell::shell_top;
use ob_store::BlockStore;
use std::alloc::Global;
use std::process::Abort;
use std::test::Fail;

/// The words of the command line, what is typed after the key line, and what must come of it.
#[derive(Clone, Copy)]
pub struct Case {
    pub words: &'static str,
    pub text: &'static str,
    pub answers: &'static str,
    pub trace: &'static str,
    pub status: u8,
}

// The one call of the top call by tests: nothing is known of what it answers.
fn status_of<I: Source, O: Sink, T: Sink, S: BlockStore>(
    alloc: Global,
    words: &[String],
    input: &mut I,
    out: &mut O,
    trace: &mut T,
    store: &mut S,
) -> u8
    requires { (S.state store.old).asked ≡ [] }
{
    shell_top(alloc, words, input, out, trace, store).status
}

/// Serves a case, whose key is 64 zeros.
pub fn serve<S: BlockStore>(
    rt: &impl Abort,
    alloc: Global,
    case: &Case,
    store: &mut S,
) -> Result<(), Fail>
    requires { (S.state store.old).asked ≡ [] }
{
    let mut words = Vec::new(alloc);
    for word in case.words.split(' ') {
        words.push(String::from_str(alloc, word)?)?;
    }
    let mut bytes = vec![in alloc; b'0'; 64]?;
    bytes.push(b'\n')?;
    bytes.extend_from_slice(case.text.as_bytes())?;
    let mut input = MemSource::new(bytes, Vec::new(alloc));
    let mut out = MemSink::new(alloc, 1024, Vec::new(alloc))?;
    let mut trace = MemSink::new(alloc, 1024, Vec::new(alloc))?;
    let status = status_of(alloc, &words, &mut input, &mut out, &mut trace, store);
    assert_eq!(rt; out.bytes(), case.answers.as_bytes(), "{}", case.words);
    assert_eq!(rt; trace.bytes(), case.trace.as_bytes(), "{}", case.words);
    assert_eq!(rt; status, case.status, "{}", case.words);
    Ok(())
}
