//! The accesses of a statement, a line each.
ghost use Rattle.std.specs.Prelude.{◌≡◌, ◌<◌, ◌≤◌, [], drop, length, take, OnOk, IsErr};
ghost use Rattle.std.specs.Io.KnownBytes.{Appends};
ghost use Rattle.ob_headline.specs.Tracing.{traced};
ghost use Rattle.ob_io.specs.Causes.{HasCause};
ghost use Rattle.ob_print.specs.Cuts.{Outputs};
ghost use Rattle.ob_print.specs.Lines.{trace_text};
ghost use Rattle.ob_shell.specs.Traces.{LetsGoFrom};

use ob_base::Failed;
use ob_gen::Digester;
use ob_io::Sink;
use ob_print::{Pieces, access_line};
use ob_store::BlockStore;

// Writes the accesses from a place on, of which none waits afterwards.
fn write_accesses<S: BlockStore, T: Sink>(
    store: &S,
    from: u64,
    trace: &mut Pieces<'_, T>,
) -> Result<(), Failed>
    requires listed { (S.state store.now).let_go ≤ from }
    requires within { from ≤ length (S.state store.now).asked }
    requires none { trace.old.waiting.items ≡ [] }
    ensures same_sink { trace.new.out.ghost_name ≡ trace.old.out.ghost_name }
    ensures ok { OnOk result (Appends (T.written trace.old.out.now) (T.written trace.new.out.now)
        (trace_text (drop from (S.state store.now).asked))) }
    ensures cut { Outputs (T.written trace.old.out.now) (T.written trace.new.out.now) (IsErr result)
        (trace_text (drop from (S.state store.now).asked)) }
    ensures cause { HasCause (T.faults trace.old.out.now) (T.faults trace.new.out.now) result }
{
    let end = store.count();
    for i in from..end {
        let line = access_line(store.nth(i));
        if let Err(failed) = trace.write_all(line.as_bytes()) {
            return Err(failed);
        }
    }
    trace.flush()
}

// The same to a sink that takes them in pieces.
fn write_trace<S: BlockStore, T: Sink>(store: &S, from: u64, trace: &mut T) -> Result<(), Failed>
    requires listed { (S.state store.now).let_go ≤ from }
    requires within { from ≤ length (S.state store.now).asked }
    ensures ok { OnOk result (Appends (T.written trace.old) (T.written trace.new)
        (trace_text (drop from (S.state store.now).asked))) }
    ensures cut { Outputs (T.written trace.old) (T.written trace.new) (IsErr result)
        (trace_text (drop from (S.state store.now).asked)) }
    ensures cause { HasCause (T.faults trace.old) (T.faults trace.new) result }
{
    let mut pieces = Pieces::new(trace);
    write_accesses(store, from, &mut pieces)
}

/// Has the accesses from a place on digested, which the store still lists, and writes them, where they are traced at all.
pub fn trace_from<S: BlockStore, T: Sink, D: Digester>(
    tracing: bool,
    store: &S,
    from: u64,
    trace: &mut T,
    digest: &mut D,
) -> Result<(), Failed>
    requires listed { (S.state store.now).let_go ≤ from }
    requires within { from ≤ length (S.state store.now).asked }
    ensures ok { OnOk result (Appends (T.written trace.old) (T.written trace.new)
        (traced tracing (drop from (S.state store.now).asked))) }
    ensures cut { Outputs (T.written trace.old) (T.written trace.new) (IsErr result)
        (traced tracing (drop from (S.state store.now).asked)) }
    ensures cause { HasCause (T.faults trace.old) (T.faults trace.new) result }
    ensures took { D.took digest.old (take from (S.state store.now).asked)
        → D.took digest.new (S.state store.now).asked }
{
    digest.take_from(store, from);
    if tracing {
        write_trace(store, from, trace)
    } else {
        Ok(())
    }
}

/// Has the store's list let go of what was traced, where anything was asked from a place on.
pub fn let_go_from<S: BlockStore>(store: &mut S, from: u64)
    ensures { LetsGoFrom from (S.state store.old) (S.state store.new) }
{
    if from < store.count() {
        store.let_go();
    }
}
