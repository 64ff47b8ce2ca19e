//! A table, and a flight over it.
ghost use Rattle.std.specs.Prelude.{◌≡◌, ◌≤◌, Bool, true, length, OnOk};
ghost use Rattle.std.specs.List.{All};
ghost use Rattle.ob_exec.specs.InFlight.{FliesBy, flight_most};
ghost use Rattle.ob_flight_tests.specs.Sessions.{IsSession};

use crate::answers::Answers;
use crate::fault::Fault;
use crate::shown::{put_asked, put_seen, put_text};
use crate::turns::InTurn;
use ob_base::{End, Public, Seen, Source};
use ob_exec::{NoCommit, run, run_flight};
use ob_mean::is_index;
use ob_parse::parse;
use ob_print::stop_line;
use ob_sql::Stmt;
use ob_store::BlockStore;
use ob_tables::{Engine, RunStop, seen_to_end};
use ob_vault::Revisions;
use std::alloc::Global;

/// The statement that a text spells.
pub(crate) fn statement(alloc: Global, text: &str) -> Result<Stmt, Fault> {
    if text.len() >= 1 << 32 {
        return Err(Fault::Usage);
    }
    match parse(alloc, text.as_bytes()) {
        Ok(stmt) => Ok(stmt),
        Err(_) => Err(Fault::Usage),
    }
}

// Carries out a statement alone.
fn serve<S: BlockStore, R: Revisions>(
    engine: &mut Engine<R>,
    store: &mut S,
    stmt: &Stmt,
    out: &mut Answers,
) -> Result<(), Fault>
    requires session { IsSession R.state engine.old (S.state store.old) }
    ensures session { OnOk result (IsSession R.state engine.new (S.state store.new)) }
{
    match run(engine, store, &mut NoCommit, stmt, out) {
        Ok(_) => Ok(()),
        Err(_) => Err(Fault::Unfilled),
    }
}

// Carries out the statement of a text.
fn serve_text<S: BlockStore, R: Revisions>(
    alloc: Global,
    engine: &mut Engine<R>,
    store: &mut S,
    text: &str,
    out: &mut Answers,
) -> Result<(), Fault>
    requires session { IsSession R.state engine.old (S.state store.old) }
    ensures session { OnOk result (IsSession R.state engine.new (S.state store.new)) }
{
    match statement(alloc, text) {
        Ok(stmt) => serve(engine, store, &stmt, out),
        Err(fault) => Err(fault),
    }
}

// Makes the table, with four rows.
fn fill<S: BlockStore, R: Revisions>(
    alloc: Global,
    engine: &mut Engine<R>,
    store: &mut S,
    out: &mut Answers,
) -> Result<(), Fault>
    requires session { IsSession R.state engine.old (S.state store.old) }
    ensures session { OnOk result (IsSession R.state engine.new (S.state store.new)) }
{
    let texts = [
        "CREATE TABLE t (id INT PRIMARY KEY, v INT) CAPACITY 4;",
        "INSERT INTO t VALUES (1, 10);",
        "INSERT INTO t VALUES (2, 20);",
        "INSERT INTO t VALUES (3, 10);",
        "INSERT INTO t VALUES (4, 20);",
    ];
    for text in texts {
        match serve_text(alloc, engine, store, text, out) {
            Ok(()) => {}
            Err(fault) => return Err(fault),
        }
    }
    Ok(())
}

// Whether a statement is a SELECT without a join, of a table that is no index.
fn flies(public: &Public, stmt: &Stmt) -> bool
    ensures { result ≡ true → (late : Bool) → FliesBy late public.now stmt.now }
{
    match stmt {
        Stmt::SelectRows(select) => match &select.source {
            Source::Table(name) => !is_index(public.tables.as_slice(), name),
            Source::Join { .. } => false,
        },
        Stmt::SelectTotals(_) => true,
        Stmt::Create { .. }
        | Stmt::Insert { .. }
        | Stmt::Update { .. }
        | Stmt::Delete { .. }
        | Stmt::Drop { .. } => false,
    }
}

fn all_fly(public: &Public, stmts: &[Stmt]) -> bool
    ensures { result ≡ true → (late : Bool) → All (FliesBy late public.now) stmts.now }
{
    match stmts.split_first() {
        None => true,
        Some((stmt, stmts)) => flies(public, stmt) && all_fly(public, stmts),
    }
}

// Whether there are so many statements as may fly.
fn are_few(public: &Public, n: usize) -> bool
    ensures { result ≡ true → (2 ≤ n) × (n ≤ flight_most public.now) }
{
    let blocks = 3 * u32::from(public.pack) + 1;
    2 <= n && n <= 8 && n as u32 <= public.buffer / blocks
}

// Carries out a flight, and writes its stop.
fn fly<S: BlockStore, R: Revisions>(
    engine: &mut Engine<R>,
    store: &mut S,
    stmts: &[Stmt],
    odd: bool,
    out: &mut Answers,
    seens: &mut [Seen],
) -> Result<(), Fault>
    requires session { IsSession R.state engine.old (S.state store.old) }
    requires each { length seens.old ≡ length stmts.now }
{
    let public = engine.public();
    if !are_few(public, stmts.len()) || !all_fly(public, stmts) {
        return Err(Fault::Usage);
    }
    let mut turns = InTurn { odd };
    match run_flight(engine, store, stmts, &mut turns, out, seens) {
        Ok(()) => Ok(()),
        Err(stop) => put_stop(out, stop),
    }
}

fn put_stop(out: &mut Answers, stop: RunStop) -> Result<(), Fault> {
    put_text(&mut out.text, &stop_line(stop.into()))?;
    Ok(out.text.push_str("\n")?)
}

// Carries out a flight, and writes what is seen of each statement.
fn fly_seen<S: BlockStore, R: Revisions>(
    engine: &mut Engine<R>,
    store: &mut S,
    stmts: &[Stmt],
    odd: bool,
    out: &mut Answers,
) -> Result<(), Fault>
    requires session { IsSession R.state engine.old (S.state store.old) }
{
    let mut seens = [seen_to_end(End::Whole); 8];
    let Some(seens) = seens.get_mut(..stmts.len()) else {
        return Err(Fault::Usage);
    };
    fly(engine, store, stmts, odd, out, seens)?;
    Ok(put_seen(&mut out.text, seens)?)
}

/// Fills the table, and carries out a flight over it.
pub(crate) fn session<S: BlockStore, R: Revisions>(
    alloc: Global,
    engine: &mut Engine<R>,
    store: &mut S,
    stmts: &[Stmt],
    odd: bool,
    out: &mut Answers,
) -> Result<(), Fault>
    requires session { IsSession R.state engine.old (S.state store.old) }
{
    fill(alloc, engine, store, out)?;
    let from = store.count();
    fly_seen(engine, store, stmts, odd, out)?;
    Ok(put_asked(&mut out.text, store, from)?)
}
