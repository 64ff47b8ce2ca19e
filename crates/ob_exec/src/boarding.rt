//! The statements of a flight, before it.
ghost use Rattle.std.specs.Prelude.{◌≡◌, ◌≤◌, ◌+◌, ◌*◌, length, map, IfOk, None};
ghost use Rattle.std.specs.List.{All};
ghost use Rattle.ob_sql.specs.declared.stmt.Stmt.TheVariants.{SelectRows as RowsStmt, SelectTotals as TotalsStmt};
ghost use Rattle.ob_stages.specs.Flying.{flight_progress};
ghost use Rattle.ob_exec.specs.Boarding.{AreAboard, IsAboard, MayFlyBy, seen_first, share_of};
ghost use Rattle.ob_exec.specs.InFlight.{FliesBy, early_of};

use ob_base::{End, NoMemory, Public, Seen, Source};
use ob_mean::{early_refusal, where_at};
use ob_order::Buckets;
use ob_select::printed_places;
use ob_sql::{SelectRows, SelectTotals, Stmt};
use ob_stages::{Flight, GroupsFlight, RefusedFlight, RowsFlight, TotalsFlight};
use ob_tables::{seen_to_end, table_in};
use std::alloc::Global;

// ---- what is seen of each

// What is seen of a statement before it asks anything: that it is refused, or nothing.
fn seen_first(late: bool, public: &Public, stmt: &Stmt) -> Seen
    requires pack { 1 ≤ public.now.pack }
    requires buffer { 3 * public.now.pack + 1 ≤ public.now.buffer }
    ensures { result ≡ seen_first late public.now stmt.now }
{
    match early_refusal(late, public, stmt) {
        Some(_) => seen_to_end(End::Static),
        None => seen_to_end(End::Whole),
    }
}

/// The same of each.
pub(crate) fn see_first(late: bool, public: &Public, stmts: &[Stmt], seens: &mut [Seen])
    requires pack { 1 ≤ public.now.pack }
    requires buffer { 3 * public.now.pack + 1 ≤ public.now.buffer }
    requires each { length seens.old ≡ length stmts.now }
    ensures { seens.new ≡ map (seen_first late public.now) stmts.now }
{
    match stmts.split_first() {
        None => {}
        Some((stmt, stmts)) => match seens.split_first_mut() {
            None => unreachable!(),
            Some((seen, seens)) => {
                *seen = seen_first(late, public, stmt);
                see_first(late, public, stmts, seens);
            }
        },
    }
}

/// What was seen of each by now.
pub(crate) fn see_all(flights: &[Flight], seens: &mut [Seen])
    requires each { length seens.old ≡ length flights.now }
    ensures { seens.new ≡ map (λ f. (flight_progress f).served.seen) flights.now }
{
    match flights.split_first() {
        None => {}
        Some((flight, flights)) => match seens.split_first_mut() {
            None => unreachable!(),
            Some((seen, seens)) => {
                *seen = flight.seen();
                see_all(flights, seens);
            }
        },
    }
}

// ---- one of those that fly

// A SELECT of rows of a table.
fn board_rows<'a>(
    alloc: Global,
    late: bool,
    public: &'a Public,
    flown: u32,
    select: &'a SelectRows,
) -> Result<Flight<'a>, NoMemory>
    requires settings { MayFlyBy flown public.now }
    requires flies { FliesBy late public.now (RowsStmt select.now) }
    requires allowed { early_of late public.now (RowsStmt select.now) ≡ None }
    ensures { IfOk result (λ f. IsAboard late flown public.now (RowsStmt select.now) f) }
{
    let Source::Table(table) = &select.source else {
        unreachable!();
    };
    let (_, flat) = table_in(public.tables.as_slice(), table);
    let Ok(pred) = where_at(alloc, &select.cond, flat.schema.as_slice(), &[]) else {
        return Err(NoMemory);
    };
    let cols = printed_places(select, flat.schema.as_slice(), &[]);
    Ok(Flight::Rows(RowsFlight::new(public, flown, select, flat, pred, cols)))
}

// A SELECT of totals. The buckets of one with groups have a place for each row of its share.
fn board_totals<'a>(
    alloc: Global,
    late: bool,
    public: &'a Public,
    flown: u32,
    share: u32,
    select: &'a SelectTotals,
) -> Result<Flight<'a>, NoMemory>
    requires settings { MayFlyBy flown public.now }
    requires share { share ≡ share_of flown public.now }
    requires flies { FliesBy late public.now (TotalsStmt select.now) }
    requires allowed { early_of late public.now (TotalsStmt select.now) ≡ None }
    ensures { IfOk result (λ f. IsAboard late flown public.now (TotalsStmt select.now) f) }
{
    let (_, flat) = table_in(public.tables.as_slice(), &select.table);
    let Ok(pred) = where_at(alloc, &select.cond, flat.schema.as_slice(), &[]) else {
        return Err(NoMemory);
    };
    match &select.group {
        None => Ok(Flight::Totals(TotalsFlight::new(public, flown, select, flat, pred))),
        Some(key) => match Buckets::new(alloc, share) {
            Ok(buckets) => Ok(Flight::Groups(GroupsFlight::new(
                public, flown, select, flat, pred, key, buckets,
            ))),
            Err(NoMemory) => Err(NoMemory),
        },
    }
}

// Of whichever kind.
fn board<'a>(
    alloc: Global,
    late: bool,
    public: &'a Public,
    flown: u32,
    share: u32,
    stmt: &'a Stmt,
) -> Result<Flight<'a>, NoMemory>
    requires settings { MayFlyBy flown public.now }
    requires share { share ≡ share_of flown public.now }
    requires flies { FliesBy late public.now stmt.now }
    ensures { IfOk result (λ f. IsAboard late flown public.now stmt.now f) }
{
    if let Some(refusal) = early_refusal(late, public, stmt) {
        return Ok(Flight::Refused(RefusedFlight::new(public, flown, stmt, refusal)));
    }
    match stmt {
        Stmt::SelectRows(select) => board_rows(alloc, late, public, flown, select),
        Stmt::SelectTotals(select) => board_totals(alloc, late, public, flown, share, select),
        Stmt::Create { .. }
        | Stmt::Insert { .. }
        | Stmt::Update { .. }
        | Stmt::Delete { .. }
        | Stmt::Drop { .. } => unreachable!(),
    }
}

/// All of them.
pub(crate) fn board_all<'a>(
    alloc: Global,
    late: bool,
    public: &'a Public,
    share: u32,
    stmts: &'a [Stmt],
) -> Result<Vec<Flight<'a>>, NoMemory>
    requires settings { MayFlyBy (length stmts.now) public.now }
    requires share { share ≡ share_of (length stmts.now) public.now }
    requires fly { All (FliesBy late public.now) stmts.now }
    ensures { IfOk result (λ flights.
        AreAboard late (length stmts.now) public.now stmts.now flights.items) }
{
    let mut flights = Vec::new(alloc);
    for stmt in stmts {
        match board(alloc, late, public, stmts.len() as u32, share, stmt) {
            Ok(flight) => match flights.push(flight) {
                Ok(()) => {}
                Err(_) => return Err(NoMemory),
            },
            Err(NoMemory) => return Err(NoMemory),
        }
    }
    Ok(flights)
}
