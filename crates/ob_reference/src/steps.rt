//! One statement.
ghost use Rattle.std.specs.Prelude.{◌≡◌, ◌≤◌, ◌+◌, ◌*◌, ◌++◌, None, false, IfOk, OnOk, OnErr};
ghost use Rattle.ob_base.specs.Limits.{buffered};
ghost use Rattle.ob_base.specs.Stored.{headings};
ghost use Rattle.ob_mean.specs.declared.answer.Answer.TheVariants.{Done};
ghost use Rattle.ob_base.specs.Stored.{headings_of};
ghost use Rattle.ob_base.specs.Publics.{first_public};
ghost use Rattle.ob_mean.specs.Refusals.{early_refusal, limits_of};
ghost use Rattle.ob_mean.specs.Step.{late_refusal, answered, followed, accepted_answer, accepted_next};
ghost use Rattle.ob_reference.specs.Runs.{HasSizes, answer, next};

use crate::tables::{Database, Held};
use ob_base::{Config, Heading, Items, NoMemory, Public, Refusal, Table};
use ob_mean::{Answer, early_refusal};
use ob_sql::Stmt;
use std::alloc::Global;

fn heading_copied(heading: &Heading) -> Heading
    ensures { result ≡ heading.now }
{
    Heading {
        name: heading.name.copied(),
        schema: heading.schema.copied(),
        capacity: heading.capacity,
        shape: heading.shape,
    }
}

// Adds the headings of the tables.
#[tactic(auto, using(crate::proofs::PlaceLemmas::map_append))]
fn add_headings(tables: &[Held], to: &mut Items<Table>) -> Result<(), NoMemory>
    ensures { OnOk result (headings_of to.new ≡ headings_of to.old ++ headings tables.now) }
{
    match tables.split_first() {
        None => Ok(()),
        Some((table, tables)) => {
            let table = Table {
                heading: heading_copied(table.heading()),
                region: 0,
            };
            match to.push(table) {
                Err(_) => Err(NoMemory),
                Ok(()) => add_headings(tables, to),
            }
        }
    }
}

// What is known of the tables without their rows.
fn public_of(alloc: Global, config: &Config, tables: &[Held]) -> Result<Public, NoMemory>
    ensures tables { IfOk result (λ p. headings_of p.tables ≡ headings tables.now) }
    ensures pack { IfOk result (λ p. p.pack ≡ config.now.pack) }
    ensures buffer { IfOk result (λ p. p.buffer ≡ config.now.buffer) }
    ensures stash { IfOk result (λ p. p.stash ≡ config.now.stash) }
    ensures keep { IfOk result (λ p. p.keep ≡ config.now.keep) }
{
    let mut items = Items::new(alloc);
    match add_headings(tables, &mut items) {
        Err(_) => Err(NoMemory),
        Ok(()) => Ok(Public {
            tables: items,
            next_region: 0,
            buffer: config.buffer,
            depth: config.depth,
            pack: config.pack,
            planner: config.planner,
            pad: config.pad,
            stash: config.stash,
            keep: config.keep,
            save: config.save,
            batch: config.batch,
            closing: None,
        }),
    }
}

// The refusal that looks at no row.
fn early_of(
    alloc: Global,
    config: &Config,
    tables: &[Held],
    stmt: &Stmt,
) -> Result<Option<Refusal>, NoMemory>
    requires pack { 1 ≤ config.now.pack }
    requires buffer { 3 * config.now.pack + 1 ≤ config.now.buffer }
    ensures { IfOk result
        (λ r. r ≡ early_refusal false (limits_of (first_public config.now))
        (headings tables.now) stmt.now) }
{
    match public_of(alloc, config, tables) {
        Err(_) => Err(NoMemory),
        Ok(public) => Ok(early_refusal(false, &public, stmt)),
    }
}

// As many groups may be kept.
fn buffered(config: &Config) -> u64
    requires pack { 1 ≤ config.now.pack }
    requires buffer { 3 * config.now.pack + 1 ≤ config.now.buffer }
    ensures { result ≡ buffered config.now.pack config.now.buffer }
{
    let pack = u64::from(config.pack);
    pack * ((u64::from(config.buffer) - 2 * pack) / pack)
}

fn refused_or_done(refusal: Option<Refusal>) -> Answer
    ensures { result ≡ answered refusal Done }
{
    match refusal {
        None => Answer::Done,
        Some(refusal) => Answer::Refused(refusal),
    }
}

impl Database {
    // Carries a statement out that is not refused early, or refuses it.
    fn carry_out(&mut self, alloc: Global, limit: u64, stmt: &Stmt) -> Result<Answer, NoMemory>
        requires { HasSizes stmt.now }
        ensures answer { IfOk result
            (λ a. a ≡ answered (late_refusal limit self.old stmt.now)
            (accepted_answer self.old stmt.now)) }
        ensures next { OnOk result
            (self.new
            ≡ followed (late_refusal limit self.old stmt.now)
            (accepted_next self.old stmt.now) self.old) }
        ensures err { OnErr result (self.new ≡ self.old) }
    {
        match stmt {
            Stmt::Create {
                table,
                columns,
                capacity,
                shape,
            } => match self.create(alloc, table, columns.as_slice(), *capacity, *shape) {
                Err(_) => Err(NoMemory),
                Ok(()) => Ok(Answer::Done),
            },
            Stmt::Insert {
                table,
                columns,
                values,
            } => match self.insert(alloc, table, columns, values.as_slice()) {
                Err(_) => Err(NoMemory),
                Ok(refusal) => Ok(refused_or_done(refusal)),
            },
            Stmt::Update { table, sets, cond } => {
                Ok(Answer::Changed(self.update(table, sets.as_slice(), cond)))
            }
            Stmt::Delete { table, cond } => Ok(Answer::Changed(self.delete(table, cond))),
            Stmt::Drop { table } => {
                self.drop_table(table);
                Ok(Answer::Done)
            }
            Stmt::SelectRows(select) => self.select_rows(alloc, select),
            Stmt::SelectTotals(select) => self.select_totals(alloc, limit, select),
        }
    }

    /// Carries a statement out, or refuses it by the smallest number whose condition holds. Want of memory
    /// leaves the tables as they were.
    #[tactic(auto, using(crate::proofs::StepLemmas::sizes))]
    pub fn step(&mut self, alloc: Global, config: &Config, stmt: &Stmt) -> Result<Answer, NoMemory>
        requires pack { 1 ≤ config.now.pack }
        requires buffer { 3 * config.now.pack + 1 ≤ config.now.buffer }
        ensures answer { IfOk result (λ a. a ≡ answer config.now self.old stmt.now) }
        ensures next { OnOk result (self.new ≡ next config.now self.old stmt.now) }
        ensures err { OnErr result (self.new ≡ self.old) }
    {
        match early_of(alloc, config, self.tables.as_slice(), stmt) {
            Err(_) => Err(NoMemory),
            Ok(Some(refusal)) => Ok(Answer::Refused(refusal)),
            Ok(None) => self.carry_out(alloc, buffered(config), stmt),
        }
    }
}
