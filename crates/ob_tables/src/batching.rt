//! INSERTs that are served together.
ghost use Rattle.std.specs.Prelude.{◌≡◌, ◌<◌, ◌≤◌, ◌+◌, ◌*◌, ◌∷◌, ◌++◌, ◌^◌, [], Some, false, length, map, drop, IfOk, OnOk, IsSome};
ghost use Rattle.std.specs.List.{All};
ghost use Rattle.ob_mean.specs.Batches.{inserts_into};
ghost use Rattle.ob_row.specs.Spelling.{IsCell};
ghost use Rattle.ob_sql.specs.Skeleton.{skeleton};
ghost use Rattle.ob_tables.specs.Agreeing.{Agrees, has_ended, public_of, count_of};
ghost use Rattle.ob_tables.specs.Batch.{AreBatch, ServesBatch, answers_behind, failed_by, given_all, given_next, refusal_by, row_of, rows_in};

use crate::engine::Engine;
use crate::inserting::outcome_of;
use crate::stop::RunStop;
use ob_base::{Items, Name, NoMemory, Public, Refusal, Schema};
use ob_flat::OpErr;
use ob_mean::{early_refusal, new_row};
use ob_mutate::{Inserted, insert_all};
use ob_order::Order;
use ob_row::Cell;
use ob_sql::Stmt;
use ob_store::BlockStore;
use ob_vault::Revisions;
use ob_verdict::Outcome;
use std::alloc::Global;

// The table that an INSERT names.
fn table_of(insert: &Stmt) -> &Name
    requires { IsSome (inserts_into (skeleton insert.now)) }
    ensures { inserts_into (skeleton insert.now) ≡ Some result.now }
{
    let Stmt::Insert { table, .. } = insert else {
        unreachable!()
    };
    table
}

// The row that it gives, in the table's order, or want of memory.
fn row_of(alloc: Global, schema: &Schema, insert: &Stmt) -> Result<Items<Cell>, NoMemory>
    requires { IsSome (inserts_into (skeleton insert.now)) }
    ensures value { IfOk result (λ row. row ≡ row_of schema.now insert.now) }
    ensures held { IfOk result (λ row. All IsCell row) }
{
    let Stmt::Insert {
        columns,
        values,
        ..
    } = insert
    else {
        unreachable!()
    };
    match new_row(alloc, schema, columns, values.as_slice()) {
        Ok(cells) => Ok(Items::from_vec(cells)),
        Err(NoMemory) => Err(NoMemory),
    }
}

// Adds that row to others.
fn add_row(
    alloc: Global,
    schema: &Schema,
    insert: &Stmt,
    rows: &mut Vec<Items<Cell>>,
) -> Result<(), NoMemory>
    requires insert { IsSome (inserts_into (skeleton insert.now)) }
    requires held { All (All IsCell) rows.old.items }
    ensures rows { OnOk result (rows.new.items
        ≡ rows.old.items ++ row_of schema.now insert.now ∷ []) }
    ensures held { OnOk result (All (All IsCell) rows.new.items) }
{
    match row_of(alloc, schema, insert) {
        Err(NoMemory) => Err(NoMemory),
        Ok(row) => match rows.push(row) {
            Ok(()) => Ok(()),
            Err(_) => Err(NoMemory),
        },
    }
}

// Adds it where the INSERT isn't refused before any access, and says how it is refused, if it is.
#[tactic(auto, using(crate::proofs::BatchLoops::none_added, crate::proofs::BatchLoops::one_added))]
fn add_next(
    alloc: Global,
    public: &Public,
    schema: &Schema,
    insert: &Stmt,
    rows: &mut Vec<Items<Cell>>,
) -> Result<Option<Refusal>, NoMemory>
    requires pack { 1 ≤ public.now.pack }
    requires buffer { 3 * public.now.pack + 1 ≤ public.now.buffer }
    requires insert { IsSome (inserts_into (skeleton insert.now)) }
    requires held { All (All IsCell) rows.old.items }
    ensures rows { OnOk result (rows.new.items
        ≡ rows.old.items ++ rows_in false public.now schema.now (insert.now ∷ [])) }
    ensures held { OnOk result (All (All IsCell) rows.new.items) }
    ensures refusal { IfOk result (λ refusal.
        refusal ≡ refusal_by false public.now insert.now) }
{
    match early_refusal(false, public, insert) {
        Some(refusal) => Ok(Some(refusal)),
        None => match add_row(alloc, schema, insert, rows) {
            Ok(()) => Ok(None),
            Err(NoMemory) => Err(NoMemory),
        },
    }
}

// The same of each of them, in order.
fn add_rows(
    alloc: Global,
    public: &Public,
    schema: &Schema,
    rest: &[Stmt],
    rows: &mut Vec<Items<Cell>>,
) -> Result<Vec<Option<Refusal>>, NoMemory>
    requires pack { 1 ≤ public.now.pack }
    requires buffer { 3 * public.now.pack + 1 ≤ public.now.buffer }
    requires inserts { All (λ stmt. IsSome (inserts_into (skeleton stmt))) rest.now }
    requires held { All (All IsCell) rows.old.items }
    ensures rows { OnOk result (rows.new.items
        ≡ rows.old.items ++ rows_in false public.now schema.now rest.now) }
    ensures held { OnOk result (All (All IsCell) rows.new.items) }
    ensures refusals { IfOk result (λ refusals.
        refusals.items ≡ map (refusal_by false public.now) rest.now) }
{
    let mut refusals = Vec::new(alloc);
    for insert in rest {
        match add_next(alloc, public, schema, insert, rows) {
            Ok(refusal) => match refusals.push(refusal) {
                Ok(()) => {}
                Err(_) => return Err(NoMemory),
            },
            Err(NoMemory) => return Err(NoMemory),
        }
    }
    Ok(refusals)
}

// The rows of a batch, how each of the others is refused, an order of as many places as there are rows, and a place for
// the answer to each.
#[derive(Drop)]
struct Batch {
    rows: Vec<Items<Cell>>,
    refusals: Vec<Option<Refusal>>,
    order: Order,
    answers: Vec<Inserted>,
}

impl Batch {
    // That of these rows and refusals.
    fn of_rows(
        alloc: Global,
        rows: Vec<Items<Cell>>,
        refusals: Vec<Option<Refusal>>,
    ) -> Result<Batch, NoMemory>
        requires { length rows.items < 2 ^ 32 }
        ensures rows { IfOk result (λ batch. batch.rows ≡ rows) }
        ensures refusals { IfOk result (λ batch. batch.refusals ≡ refusals) }
        ensures places { IfOk result (λ batch. batch.order.most ≡ length rows.items) }
        ensures answers { IfOk result (λ batch. length batch.answers.items ≡ length rows.items) }
    {
        let Ok(order) = Order::new(alloc, rows.len() as u32) else {
            return Err(NoMemory);
        };
        match Vec::from_elem(alloc, Inserted::Done, rows.len()) {
            Ok(answers) => Ok(Batch {
                rows,
                refusals,
                order,
                answers,
            }),
            Err(_) => Err(NoMemory),
        }
    }
}

// What is answered by a refusal, or else where so many answers are given already, and how many are then.
#[tactic(auto, using(crate::proofs::BatchLoops::given_here, crate::proofs::BatchLoops::behind_here, crate::proofs::BatchLoops::given_none, crate::proofs::BatchLoops::behind_none))]
fn give_next(refusal: Option<Refusal>, answers: &[Inserted], given: usize) -> (Outcome, usize)
    requires { given ≤ length answers.now }
    ensures outcome { result.0 ≡ given_next refusal (drop given answers.now) }
    ensures behind { drop result.1 answers.now ≡ answers_behind refusal (drop given answers.now) }
    ensures within { result.1 ≤ length answers.now }
{
    match refusal {
        Some(refusal) => (Outcome::Refused(refusal), given),
        None => {
            if given < answers.len() {
                (outcome_of(answers[given]), given + 1)
            } else {
                (Outcome::Inserted, given)
            }
        }
    }
}

// Gives the answers after so many, in order, to those that aren't refused before any access.
fn give_all(
    refusals: &[Option<Refusal>],
    answers: &[Inserted],
    given: usize,
    outcomes: &mut [Outcome],
)
    requires within { given ≤ length answers.now }
    requires each { length outcomes.old ≡ length refusals.now }
    ensures { outcomes.new ≡ given_all (drop given answers.now) refusals.now }
{
    let mut given = given;
    for j in 0..refusals.len() {
        let (outcome, behind) = give_next(refusals[j], answers, given);
        outcomes[j] = outcome;
        given = behind;
    }
}

fn failed_by(refusal: Option<Refusal>) -> Outcome
    ensures { result ≡ failed_by refusal }
{
    match refusal {
        Some(refusal) => Outcome::Refused(refusal),
        None => Outcome::Refused(Refusal::StoreFault),
    }
}

// The store failed them all except those that are refused before any access.
fn fail_all(refusals: &[Option<Refusal>], outcomes: &mut [Outcome])
    requires { length outcomes.old ≡ length refusals.now }
    ensures { outcomes.new ≡ map failed_by refusals.now }
{
    for j in 0..refusals.len() {
        outcomes[j] = failed_by(refusals[j]);
    }
}

impl<R: Revisions> Engine<R> {
    // The batch of an INSERT that isn't refused before any access and of those after it that aren't.
    fn batch_of(&self, schema: &Schema, first: &Stmt, rest: &[Stmt]) -> Result<Batch, NoMemory>
        requires pack { 1 ≤ (public_of self.now).pack }
        requires buffer { 3 * (public_of self.now).pack + 1 ≤ (public_of self.now).buffer }
        requires insert { IsSome (inserts_into (skeleton first.now)) }
        requires inserts { All (λ stmt. IsSome (inserts_into (skeleton stmt))) rest.now }
        requires few { length rest.now < 65536 }
        ensures rows { IfOk result (λ batch. batch.rows.items ≡ row_of schema.now first.now
            ∷ rows_in false (public_of self.now) schema.now rest.now) }
        ensures held { IfOk result (λ batch. All (All IsCell) batch.rows.items) }
        ensures places { IfOk result (λ batch. batch.order.most ≡ length batch.rows.items) }
        ensures answers { IfOk result (λ batch.
            length batch.answers.items ≡ length batch.rows.items) }
        ensures refusals { IfOk result (λ batch. batch.refusals.items
            ≡ map (refusal_by false (public_of self.now)) rest.now) }
    {
        let mut rows = Vec::new(self.alloc);
        match add_row(self.alloc, schema, first, &mut rows) {
            Ok(()) => match add_rows(self.alloc, &self.public, schema, rest, &mut rows) {
                Ok(refusals) => Batch::of_rows(self.alloc, rows, refusals),
                Err(NoMemory) => Err(NoMemory),
            },
            Err(NoMemory) => Err(NoMemory),
        }
    }

    /// INSERTs into one flat table, one after the other, in one reading and one writing pass: `first`, which a batch
    /// begins with, and those after it, which are answered in `outcomes`. Their rows go to the table's first empty
    /// slots; one that is refused before any access has none. The table lies in a fresh region then.
    ///
    /// The accesses are those of `first` alone. Where the store fails, it fails each that has a row; and after a stop
    /// none is answered, and what stands in `outcomes` has no meaning.
    pub fn insert_batch<S: BlockStore>(
        &mut self,
        store: &mut S,
        first: &Stmt,
        rest: &[Stmt],
        outcomes: &mut [Outcome],
    ) -> Result<Outcome, RunStop>
        requires agrees { Agrees R.state self.old (S.state store.old) }
        requires lives { has_ended self.old ≡ false }
        requires batch { AreBatch (public_of self.old) (count_of self.old (S.state store.old))
            first.now rest.now }
        requires each { length outcomes.old ≡ length rest.now }
        ensures serves { ServesBatch R.state first.now rest.now result outcomes.new
            self.old (S.state store.old) self.new (S.state store.new) }
    {
        let (i, mut flat) = self.table_at(table_of(first));
        let former = self.former();
        let Ok(mut batch) = self.batch_of(&flat.schema, first, rest) else {
            return self.cut(0, OpErr::NoMemory);
        };
        let before = store.count();
        if self.make_room(store, &flat, 3).is_err() {
            return self.cut(0, OpErr::NoMemory);
        }
        let rows = batch.rows.as_slice();
        let refusals = batch.refusals.as_slice();
        let answers = batch.answers.as_mut_slice();
        let result = insert_all(
            store,
            &mut self.vault,
            &mut self.room,
            self.alloc,
            &mut batch.order,
            &mut flat,
            rows,
            answers,
            former,
        );
        let accesses = store.count() - before;
        match result {
            Ok(()) => {
                self.move_table(i, flat.region);
                let (outcome, given) = give_next(None, answers, 0);
                give_all(refusals, answers, given, outcomes);
                Ok(self.finish(outcome))
            }
            Err(error) => {
                fail_all(refusals, outcomes);
                self.cut(accesses, error)
            }
        }
    }
}
