//! SELECT.
ghost use Rattle.std.specs.Prelude.{◌≡◌, ◌∷◌, [], Some, None, if◌then◌else◌, nat_lt, length, map, filter_map, IfOk};
ghost use Rattle.ob_base.specs.declared.refusal.Refusal.TheVariants.{TooManyGroups};
ghost use Rattle.ob_row.specs.Totals.{totals, grouped, group_heads};
ghost use Rattle.ob_sql.specs.declared.stmt.Stmt.TheVariants.{SelectRows as RowsStmt, SelectTotals as TotalsStmt};
ghost use Rattle.ob_mean.specs.declared.answer.Answer.TheVariants.{Rows};
ghost use Rattle.ob_names.specs.Names.{columns_in};
ghost use Rattle.ob_mean.specs.Step.{agg_of, item_of, answered, late_refusal, accepted_answer};
ghost use Rattle.ob_reference.specs.Selected.{selected_answer};

use crate::groups::{add_listed, group_heads, grouped};
use crate::printed::printed_rows;
use crate::sources::{scope_of, selected_rows, totalled_rows};
use crate::tables::{Database, Tuple, columns_at};
use crate::totals::add_totals;
use ob_base::{Items, NoMemory, Refusal, Shown};
use ob_mean::Answer;
use ob_names::Scope;
use ob_row::Item;
use ob_sql::{Listed, SelectRows, SelectTotals};
use std::alloc::Global;

// The one row of aggregates without GROUP BY.
fn totals_row(
    alloc: Global,
    items: &[Listed],
    scope: &Scope<'_>,
    rows: &[Tuple],
) -> Result<Items<Items<Shown>>, NoMemory>
    ensures { IfOk result
        (λ answer. answer
        ≡ totals (filter_map (agg_of (columns_in scope.now)) items.now) rows.now ∷ []) }
{
    let mut answer = Items::new(alloc);
    let mut fields = Items::new(alloc);
    match add_totals(items, scope, rows, &mut fields) {
        Err(_) => Err(NoMemory),
        Ok(()) => match answer.push(fields) {
            Err(_) => Err(NoMemory),
            Ok(()) => Ok(answer),
        },
    }
}

fn items_at(alloc: Global, items: &[Listed], scope: &Scope<'_>) -> Result<Vec<Item>, NoMemory>
    ensures { IfOk result (λ its. its.items ≡ map (item_of (columns_in scope.now)) items.now) }
{
    let mut placed = Vec::new(alloc);
    match add_listed(items, scope, &mut placed) {
        Err(_) => Err(NoMemory),
        Ok(()) => Ok(placed),
    }
}

// The answer with GROUP BY, or that there are more than `limit` groups.
fn group_answer(
    alloc: Global,
    limit: u64,
    key: usize,
    items: &[Item],
    rows: &[Tuple],
) -> Result<Answer, NoMemory>
    ensures { IfOk result
        (λ a. a ≡ answered
        (if nat_lt limit (length (group_heads key rows.now)) then Some TooManyGroups else None)
        (Rows (grouped key items.now rows.now))) }
{
    match group_heads(alloc, key, rows) {
        Err(_) => Err(NoMemory),
        Ok(heads) => {
            if heads.len() as u64 > limit {
                return Ok(Answer::Refused(Refusal::TooManyGroups));
            }
            match grouped(alloc, key, heads.as_slice(), items, rows) {
                Err(_) => Err(NoMemory),
                Ok(answer) => Ok(Answer::Rows(answer)),
            }
        }
    }
}

// The answer of a SELECT of totals of these rows.
#[tactic(auto, using(crate::proofs::SelectLemmas::with_group, crate::proofs::SelectLemmas::without_group))]
fn totals_of(
    alloc: Global,
    limit: u64,
    select: &SelectTotals,
    scope: &Scope<'_>,
    rows: &[Tuple],
) -> Result<Answer, NoMemory>
    ensures { IfOk result (λ a.
        a ≡ selected_answer limit select.now (columns_in scope.now) rows.now) }
{
    match &select.group {
        None => match totals_row(alloc, select.items.as_slice(), scope, rows) {
            Err(_) => Err(NoMemory),
            Ok(answer) => Ok(Answer::Rows(answer)),
        },
        Some(key) => match items_at(alloc, select.items.as_slice(), scope) {
            Err(_) => Err(NoMemory),
            Ok(items) => group_answer(alloc, limit, scope.place_of(key), items.as_slice(), rows),
        },
    }
}

impl Database {
    /// The answer of a SELECT of rows that is not refused early.
    #[tactic(auto, using(crate::proofs::SourceLemmas::source_split))]
    pub fn select_rows(&self, alloc: Global, select: &SelectRows) -> Result<Answer, NoMemory>
        ensures { IfOk result (λ a. a ≡ accepted_answer self.now (RowsStmt select.now)) }
    {
        let tables = self.tables.as_slice();
        match selected_rows(alloc, tables, select) {
            Err(_) => Err(NoMemory),
            Ok(rows) => {
                let scope = scope_of(tables, &select.source);
                match printed_rows(alloc, select, &scope, rows.as_slice()) {
                    Err(_) => Err(NoMemory),
                    Ok(answer) => Ok(Answer::Rows(answer)),
                }
            }
        }
    }

    /// The answer of a SELECT of totals that is not refused early: its rows, or that there are more than
    /// `limit` groups.
    #[tactic(auto, using(ob_mean::proofs::CondLemmas::one_table))]
    pub fn select_totals(
        &self,
        alloc: Global,
        limit: u64,
        select: &SelectTotals,
    ) -> Result<Answer, NoMemory>
        ensures { IfOk result (λ a. a
            ≡ answered
            (late_refusal limit self.now (TotalsStmt select.now))
            (accepted_answer self.now (TotalsStmt select.now))) }
    {
        let tables = self.tables.as_slice();
        match totalled_rows(alloc, tables, select) {
            Err(_) => Err(NoMemory),
            Ok(rows) => {
                let scope = Scope::of_table(columns_at(tables, &select.table));
                totals_of(alloc, limit, select, &scope, rows.as_slice())
            }
        }
    }
}
