//! SELECT is read, after its first word.
ghost use Rattle.std.specs.Prelude.{◌≡◌, Some, IfOk};
ghost use Rattle.std.specs.List.{flat_map};
ghost use Rattle.ob_sql.specs.Skeleton.{named_by};
ghost use Rattle.ob_parse.specs.Statements.{all_columns, is_column, of_items, of_table, rows};
ghost use Rattle.ob_condition.specs.Reading.{Gives};
ghost use Rattle.ob_parse.specs.StatementReading.{all_or_column, argument, behind, counted, greatest, group, groups, item, itemized, joined_or, joins, least, selection, sources, starred, summed};

use crate::outline::named;
use crate::part::list;
use ob_base::{ColumnName, Items, Name, NoMemory, Source};
use ob_condition::{Fault, column, expect, name, skip, where_part};
use ob_sql::{Cond, Listed, SelectRows, SelectTotals, Stmt};
use ob_token::{Mark, Token};
use std::alloc::Global;

#[tactic(auto, unfolding(crate::specs::StatementReading::argument))]
fn argument(tokens: &[Token]) -> Result<(ColumnName, &[Token]), Fault<'_>>
    ensures { Gives (λ c. c) result (argument tokens.now) }
{
    let rest = expect(tokens, Mark::Open)?;
    let (found, rest) = column(rest)?;
    let rest = expect(rest, Mark::Close)?;
    Ok((found, rest))
}

#[tactic(auto, unfolding(crate::specs::StatementReading::all_or_column))]
fn all_or_column(tokens: &[Token]) -> Result<(Listed, &[Token]), Fault<'_>>
    ensures { Gives (λ i. i) result (all_or_column tokens.now) }
{
    match skip(tokens, Mark::Star) {
        Some(rest) => Ok((Listed::CountAll, rest)),
        None => {
            let (found, rest) = column(tokens)?;
            Ok((Listed::Count(found), rest))
        }
    }
}

#[tactic(auto, unfolding(crate::specs::StatementReading::counted))]
fn counted(tokens: &[Token]) -> Result<(Listed, &[Token]), Fault<'_>>
    ensures { Gives (λ i. i) result (counted tokens.now) }
{
    let rest = expect(tokens, Mark::Open)?;
    let (found, rest) = all_or_column(rest)?;
    let rest = expect(rest, Mark::Close)?;
    Ok((found, rest))
}

#[tactic(auto, unfolding(crate::specs::StatementReading::greatest))]
fn greatest(tokens: &[Token]) -> Result<(Listed, &[Token]), Fault<'_>>
    ensures { Gives (λ i. i) result (greatest tokens.now) }
{
    match skip(tokens, Mark::Max) {
        Some(rest) => {
            let (found, rest) = argument(rest)?;
            Ok((Listed::Max(found), rest))
        }
        None => {
            let (found, rest) = column(tokens)?;
            Ok((Listed::Column(found), rest))
        }
    }
}

#[tactic(auto, unfolding(crate::specs::StatementReading::least))]
fn least(tokens: &[Token]) -> Result<(Listed, &[Token]), Fault<'_>>
    ensures { Gives (λ i. i) result (least tokens.now) }
{
    match skip(tokens, Mark::Min) {
        Some(rest) => {
            let (found, rest) = argument(rest)?;
            Ok((Listed::Min(found), rest))
        }
        None => greatest(tokens),
    }
}

#[tactic(auto, unfolding(crate::specs::StatementReading::summed))]
fn summed(tokens: &[Token]) -> Result<(Listed, &[Token]), Fault<'_>>
    ensures { Gives (λ i. i) result (summed tokens.now) }
{
    match skip(tokens, Mark::Sum) {
        Some(rest) => {
            let (found, rest) = argument(rest)?;
            Ok((Listed::Sum(found), rest))
        }
        None => least(tokens),
    }
}

#[tactic(auto, unfolding(crate::specs::StatementReading::item))]
pub(crate) fn item(tokens: &[Token]) -> Result<(Listed, &[Token]), Fault<'_>>
    ensures { Gives (λ i. i) result (item tokens.now) }
{
    match skip(tokens, Mark::Count) {
        Some(rest) => counted(rest),
        None => summed(tokens),
    }
}

#[tactic(auto, unfolding(crate::specs::StatementReading::joins))]
fn joins(left: Name, tokens: &[Token]) -> Result<(Source, &[Token]), Fault<'_>>
    ensures { Gives (λ s. s) result (joins left tokens.now) }
{
    let (right, rest) = name(tokens)?;
    let rest = expect(rest, Mark::On)?;
    let (on, rest) = column(rest)?;
    let rest = expect(rest, Mark::Equal)?;
    let (equals, rest) = column(rest)?;
    let found = Source::Join {
        left,
        right,
        on,
        equals,
    };
    Ok((found, rest))
}

#[tactic(auto, unfolding(crate::specs::StatementReading::joined_or))]
fn joined_or(left: Name, tokens: &[Token]) -> Result<(Source, &[Token]), Fault<'_>>
    ensures { Gives (λ s. s) result (joined_or left tokens.now) }
{
    match skip(tokens, Mark::Join) {
        Some(rest) => joins(left, rest),
        None => Ok((Source::Table(left), tokens)),
    }
}

#[tactic(auto, unfolding(crate::specs::StatementReading::behind))]
fn behind(left: Name, tokens: &[Token]) -> Result<(Source, &[Token]), Fault<'_>>
    ensures { Gives (λ s. s) result (behind left tokens.now) }
{
    match skip(tokens, Mark::Inner) {
        Some(rest) => {
            let rest = expect(rest, Mark::Join)?;
            joins(left, rest)
        }
        None => joined_or(left, tokens),
    }
}

fn is_plain(item: &Listed) -> bool
    ensures { result ≡ is_column item.now }
{
    match item {
        Listed::Column(_) => true,
        _ => false,
    }
}

fn are_plain(items: &[Listed]) -> bool
    ensures { result ≡ all_columns items.now }
{
    for item in items {
        if !is_plain(item) {
            return false;
        }
    }
    true
}

#[tactic(auto, unfolding(crate::specs::StatementReading::sources))]
fn sources(plain: bool, left: Name, tokens: &[Token]) -> Result<(Source, &[Token]), Fault<'_>>
    ensures { Gives (λ s. s) result (sources plain left tokens.now) }
{
    if plain {
        behind(left, tokens)
    } else {
        Ok((Source::Table(left), tokens))
    }
}

#[tactic(auto, unfolding(crate::specs::StatementReading::group))]
fn group(tokens: &[Token]) -> Result<(Option<ColumnName>, &[Token]), Fault<'_>>
    ensures { Gives (λ g. g) result (group tokens.now) }
{
    match skip(tokens, Mark::Group) {
        Some(rest) => {
            let rest = expect(rest, Mark::By)?;
            let (found, rest) = column(rest)?;
            Ok((Some(found), rest))
        }
        None => Ok((None, tokens)),
    }
}

#[tactic(auto, unfolding(crate::specs::StatementReading::groups))]
fn groups<'a>(
    source: &Source,
    tokens: &'a [Token],
) -> Result<(Option<ColumnName>, &'a [Token]), Fault<'a>>
    ensures { Gives (λ g. g) result (groups source.now tokens.now) }
{
    match source {
        Source::Table(_) => group(tokens),
        Source::Join { .. } => Ok((None, tokens)),
    }
}

#[tactic(auto, unfolding(crate::specs::StatementReading::starred))]
fn starred<'a>(
    alloc: Global,
    text: &[u8],
    tokens: &'a [Token],
) -> Result<(Stmt, &'a [Token]), Fault<'a>>
    ensures { Gives (λ s. s) result (starred text.now tokens.now) }
{
    let rest = expect(tokens, Mark::From)?;
    let (left, rest) = name(rest)?;
    let (source, rest) = behind(left, rest)?;
    let (cond, rest) = where_part(alloc, text, rest)?;
    let found = SelectRows {
        list: None,
        source,
        cond,
    };
    Ok((Stmt::SelectRows(found), rest))
}

// The rows of these columns.
fn rows_of(
    alloc: Global,
    columns: &[Listed],
    source: Source,
    cond: Option<Cond>,
) -> Result<Stmt, NoMemory>
    ensures { IfOk result (λ s. s ≡ rows (Some (flat_map named_by columns.now)) source cond) }
{
    match named(alloc, columns) {
        Ok(columns) => Ok(Stmt::SelectRows(SelectRows {
            list: Some(columns),
            source,
            cond,
        })),
        Err(_) => Err(NoMemory),
    }
}

// The statement of these items of a table.
fn of_table(
    alloc: Global,
    items: Items<Listed>,
    table: Name,
    cond: Option<Cond>,
    group: Option<ColumnName>,
) -> Result<Stmt, NoMemory>
    ensures { IfOk result (λ s. s ≡ of_table items table cond group) }
{
    if group.is_none() && are_plain(items.as_slice()) {
        rows_of(alloc, items.as_slice(), Source::Table(table), cond)
    } else {
        Ok(Stmt::SelectTotals(SelectTotals {
            items,
            table,
            cond,
            group,
        }))
    }
}

// The statement of these items.
fn of_items(
    alloc: Global,
    items: Items<Listed>,
    source: Source,
    cond: Option<Cond>,
    group: Option<ColumnName>,
) -> Result<Stmt, NoMemory>
    ensures { IfOk result (λ s. s ≡ of_items items source cond group) }
{
    match source {
        Source::Table(table) => of_table(alloc, items, table, cond, group),
        Source::Join { .. } => rows_of(alloc, items.as_slice(), source, cond),
    }
}

#[tactic(auto, unfolding(crate::specs::StatementReading::itemized))]
fn itemized<'a>(
    alloc: Global,
    text: &[u8],
    tokens: &'a [Token],
) -> Result<(Stmt, &'a [Token]), Fault<'a>>
    ensures { Gives (λ s. s) result (itemized text.now tokens.now) }
{
    let (items, rest) = list::<Listed>(alloc, text, tokens)?;
    let rest = expect(rest, Mark::From)?;
    let (left, rest) = name(rest)?;
    let (source, rest) = sources(are_plain(items.as_slice()), left, rest)?;
    let (cond, rest) = where_part(alloc, text, rest)?;
    let (group, rest) = groups(&source, rest)?;
    match of_items(alloc, items, source, cond, group) {
        Ok(found) => Ok((found, rest)),
        Err(_) => Err(Fault::Memory),
    }
}

#[tactic(auto, unfolding(crate::specs::StatementReading::selection))]
pub(crate) fn selection<'a>(
    alloc: Global,
    text: &[u8],
    tokens: &'a [Token],
) -> Result<(Stmt, &'a [Token]), Fault<'a>>
    ensures { Gives (λ s. s) result (selection text.now tokens.now) }
{
    match skip(tokens, Mark::Star) {
        Some(rest) => starred(alloc, text, rest),
        None => itemized(alloc, text, tokens),
    }
}
