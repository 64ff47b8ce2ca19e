//! The cases in which a sink doesn't take what comes of a statement.
use crate::case::{Case, LineErr, push_case};
use crate::file::Lines;
use crate::items::{Item, is_of_itself, statements_in};
use std::alloc::Global;

/// Pushes the cases in which a call of a sink fails, by its first word in a file: that of the answers, where a statement is
/// answered in one call, or that of the accesses, where those of a statement are traced in one. What stands above the
/// statement has come before, and what it was answered where its accesses aren't traced.
pub fn push_unwritten(
    alloc: Global,
    of: &Lines,
    items: &[Item],
    sink: &str,
    cases: &mut Vec<Case>,
) -> Result<(), LineErr> {
    if of.is_kept() {
        return Err(LineErr::Form);
    }
    let mut call: u64 = 0;
    for statement in 1..=statements_in(items) {
        if sink == "writes" || is_asking(items, statement) {
            call = call.saturating_add(1);
            let case = unwritten(alloc, of.name(), items, sink, call, statement)?;
            push_case(cases, case)?;
        }
    }
    Ok(())
}

// Whether a statement asks an access.
fn is_asking(items: &[Item], statement: u64) -> bool {
    let mut found = false;
    for item in items {
        if item.head == "@" && item.statement == statement {
            found = found || !item.rest.is_empty();
        }
    }
    found
}

// The case in which this call of a sink fails, which is that of a statement.
fn unwritten(
    alloc: Global,
    name: &str,
    items: &[Item],
    sink: &str,
    call: u64,
    statement: u64,
) -> Result<Case, LineErr> {
    let name = format!(in alloc; "{name}: call {call} of its {sink} fails")?;
    let calls = format!(in alloc; "fail {call}")?;
    let mut case = Case::new(alloc, name.as_str())?;
    case.take_part(alloc, sink, calls.as_str())?;
    case.take_part(alloc, "<", "")?;
    for item in items {
        let is_above = item.statement < statement;
        let is_answered = sink == "traces" && item.statement == statement;
        match item.head {
            head if is_of_itself(head) => {}
            "<" if is_above || is_answered => case.take_part(alloc, "<", item.rest)?,
            "@" if is_above => case.take_part(alloc, "@", item.rest)?,
            // none is traced where there is none above
            "@" => case.take_part(alloc, "@", "")?,
            "<" | "status" => {}
            _ => case.take_part(alloc, item.head, item.rest)?,
        }
    }
    case.take_part(alloc, "status", "6")?;
    Ok(case)
}
