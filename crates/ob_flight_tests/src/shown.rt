//! How what comes of a flight is printed.
use ob_base::{Access, End, Seen, Shown};
use ob_print::{Line, access_line};
use ob_store::BlockStore;
use std::alloc::AllocError;

/// Writes a line without its end.
pub(crate) fn put_text(out: &mut String, line: &Line) -> Result<(), AllocError> {
    let text = str::from_utf8(line.as_bytes()).unwrap_or("?");
    out.push_str(text.strip_suffix('\n').unwrap_or(text))
}

/// Writes a cell.
pub(crate) fn put_cell(out: &mut String, cell: &Shown) -> Result<(), AllocError> {
    match cell {
        Shown::Int(x) => write!(out, " {x}"),
        Shown::Text(text) => {
            let text = str::from_utf8(text.as_bytes()).unwrap_or("?");
            write!(out, " {text}")
        }
        Shown::Null => out.push_str(" NULL"),
    }
}

fn put_end(out: &mut String, end: End) -> Result<(), AllocError> {
    match end {
        End::Static => out.push_str("static"),
        End::Whole => out.push_str("whole"),
        End::AfterCount => out.push_str("after the count"),
        End::Batched => out.push_str("joined"),
        End::Cut(n) => write!(out, "cut at {n}"),
    }
}

// How many rows were seen to be selected, if that was, and how the accesses ended.
fn put_one_seen(out: &mut String, seen: &Seen) -> Result<(), AllocError> {
    if let Some(k) = seen.k {
        write!(out, "{k} rows ")?;
    }
    put_end(out, seen.end)
}

/// Writes what is seen of each statement.
pub(crate) fn put_seen(out: &mut String, seens: &[Seen]) -> Result<(), AllocError> {
    out.push_str("seen")?;
    for seen in seens {
        out.push_str(", ")?;
        put_one_seen(out, seen)?;
    }
    out.push_str("\n")
}

fn put_access(out: &mut String, access: Access) -> Result<(), AllocError> {
    out.push_str(", ")?;
    put_text(out, &access_line(access))
}

/// Writes the number of all accesses, and those that were asked from one on.
pub(crate) fn put_asked<S: BlockStore>(
    out: &mut String,
    store: &S,
    from: u64,
) -> Result<(), AllocError> {
    write!(out, "total {}", store.count())?;
    for i in from.max(store.gone())..store.count() {
        put_access(out, store.nth(i))?;
    }
    Ok(())
}
