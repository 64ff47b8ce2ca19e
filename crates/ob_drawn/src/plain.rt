//! What statements are answered by the plain evaluator, in which no table is sealed and no store is asked.
ghost use Rattle.std.specs.Prelude.{◌≤◌, ◌+◌, ◌*◌};

use crate::pen::Pen;
use crate::settings::Settings;
use crate::statements::What;
use ob_base::{Config, NoMemory, Planner, Shown};
use ob_mean::Answer;
use ob_parse::{ParseErr, parse};
use ob_print::refusal_line;
use ob_reference::Database;
use ob_sql::Stmt;
use ob_token::{Piece, split};
use std::alloc::Global;

/// A text of more bytes is not read.
const LONGEST: usize = 65_536;

/// The statement of a text.
pub fn read(alloc: Global, text: &[u8]) -> Result<Stmt, ParseErr> {
    if text.len() > LONGEST {
        return Err(ParseErr::Syntax(0));
    }
    parse(alloc, text)
}

// What of the settings the answers depend on.
fn config_of(settings: Settings) -> Config
    ensures pack { 1 ≤ result.pack }
    ensures buffer { 3 * result.pack + 1 ≤ result.buffer }
{
    let pack = settings.pack.max(1);
    Config {
        buffer: settings.buffer.max(3 * u32::from(pack) + 1),
        depth: 5,
        pack,
        planner: Planner::Auto,
        pad: None,
        stash: settings.stash,
        keep: false,
        save: false,
        batch: None,
        max_input: 1_073_741_824,
    }
}

/// What a statement is answered.
pub fn answer(
    alloc: Global,
    settings: Settings,
    db: &mut Database,
    stmt: &Stmt,
) -> Result<Answer, NoMemory> {
    db.step(alloc, &config_of(settings), stmt)
}

/// Has a database answer the texts that were typed.
pub fn replay(
    alloc: Global,
    settings: Settings,
    typed: &[u8],
    db: &mut Database,
) -> Result<(), NoMemory> {
    let mut rest = typed;
    for _ in 0..typed.len() {
        let Piece::Stmt { from, to } = split(rest) else {
            break;
        };
        match read(alloc, rest.get(from..to).unwrap_or(&[])) {
            Ok(stmt) => {
                let _ = answer(alloc, settings, db, &stmt)?;
            }
            Err(ParseErr::Syntax(_)) => {}
            Err(ParseErr::NoMemory) => return Err(NoMemory),
        }
        rest = rest.get(to..).unwrap_or(&[]);
    }
    Ok(())
}

// Writes a row as fields in quotes, each quote in them doubled.
fn put_row(to: &mut Pen, row: &[Shown]) {
    for (i, field) in row.iter().enumerate() {
        to.put(if i == 0 { "\"" } else { ",\"" });
        match field {
            Shown::Int(n) => to.put_number(*n),
            Shown::Text(text) => {
                for b in text.as_bytes() {
                    to.put(if *b == b'"' { "\"" } else { "" });
                    to.write(&[*b]);
                }
            }
            Shown::Null => to.put("NULL"),
        }
        to.put("\"");
    }
    to.put("\n");
}

// What is said of a statement that was carried out.
fn word_of(what: &What) -> &'static str {
    match what {
        What::Create(_) => "created\n",
        What::Insert => "inserted\n",
        What::Update => " updated\n",
        What::Delete => " deleted\n",
        What::Drop(_) => "dropped\n",
        What::Select => " rows\n",
        What::Unknown => "?\n",
    }
}

/// Writes what a statement is answered, with this header.
pub fn put_answer(to: &mut Pen, what: &What, head: &[u8], answer: &Answer) {
    match answer {
        Answer::Refused(refusal) => return to.write(refusal_line(*refusal).as_bytes()),
        Answer::Done => to.put("= "),
        Answer::Changed(n) => {
            to.put("= ");
            to.put_number(*n);
        }
        Answer::Rows(rows) => {
            to.write(head);
            to.put("\n");
            for row in rows.as_slice() {
                put_row(to, row.as_slice());
            }
            to.put("= ");
            to.put_number(rows.as_slice().len());
        }
    }
    to.put(word_of(what));
}
