//! Statements one after the other.
ghost use Rattle.std.specs.Prelude.{◌≡◌, ◌≤◌, ◌+◌, ◌*◌, ◌++◌, [], IfOk, OnOk};
ghost use Rattle.ob_reference.specs.Runs.{answers};

use crate::tables::Database;
use ob_base::{Config, NoMemory};
use ob_mean::Answer;
use ob_sql::Stmt;
use std::alloc::Global;

fn add_answers(
    alloc: Global,
    config: &Config,
    stmts: &[Stmt],
    db: &mut Database,
    to: &mut Vec<Answer>,
) -> Result<(), NoMemory>
    requires pack { 1 ≤ config.now.pack }
    requires buffer { 3 * config.now.pack + 1 ≤ config.now.buffer }
    ensures { OnOk result (to.new.items ≡ to.old.items ++ answers config.now db.old stmts.now) }
{
    match stmts.split_first() {
        None => Ok(()),
        Some((stmt, stmts)) => match db.step(alloc, config, stmt) {
            Err(_) => Err(NoMemory),
            Ok(answer) => match to.push(answer) {
                Err(_) => Err(NoMemory),
                Ok(()) => add_answers(alloc, config, stmts, db, to),
            },
        },
    }
}

/// The answers of statements, one after the other, that begin with no tables.
pub fn reference(alloc: Global, config: &Config, stmts: &[Stmt]) -> Result<Vec<Answer>, NoMemory>
    requires pack { 1 ≤ config.now.pack }
    requires buffer { 3 * config.now.pack + 1 ≤ config.now.buffer }
    ensures { IfOk result (λ given. given.items ≡ answers config.now [] stmts.now) }
{
    let mut db = Database::new(alloc);
    let mut given = Vec::new(alloc);
    match add_answers(alloc, config, stmts, &mut db, &mut given) {
        Err(_) => Err(NoMemory),
        Ok(()) => Ok(given),
    }
}
