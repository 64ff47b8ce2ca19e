//! SQL statements as they are written, and what they spell.
#![tactic(auto)]

mod stmt;

pub use stmt::{Against, Cond, CondTree, Listed, Literal, SelectRows, SelectTotals, Set, Stmt};
