//! A plain evaluator of statements over vectors, whose answers are SQL's by definition.
#![tactic(auto)]

mod changes;
mod copies;
mod creates;
mod groups;
mod inserts;
mod printed;
mod run;
mod selects;
mod sources;
mod steps;
mod tables;
mod totals;
mod truth;

pub use run::reference;
pub use tables::Database;
