//! The types that every layer speaks of, and the definitions that their contracts cite.
#![tactic(auto)]

mod access;
mod comparison;
mod config;
mod emit;
mod fault;
mod height;
mod items;
mod refusal;
mod schema;
mod seen;
mod shown;
mod skeleton;
mod text;

pub use access::Access;
pub use comparison::ComparisonOperator;
pub use config::{Config, Plan, Planner, Public};
pub use emit::{Emit, EmitErr};
pub use fault::{Failed, NoMemory, StoreErr};
pub use height::tree_height;
pub use items::Items;
pub use refusal::{Refusal, Stop};
pub use schema::{Column, Heading, Kind, Schema, Shape, Table};
pub use seen::{End, Seen};
pub use shown::Shown;
pub use skeleton::{ColumnName, NewColumn, NewKind, Skeleton, Source};
pub use text::{Label, Name, Text};
