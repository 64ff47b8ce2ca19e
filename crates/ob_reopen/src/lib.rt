//! What outlasts a run: the mark that a keeper holds, and the closing, a region that lists an engine's tables,
//! from which the next run opens them again.
#![tactic(auto)]

mod catalogue;
mod closing;
mod fault;
mod keeper;
mod laws;
mod limits;
mod listed;
mod mark;
mod memory;
mod parsing;
mod reading;
mod salts;
mod spelling;
mod tables;
mod writing;

pub use catalogue::list_tables;
pub use closing::Closing;
pub use fault::{CloseErr, OpenErr};
pub use keeper::{Keeper, Salts};
pub use laws::{
    closings_keep_keys, lists_are_catalogues, names_order_tables, rests_outlast, tables_keep_keys,
    tables_rest_by_salts,
};
pub use listed::Listed;
pub use mark::Mark;
pub use memory::MemKeeper;
pub use reading::read_closing;
pub use salts::salted_regions;
pub use tables::reopen_tables;
pub use writing::write_closing;
