//! A store of blocks in files, and the keeper of its mark in one more.
#![tactic(auto)]

mod complaint;
mod folder;
mod keeper;
mod region;
mod store;
mod text;

pub use complaint::Complaint;
pub use folder::{Names, RegionFiles, is_passed, names_in, region_in, settle, split_path};
pub use keeper::{FileKeeper, drawn};
pub use region::{is_named, make_new, open_file};
pub use store::FileStore;
pub use text::{LONG, read_text, rename, write_text};
