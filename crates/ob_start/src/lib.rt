//! How a run over files begins: where its store and its mark may lie, what keeps other runs away, and what has to be there.
#![tactic(auto)]

mod kept;
mod locks;
mod place;
mod saved;
mod scratch;
mod start;

pub use kept::{KeptStore, begin_kept};
pub use place::{follow, is_inside, is_name, mark_beside, may_be_named, regions_in, unslashed};
pub use saved::{SavedStore, begin_saved};
pub use scratch::{Scratch, begin_scratch};
pub use start::{
    FoundMark, FoundScratch, FoundStore, StartErr, anew_refusal, keep_refusal, save_refusal,
};
