//! From the bytes of the input to the bytes of the answers.
#![tactic(auto)]

mod batching;
mod feed;
mod flying;
mod generating;
mod keeping;
mod key;
mod pending;
mod salting;
mod saving;
mod session;
mod top;
mod trace;

pub use feed::{Feed, Halt};
pub use keeping::{KeptEnded, keep_top};
pub use key::{FirstLine, read_key};
pub use pending::{Grown, Pending, PushStop};
pub use saving::save_top;
pub use session::{Halted, serve};
pub use top::{Ended, meddle_top, shell_top};
pub use trace::trace_from;
